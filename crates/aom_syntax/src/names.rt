//! The names of a text.
ghost use Rattle.std.specs.Prelude.{◌≡◌, [], ◌∷◌, ◌++◌, ◌<◌, ◌≤◌, IfOk, length};
ghost use Rattle.aom_syntax.specs.Names.{place_of, referred};

use aom_text::AsmFaultKind;
use std::alloc::{AllocError, Global};
use std::collections::BTreeMap;
use std::marker::Model;

/// Names in the order in which they are declared, and the place at which each is declared first.
#[derive(Drop)]
pub struct NameList<'a> {
    names: Vec<&'a [u8]>,
    places: BTreeMap<&'a [u8], usize>,
}

impl<'a> Model for NameList<'a> {
    ghost use Rattle.std.specs.Prelude.{ℕ, List, map};
    ghost use Rattle.aom_syntax.specs.Names.{FindsFirst};

    ghost Value = { List (List ℕ) };

    ghost view = { λ n. map (λ w. w.now) n.names.items };

    ghost invariant = { λ n. FindsFirst n.places (map (λ w. w.now) n.names.items) };
}

impl<'a> NameList<'a> {
    pub fn none(alloc: Global) -> NameList<'a>
        ensures { result ≡ [] }
    {
        NameList {
            names: Vec::new(alloc),
            places: BTreeMap::new(alloc),
        }
    }

    /// Adds a name behind the others.
    pub fn add(&mut self, name: &'a [u8]) -> Result<(), AllocError>
        ensures { IfOk result (λ _. self.new ≡ self.old ++ name.now ∷ []) }
    {
        self.names.reserve(1)?;
        if !self.places.contains_key(name) {
            self.places.insert(name, self.names.len())?;
        }
        self.names.push(name).unwrap();
        Ok(())
    }

    /// Where a name is declared first.
    pub fn place_of(&self, name: &[u8]) -> Option<usize>
        ensures { result ≡ place_of name.now self.now }
    {
        self.places.get(name).copied()
    }

    /// The number of a name that is used. One that is declared nowhere is a fault, or where names are not told apart
    /// yet, it stands for 0.
    pub fn number_of(&self, name: &[u8], is_strict: bool, limit: u16) -> Result<u16, AsmFaultKind>
        requires { 0 < limit }
        ensures read { result ≡ referred is_strict limit (place_of name.now self.now) }
        ensures within { IfOk result (λ n. n < limit) }
    {
        match self.place_of(name) {
            Some(place) if place < usize::from(limit) => Ok(place as u16),
            _ if is_strict => Err(AsmFaultKind::UnknownName),
            _ => Ok(0),
        }
    }
}
