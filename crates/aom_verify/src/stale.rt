//! Which places are to be worked.
ghost use Rattle.std.specs.Prelude.{◌≡◌, ◌≢◌, ◌⊎◌, ℕ, IfOk, false, replicate, true};
ghost use Rattle.aom_roles.specs.Tables.{at};
ghost use Rattle.aom_verify.specs.declared.change.StatesChange.TheVariants.{Nothing};

use crate::change::StatesChange;
use std::alloc::{AllocError, Global};
use std::marker::Model;

/// The places whose states may have changed since they were last worked.
#[derive(Drop)]
pub(crate) struct Stale {
    places: Vec<bool>,
}

impl Model for Stale {
    ghost use Rattle.std.specs.Prelude.{Bool, List};

    ghost Value = { List Bool };

    ghost view = { λ s. s.places.items };
}

impl Stale {
    /// Each of so many places.
    pub(crate) fn all(alloc: Global, count: usize) -> Result<Stale, AllocError>
        ensures { IfOk result (λ s. s ≡ replicate count true) }
    {
        let places = vec![in alloc; true; count]?;
        Ok(Stale { places })
    }

    /// Whether a place is to be worked. It is worked now.
    pub(crate) fn take(&mut self, place: usize) -> bool
        ensures was { result ≡ at true self.old place }
        ensures others { (pc : ℕ) → pc ≢ place → at true self.new pc ≡ false → at true self.old pc ≡ false }
    {
        if self.places.len() <= place {
            return true;
        }
        let is_stale = self.places[place];
        self.places[place] = false;
        is_stale
    }

    /// A place is to be worked where its state changes so.
    pub(crate) fn mark(&mut self, to: usize, change: StatesChange)
        ensures { (pc : ℕ) → at true self.new pc ≡ false → (at true self.old pc ≡ false) × ((change ≡ Nothing) ⊎ (pc ≢ to)) }
    {
        match change {
            StatesChange::Nothing => {}
            StatesChange::Fell | StatesChange::Reached => self.put(to),
        }
    }

    fn put(&mut self, place: usize)
        ensures { (pc : ℕ) → at true self.new pc ≡ false → (at true self.old pc ≡ false) × (pc ≢ place) }
    {
        if place < self.places.len() {
            self.places[place] = true;
        }
    }
}
