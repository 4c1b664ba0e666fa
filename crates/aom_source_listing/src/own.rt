//! The classes of a source with what each declares.
ghost use Rattle.std.specs.Prelude.{◌≡◌, IfOk, IfSome, Some, slice_get};
ghost use Rattle.std.specs.List.{filter};
ghost use Rattle.aom_source_tokens.specs.Tokens.{Source, word_of};
ghost use Rattle.aom_source_names.specs.Meanings.{is_number, line_of, parent_of};
ghost use Rattle.aom_source_names.specs.Words.{are_same_name, is_colon};
ghost use Rattle.aom_source_listing.specs.Members.{is_member, members, members_along, own_members};
ghost use Rattle.aom_source_listing.specs.Own.{IsOwn, all_that, fits, is_name_at};
ghost use Rattle.aom_source_listing.specs.declared.own.Sought.TheVariants.{AnyClass, AnyMember};

use aom_source_names::{Declared, Names};
use aom_source_tokens::{Kind, Mark};
use std::alloc::{AllocError, Global};
use std::marker::Model;

/// The most classes above each other that are looked at.
const MOST_CLASSES: usize = 256;

/// What a class has.
#[derive(Clone, Copy, PartialEq, Eq, Debug)]
pub enum Member {
    Word,
    Field,
}

/// What is looked for among the tokens that declare something.
#[derive(Clone, Copy, PartialEq, Eq, Debug)]
enum Sought {
    AnyClass,
    /// A word or a field of any class.
    AnyMember,
    /// What the class that a token names has by its own declaration.
    Own(Member, u32),
}

/// A class, its parent, and what it declares itself.
#[derive(Drop)]
pub struct Own {
    class: u32,
    parent: Option<u32>,
    words: Vec<u32>,
    fields: Vec<u32>,
}

/// The names of a source, with its classes and what each declares.
#[derive(Drop)]
pub struct Owns<'n, 't, 'a> {
    names: &'n Names<'t, 'a>,
    classes: Vec<Own>,
}

impl<'n, 't, 'a> Model for Owns<'n, 't, 'a> {
    ghost use Rattle.std.specs.Prelude.{All};
    ghost use Rattle.aom_source_tokens.specs.Tokens.{Source};
    ghost use Rattle.aom_source_listing.specs.Own.{IsOwn};

    ghost Value = { Source };

    ghost view = { λ o. o.names.now };

    ghost invariant = { λ o. All (IsOwn o.names.now) o.classes.items };
}

impl<'n, 't, 'a> Owns<'n, 't, 'a> {
    /// The classes of a source.
    pub fn of(alloc: Global, names: &'n Names<'t, 'a>) -> Result<Owns<'n, 't, 'a>, AllocError>
        ensures { IfOk result (λ o. o ≡ names.now) }
    {
        let declarations = names.declarations(alloc)?;
        let members = those(alloc, names, &declarations, Sought::AnyMember)?;
        let named = those(alloc, names, &declarations, Sought::AnyClass)?;
        let mut classes: Vec<Own> = Vec::new(alloc);
        for class in &named {
            classes.push(own_of(alloc, names, &named, &members, *class)?)?;
        }
        Ok(Owns { names, classes })
    }

    /// The names.
    pub fn names(&self) -> &'n Names<'t, 'a>
        ensures { result.now ≡ self.now }
    {
        self.names
    }

    /// A class by the token that names it.
    fn class(&self, class: u32) -> Option<&Own>
        ensures class { IfSome result (λ own. own.now.class ≡ class) }
        ensures own { IfSome result (λ own. IsOwn self.now own.now) }
    {
        for own in &self.classes {
            if own.class == class {
                return Some(own);
            }
        }
        None
    }

    /// A class and those above it, if all are known.
    #[tactic(auto, unfolding(aom_source_names::specs::Meanings::line_of))]
    fn line(&self, alloc: Global, class: u32) -> Result<Option<Vec<u32>>, AllocError>
        ensures { IfOk result (λ found. IfSome found (λ line. line.items ≡ line_of self.now 256 (Some class))) }
    {
        let mut line: Vec<u32> = Vec::new(alloc);
        let mut next = Some(class);
        for _ in 0..MOST_CLASSES {
            let Some(class) = next else {
                return Ok(Some(line));
            };
            let Some(own) = self.class(class) else {
                return Ok(None);
            };
            line.push(class)?;
            next = own.parent;
        }
        Ok(Some(line))
    }

    /// The members of classes of which each descends from the next, if all are known.
    #[tactic(auto, unfolding(crate::specs::Members::members_along))]
    fn along(
        &self,
        alloc: Global,
        kind: Member,
        line: &Vec<u32>,
    ) -> Result<Option<Vec<u32>>, AllocError>
        ensures { IfOk result (λ found. IfSome found (λ members. members.items ≡ members_along self.now kind line.now.items)) }
    {
        let mut members: Vec<u32> = Vec::new(alloc);
        let count = line.len();
        for back in 0..count {
            let Some(own) = self.class(line[count - 1 - back]) else {
                return Ok(None);
            };
            members.extend_from_slice(own.members(kind))?;
        }
        Ok(Some(members))
    }

    /// The members of a class: those of the classes above it first.
    pub fn members(
        &self,
        alloc: Global,
        kind: Member,
        class: u32,
    ) -> Result<Option<Vec<u32>>, AllocError>
        ensures { IfOk result (λ found. IfSome found (λ all. all.items ≡ members self.now kind class)) }
    {
        match self.line(alloc, class)? {
            Some(line) => self.along(alloc, kind, &line),
            None => Ok(None),
        }
    }
}

impl Own {
    /// What it declares of a kind.
    fn members(&self, kind: Member) -> &[u32]
        ensures { (s : Source) → IsOwn s self.now → result.now ≡ own_members s kind self.now.class }
    {
        match kind {
            Member::Word => &self.words,
            Member::Field => &self.fields,
        }
    }
}

/// What a class declares, and which class it names as its parent.
fn own_of(
    alloc: Global,
    names: &Names<'_, '_>,
    classes: &Vec<u32>,
    members: &Vec<u32>,
    class: u32,
) -> Result<Own, AllocError>
    requires classes { classes.now.items ≡ all_that names.now AnyClass }
    requires members { members.now.items ≡ all_that names.now AnyMember }
    ensures { IfOk result (IsOwn names.now) }
{
    Ok(Own {
        class,
        parent: parent_of(names, classes, class),
        words: those(alloc, names, members, Sought::Own(Member::Word, class))?,
        fields: those(alloc, names, members, Sought::Own(Member::Field, class))?,
    })
}

/// The class that the head of another names as its parent.
fn parent_of(names: &Names<'_, '_>, classes: &Vec<u32>, class: u32) -> Option<u32>
    requires { classes.now.items ≡ all_that names.now AnyClass }
    ensures { result ≡ parent_of names.now class }
{
    if !is_colon(names.kind(class as usize + 1)) {
        return None;
    }
    first_named(names, classes, class as usize + 2)
}

/// The first of some tokens that is the name at a token.
fn first_named(names: &Names<'_, '_>, tokens: &Vec<u32>, at: usize) -> Option<u32>
    ensures { result ≡ slice_get (filter (is_name_at names.now at) tokens.now.items) 0 }
{
    for token in tokens {
        if are_same_name(names.kind(at), names.kind(*token as usize)) {
            return Some(*token);
        }
    }
    None
}

/// Those of some tokens that declare what is sought.
fn those(
    alloc: Global,
    names: &Names<'_, '_>,
    tokens: &Vec<u32>,
    sought: Sought,
) -> Result<Vec<u32>, AllocError>
    ensures { IfOk result (λ found. found.items ≡ filter (fits names.now sought) tokens.now.items) }
{
    let mut found: Vec<u32> = Vec::new(alloc);
    for token in tokens {
        if fits(names, sought, *token) {
            found.push(*token)?;
        }
    }
    Ok(found)
}

fn fits(names: &Names<'_, '_>, sought: Sought, at: u32) -> bool
    ensures { result ≡ fits names.now sought at }
{
    match sought {
        Sought::AnyClass => matches!(names.declared(at), Some(Declared::Class)),
        Sought::AnyMember => matches!(names.declared(at), Some(Declared::Word | Declared::Owner)),
        Sought::Own(kind, class) => {
            is_member(kind, names.declared(at)) && is_number(names.spot(at).outer, class)
        }
    }
}

fn is_member(kind: Member, declared: Option<Declared>) -> bool
    ensures { result ≡ is_member kind declared }
{
    matches!(
        (kind, declared),
        (Member::Word, Some(Declared::Word)) | (Member::Field, Some(Declared::Owner))
    )
}

fn is_number(number: Option<u32>, other: u32) -> bool
    ensures { result ≡ is_number number other }
{
    match number {
        Some(number) => number == other,
        None => false,
    }
}

fn is_colon(kind: Kind<'_>) -> bool
    ensures { result ≡ is_colon (word_of kind.entry) }
{
    matches!(kind, Kind::Mark(Mark::Colon))
}

fn are_same_name(one: Kind<'_>, other: Kind<'_>) -> bool
    ensures { result ≡ are_same_name (word_of one.entry) (word_of other.entry) }
{
    match (one, other) {
        (Kind::Name(one), Kind::Name(other)) => one == other,
        _ => false,
    }
}
