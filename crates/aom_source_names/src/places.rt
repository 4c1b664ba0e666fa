//! The declarations of a name.
ghost use Rattle.std.specs.Prelude.{◌≡◌, IfOk, length};
ghost use Rattle.aom_source_tokens.specs.Tokens.{A_name, word_of};
ghost use Rattle.aom_source_names.specs.Declarations.{declared_as};
ghost use Rattle.aom_source_names.specs.Words.{are_same_name};
ghost use Rattle.aom_source_names.specs.Meanings.{classes_at, declarations_in, definitions_of, first_matching, fits, holds_for, is_among, is_member_of, is_number, is_of_named, is_outer, has_name, line_of, meant_at, means_it, places_of, matching, parent_of, suits, used_as, wanted_alone, wanted_as, wanted_of};

use crate::words::{are_same_name, is_colon, is_name, is_open_parenthesis};
use crate::{Declared, Names, Wanted};
use aom_source_tokens::{Keyword, Kind, Mark};
use std::alloc::{AllocError, Global};

/// The most classes above each other that are looked at.
const MOST_CLASSES: usize = 256;

impl<'t, 'a> Names<'t, 'a> {
    /// The tokens that declare the name at the token of a number, in their order: itself, where it declares one, and none, where it is no name.
    pub fn definitions(&self, alloc: Global, at: u32) -> Result<Vec<u32>, AllocError>
        ensures { IfOk result (λ found. found.items ≡ definitions_of self.now at) }
    {
        let mut alone: Vec<u32> = Vec::new(alloc);
        if !is_name(self.kind(at as usize)) {
            return Ok(alone);
        }
        if self.declared(at).is_some() {
            alone.push(at)?;
            return Ok(alone);
        }
        self.used(alloc, at)
    }

    /// The tokens that mean what the name at the token of a number means, in their order: those that declare it, and those that use it.
    /// None, where it is no name, or one that is declared nowhere.
    #[tactic(auto, unfolding(crate::specs::Meanings::places_in))]
    pub fn places(&self, alloc: Global, at: u32) -> Result<Vec<u32>, AllocError>
        ensures { IfOk result (λ found. found.items ≡ places_of self.now at) }
    {
        let mut found: Vec<u32> = Vec::new(alloc);
        let Some(meant) = self.meant(alloc, at)? else {
            return Ok(found);
        };
        for other in 0..self.tokens().len() as u32 {
            if self.means(alloc, at, meant, other)? {
                found.push(other)?;
            }
        }
        Ok(found)
    }

    /// Whether a token is the name at another, and means that declaration.
    fn means(&self, alloc: Global, at: u32, meant: u32, other: u32) -> Result<bool, AllocError>
        ensures { IfOk result (λ means. means ≡ means_it self.now at meant other) }
    {
        if !are_same_name(self.kind(at as usize), self.kind(other as usize)) {
            return Ok(false);
        }
        Ok(is_number(self.meant(alloc, other)?, meant))
    }

    /// The declaration for which all stand that mean the same: of a method the first of its name.
    fn meant(&self, alloc: Global, at: u32) -> Result<Option<u32>, AllocError>
        ensures { IfOk result (λ meant. meant ≡ meant_at self.now at) }
    {
        let found = self.definitions(alloc, at)?;
        match found.get(0).copied() {
            Some(first) if self.declared(first) == Some(Declared::Method) => {
                let methods = self.matching(alloc, at as usize, &[], Wanted::Method)?;
                Ok(methods.get(0).copied())
            }
            first => Ok(first),
        }
    }

    /// The tokens that declare something else than a parameter or a local, in their order.
    #[tactic(auto, unfolding(crate::specs::Meanings::declarations_in))]
    pub fn declarations(&self, alloc: Global) -> Result<Vec<u32>, AllocError>
        ensures { IfOk result (λ found. found.items ≡ declarations_in self.now (length self.now.tokens)) }
    {
        let mut found: Vec<u32> = Vec::new(alloc);
        for at in 0..self.tokens().len() as u32 {
            if is_outer(self.declared(at)) {
                found.push(at)?;
            }
        }
        Ok(found)
    }

    /// Whether some token is the name of these bytes.
    #[tactic(auto, unfolding(crate::specs::Meanings::has_name))]
    pub fn has(&self, name: &[u8]) -> bool
        ensures { result ≡ has_name name.now (length self.now.tokens) self.now }
    {
        let mut has = false;
        for at in 0..self.tokens().len() {
            has = has || is_name_of(self.kind(at), name);
        }
        has
    }

    /// The declarations of a name that is used.
    fn used(&self, alloc: Global, at: u32) -> Result<Vec<u32>, AllocError>
        ensures { IfOk result (λ found. found.items ≡ used_as self.now at) }
    {
        let before = self.kind((at as usize).saturating_sub(1));
        let next = self.kind(at as usize + 1);
        let classes = self.line(alloc, self.spot(at).outer)?;
        self.first_matching(alloc, at, &classes, wanted_as(before, next))
    }

    /// The first declarations that are any, of those that are looked up one after the other.
    fn first_matching(
        &self,
        alloc: Global,
        at: u32,
        classes: &[u32],
        wanted: &[Wanted],
    ) -> Result<Vec<u32>, AllocError>
        ensures { IfOk result (λ found. found.items ≡ first_matching self.now at classes.now wanted.now) }
    {
        for one in wanted {
            let found = self.matching(alloc, at as usize, classes, *one)?;
            if !found.is_empty() {
                return Ok(found);
            }
        }
        Ok(Vec::new(alloc))
    }

    /// The tokens that declare the name at a token as that, where these are the classes in question.
    #[tactic(auto, unfolding(crate::specs::Meanings::matching_in))]
    pub fn matching(
        &self,
        alloc: Global,
        at: usize,
        classes: &[u32],
        wanted: Wanted,
    ) -> Result<Vec<u32>, AllocError>
        ensures { IfOk result (λ found. found.items ≡ matching self.now at classes.now wanted) }
    {
        let mut found: Vec<u32> = Vec::new(alloc);
        for declared in 0..self.tokens().len() as u32 {
            if self.fits(at, classes, wanted, declared) {
                found.push(declared)?;
            }
        }
        Ok(found)
    }

    fn fits(&self, at: usize, classes: &[u32], wanted: Wanted, declared: u32) -> bool
        ensures { result ≡ fits self.now at classes.now wanted declared }
    {
        are_same_name(self.kind(at), self.kind(declared as usize))
            && self.suits(at, classes, declared, wanted)
    }

    /// Whether a token declares what is wanted.
    fn suits(&self, at: usize, classes: &[u32], declared: u32, wanted: Wanted) -> bool
        ensures { result ≡ suits self.now at classes.now declared wanted (declared_as self.now declared) }
    {
        let outer = self.spot(declared).outer;
        match (wanted, self.declared(declared)) {
            (Wanted::Class | Wanted::Type, Some(Declared::Class))
            | (Wanted::Type | Wanted::Enum, Some(Declared::Enum))
            | (Wanted::Const, Some(Declared::Const))
            | (Wanted::Function, Some(Declared::Function))
            | (Wanted::Undo, Some(Declared::Undo))
            | (Wanted::Method, Some(Declared::Method)) => true,
            (Wanted::OwnMethod, Some(Declared::Method))
            | (Wanted::Field, Some(Declared::Word | Declared::Owner)) => is_member_of(
                classes, outer,
            ),
            (Wanted::Member, Some(Declared::Member)) => self.is_of_named(at, outer),
            (Wanted::Local, Some(Declared::Local | Declared::Parameter)) => {
                declared as usize <= at && self.holds_at(declared as usize, at)
            }
            _ => false,
        }
    }

    fn is_of_named(&self, at: usize, outer: Option<u32>) -> bool
        ensures { result ≡ is_of_named self.now at outer }
    {
        match outer {
            Some(outer) => are_same_name(
                self.kind(at.saturating_sub(2)),
                self.kind(outer as usize),
            ),
            None => false,
        }
    }

    /// The class that the head of another names as its parent.
    fn parent(&self, alloc: Global, class: u32) -> Result<Option<u32>, AllocError>
        ensures { IfOk result (λ parent. parent ≡ parent_of self.now class) }
    {
        if !is_colon(self.kind(class as usize + 1)) {
            return Ok(None);
        }
        let found = self.matching(alloc, class as usize + 2, &[], Wanted::Class)?;
        Ok(found.get(0).copied())
    }

    /// A class and those above it.
    #[tactic(auto, unfolding(crate::specs::Meanings::line_of))]
    fn line(&self, alloc: Global, class: Option<u32>) -> Result<Vec<u32>, AllocError>
        ensures { IfOk result (λ line. line.items ≡ line_of self.now 256 class) }
    {
        let mut line: Vec<u32> = Vec::new(alloc);
        let mut next = class;
        for _ in 0..MOST_CLASSES {
            let Some(class) = next else {
                return Ok(line);
            };
            line.push(class)?;
            next = self.parent(alloc, class)?;
        }
        Ok(line)
    }
}

/// Whether a declaration is none of a parameter or a local.
fn is_outer(declared: Option<Declared>) -> bool
    ensures { result ≡ is_outer declared }
{
    !matches!(declared, None | Some(Declared::Parameter | Declared::Local))
}

fn is_number(number: Option<u32>, other: u32) -> bool
    ensures { result ≡ is_number number other }
{
    match number {
        Some(number) => number == other,
        None => false,
    }
}

fn is_name_of(kind: Kind<'_>, name: &[u8]) -> bool
    ensures { result ≡ are_same_name (word_of kind.entry) (A_name name.now) }
{
    match kind {
        Kind::Name(other) => other == name,
        _ => false,
    }
}

fn is_member_of(classes: &[u32], outer: Option<u32>) -> bool
    ensures { result ≡ is_member_of classes.now outer }
{
    match outer {
        Some(outer) => is_among(outer, classes),
        None => false,
    }
}

fn is_among(number: u32, numbers: &[u32]) -> bool
    ensures { result ≡ is_among number numbers.now }
{
    numbers.iter().any(|other| number == *other)
}

/// What a name is looked up as, by the tokens beside it.
fn wanted_as(before: Kind<'_>, next: Kind<'_>) -> &'static [Wanted]
    ensures { result.now ≡ wanted_as (word_of before.entry) (word_of next.entry) }
{
    match before {
        Kind::Mark(Mark::Dot | Mark::MaybeDot) => wanted_of(next),
        Kind::Mark(Mark::Colon | Mark::Arrow)
        | Kind::Keyword(Keyword::New | Keyword::Of)
        | Kind::Name(_) => &[Wanted::Type],
        Kind::Keyword(Keyword::Defer) => &[Wanted::Undo],
        _ => wanted_alone(next),
    }
}

/// What a name behind a dot is looked up as.
fn wanted_of(next: Kind<'_>) -> &'static [Wanted]
    ensures { result.now ≡ wanted_of (word_of next.entry) }
{
    if is_open_parenthesis(next) {
        &[Wanted::Method]
    } else {
        &[Wanted::Member]
    }
}

/// What a name that stands for a value, or is called, is looked up as.
fn wanted_alone(next: Kind<'_>) -> &'static [Wanted]
    ensures { result.now ≡ wanted_alone (word_of next.entry) }
{
    if is_open_parenthesis(next) {
        &[Wanted::OwnMethod, Wanted::Function]
    } else {
        &[Wanted::Local, Wanted::Field, Wanted::Const, Wanted::Enum]
    }
}
