//! The names of a source.
ghost use Rattle.std.specs.Prelude.{◌≡◌, ◌+◌, ◌-◌, ◌<◌, ◌^◌, IfOk, None, Some, if◌then◌else◌};
ghost use Rattle.aom_source_tokens.specs.Tokens.{A_keyword, A_mark, word_of};
ghost use Rattle.aom_source_tokens.specs.declared.mark.Mark.TheVariants.{Comma};
ghost use Rattle.aom_source_names.specs.declared.declared.Declared.TheVariants.{Member};
ghost use Rattle.aom_source_scopes.specs.Scopes.{holds_at, word_at};
ghost use Rattle.aom_source_names.specs.Declarations.{declared_as, declared_behind, function_or_method, is_in_enum, is_of_enum, listed, parameter};
ghost use Rattle.aom_source_names.specs.Spots.{spot_at, spots_up_to};

use crate::Declared;
use crate::spot::{Spot, spot_at, spots_of};
use crate::words::{begins_role, is_colon, is_enum, is_name};
use aom_source_scopes::Scopes;
use aom_source_tokens::{Keyword, Kind, Mark, Tokens};
use std::alloc::{AllocError, Global};
use std::marker::Model;

/// The tokens of a source, with where they stand and where names hold.
#[derive(Drop)]
pub struct Names<'t, 'a> {
    tokens: &'t Tokens<'a>,
    scopes: Scopes<'t, 'a>,
    spots: Vec<Spot>,
}

impl<'t, 'a> Model for Names<'t, 'a> {
    ghost use Rattle.std.specs.Prelude.{◌≡◌, length};
    ghost use Rattle.aom_source_tokens.specs.Tokens.{Source};
    ghost use Rattle.aom_source_names.specs.Spots.{spots_up_to};

    ghost Value = { Source };

    ghost view = { λ n. n.tokens.now };

    ghost invariant = { λ n. (n.scopes ≡ n.tokens.now) × (n.spots.items ≡ spots_up_to n.tokens.now (length n.tokens.now.tokens)) };
}

impl<'t, 'a> Names<'t, 'a> {
    /// The names of a source, by its tokens.
    pub fn of(alloc: Global, tokens: &'t Tokens<'a>) -> Result<Names<'t, 'a>, AllocError>
        ensures { IfOk result (λ n. n ≡ tokens.now) }
    {
        let scopes = Scopes::of(alloc, tokens)?;
        let spots = spots_of(alloc, tokens)?;
        Ok(Names {
            tokens,
            scopes,
            spots,
        })
    }

    /// The tokens.
    pub fn tokens(&self) -> &'t Tokens<'a>
        ensures { result.now ≡ self.now }
    {
        self.tokens
    }

    /// What the token of a number is.
    pub fn kind(&self, at: usize) -> Kind<'a>
        ensures { word_of result ≡ word_at self.now at }
    {
        self.tokens.get(at).kind
    }

    /// Where the token of a number stands.
    pub fn spot(&self, at: u32) -> Spot
        ensures { result ≡ spot_at self.now at }
    {
        spot_at(&self.spots, at as usize)
    }

    /// Whether the name that one token declares holds at another.
    pub fn holds_at(&self, declared: usize, at: usize) -> bool
        ensures { result ≡ holds_at self.now declared at }
    {
        self.scopes.holds_at(declared, at)
    }

    /// What the token of a number declares, if it does.
    pub fn declared(&self, at: u32) -> Option<Declared>
        ensures { result ≡ declared_as self.now at }
    {
        if !is_name(self.kind(at as usize)) {
            return None;
        }
        match self.kind((at as usize).saturating_sub(1)) {
            Kind::Keyword(keyword) => self.declared_behind(at, keyword),
            Kind::Mark(Mark::OpenBrace) => self.member(at),
            Kind::Mark(Mark::Comma) => self.behind_comma(at, self.spot(at)),
            Kind::Mark(Mark::OpenParenthesis) => {
                self.parameter(at, self.kind(self.spot(at).begin as usize))
            }
            _ => None,
        }
    }

    /// What a name behind a keyword is declared as.
    fn declared_behind(&self, at: u32, keyword: Keyword) -> Option<Declared>
        ensures { result ≡ declared_behind self.now at (A_keyword keyword) }
    {
        match keyword {
            Keyword::Class => Some(Declared::Class),
            Keyword::Enum => Some(Declared::Enum),
            Keyword::Const => Some(Declared::Const),
            Keyword::Fn => Some(function_or_method(self.spot(at).depth)),
            Keyword::Undo => Some(Declared::Undo),
            Keyword::Word => Some(Declared::Word),
            Keyword::Own => Some(Declared::Owner),
            Keyword::Let | Keyword::For | Keyword::Catch => Some(Declared::Local),
            _ => None,
        }
    }

    /// What a name behind a comma is declared as.
    fn behind_comma(&self, at: u32, spot: Spot) -> Option<Declared>
        requires { spot ≡ spot_at self.now at }
        ensures { result ≡ declared_behind self.now at (A_mark Comma) }
    {
        if self.is_in_enum(spot) {
            return Some(Declared::Member);
        }
        self.listed(at, self.kind(spot.begin as usize))
    }

    /// A member of an enum, if the token stands in one.
    fn member(&self, at: u32) -> Option<Declared>
        ensures { result ≡ (if is_in_enum self.now (spot_at self.now at) then Some Member else None) }
    {
        if self.is_in_enum(self.spot(at)) {
            Some(Declared::Member)
        } else {
            None
        }
    }

    fn is_in_enum(&self, spot: Spot) -> bool
        ensures { result ≡ is_in_enum self.now spot }
    {
        spot.depth == 1 && self.is_of_enum(spot.outer)
    }

    fn is_of_enum(&self, outer: Option<u32>) -> bool
        ensures { result ≡ is_of_enum self.now outer }
    {
        match outer {
            Some(outer) => is_enum(self.kind((outer as usize).saturating_sub(1))),
            None => false,
        }
    }

    /// What a name behind a comma is declared as, by the first token of its statement or head.
    fn listed(&self, at: u32, first: Kind<'_>) -> Option<Declared>
        ensures { result ≡ listed self.now at (word_of first.entry) }
    {
        match first {
            Kind::Keyword(Keyword::Word) => Some(Declared::Word),
            Kind::Keyword(Keyword::Let) => match self.kind((at as usize).saturating_sub(3)) {
                Kind::Keyword(Keyword::Let) => Some(Declared::Local),
                _ => None,
            },
            _ => self.parameter(at, first),
        }
    }

    /// A parameter, if the name is one.
    fn parameter(&self, at: u32, first: Kind<'_>) -> Option<Declared>
        ensures { result ≡ parameter self.now at (word_of first.entry) }
    {
        if begins_role(first) || is_colon(self.kind(at as usize + 1)) {
            Some(Declared::Parameter)
        } else {
            None
        }
    }
}

fn function_or_method(depth: usize) -> Declared
    ensures { result ≡ function_or_method depth }
{
    if depth == 0 {
        Declared::Function
    } else {
        Declared::Method
    }
}
