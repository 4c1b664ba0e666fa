//! Where a token stands.
ghost use Rattle.std.specs.Prelude.{◌≡◌, ◌+◌, ◌<◌, ◌^◌, IfOk, get_or, length};
ghost use Rattle.aom_source_tokens.specs.Tokens.{word_of};
ghost use Rattle.aom_source_names.specs.Spots.{behind_closed, behind_name, behind_opened, behind_semicolon, first_spot, spot_behind, spots_up_to};

use crate::words::{is_class, is_enum};
use aom_source_tokens::{Kind, Mark, Tokens};
use std::alloc::{AllocError, Global};

/// Where a token stands: the number of the first token of its statement or head, how many braces are open there, and the token that names the class or the enum
/// in whose declaration it is.
#[derive(Clone, Copy)]
pub struct Spot {
    pub begin: u32,
    pub depth: usize,
    pub outer: Option<u32>,
}

impl Spot {
    pub const FIRST: Spot = Spot {
        begin: 0,
        depth: 0,
        outer: None,
    };

    /// Where the next token stands, behind one that stands here. `before` is the token before that.
    pub fn behind(self, kind: Kind<'_>, before: Kind<'_>, at: u32) -> Spot
        requires small { at < 2 ^ 31 }
        ensures { result ≡ spot_behind (word_of kind.entry) (word_of before.entry) at self }
    {
        match kind {
            Kind::Mark(Mark::OpenBrace) => self.behind_opened(at),
            Kind::Mark(Mark::CloseBrace) => self.behind_closed(at),
            Kind::Mark(Mark::Semicolon) => self.behind_semicolon(at),
            Kind::Name(_) => self.behind_name(before, at),
            _ => self,
        }
    }

    fn behind_opened(self, at: u32) -> Spot
        requires small { at < 2 ^ 31 }
        ensures { result ≡ behind_opened at self }
    {
        Spot {
            begin: at + 1,
            depth: self.depth.saturating_add(1),
            outer: self.outer,
        }
    }

    fn behind_closed(self, at: u32) -> Spot
        requires small { at < 2 ^ 31 }
        ensures { result ≡ behind_closed at self }
    {
        Spot {
            begin: at + 1,
            depth: self.depth.saturating_sub(1),
            outer: if self.depth <= 1 { None } else { self.outer },
        }
    }

    fn behind_semicolon(self, at: u32) -> Spot
        requires small { at < 2 ^ 31 }
        ensures { result ≡ behind_semicolon at self }
    {
        Spot {
            begin: at + 1,
            depth: self.depth,
            outer: if self.depth == 0 { None } else { self.outer },
        }
    }

    fn behind_name(self, before: Kind<'_>, at: u32) -> Spot
        ensures { result ≡ behind_name (word_of before.entry) at self }
    {
        if !is_class(before) && !is_enum(before) {
            return self;
        }
        Spot {
            begin: self.begin,
            depth: self.depth,
            outer: Some(at),
        }
    }
}

/// Where each token of a text stands, and its end.
#[tactic(auto, unfolding(crate::specs::Spots::spots_up_to))]
pub fn spots_of(alloc: Global, tokens: &Tokens<'_>) -> Result<Vec<Spot>, AllocError>
    ensures { IfOk result (λ v. v.items ≡ spots_up_to tokens.now (length tokens.now.tokens)) }
{
    let mut spots: Vec<Spot> = Vec::new(alloc);
    spots.push(Spot::FIRST)?;
    for at in 0..tokens.len() {
        let kind = tokens.get(at).kind;
        let before = tokens.get(at.saturating_sub(1)).kind;
        let spot = spot_at(&spots, at).behind(kind, before, at as u32);
        spots.push(spot)?;
    }
    Ok(spots)
}

/// Where the token of that number stands.
pub fn spot_at(spots: &Vec<Spot>, at: usize) -> Spot
    ensures { result ≡ get_or spots.now.items at first_spot }
{
    match spots.get(at) {
        Some(spot) => *spot,
        None => Spot::FIRST,
    }
}
