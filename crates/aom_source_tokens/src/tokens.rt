//! The tokens of a text.
ghost use Rattle.std.specs.Prelude.{◌≡◌, ◌≤◌, ◌^◌, ◌⊎◌, [], ◌∷◌, ◌++◌, length, OnOk, IfOk, IfErr, Ok, Err};
ghost use Rattle.aom_source_tokens.specs.Places.{IsPlaceIn};
ghost use Rattle.aom_source_tokens.specs.Tokens.{tokens_of, token_at, placed_of};
ghost use Rattle.aom_source_tokens.specs.declared.fault.TokenFaultKind.TheVariants.{OutOfMemory};

use crate::cursor::Cursor;
use crate::{Kind, Place, Token, TokenFault, TokenFaultKind};
use std::alloc::Global;
use std::marker::Model;

/// How many bytes a text has at most.
const MOST_BYTES: usize = 1 << 20;

/// All tokens of a text before its end, and where it ends.
#[derive(Drop)]
pub struct Tokens<'a> {
    source: &'a [u8],
    tokens: Vec<Token<'a>>,
    end: Place,
}

impl<'a> Model for Tokens<'a> {
    ghost use Rattle.std.specs.Prelude.{◌≤◌, ◌^◌, vec_len, map, All};
    ghost use Rattle.aom_source_tokens.specs.Places.{IsPlaceIn};
    ghost use Rattle.aom_source_tokens.specs.Tokens.{Source, placed_of};

    ghost Value = { Source };

    ghost view = { λ t. record { bytes = t.source.now; tokens = map placed_of t.tokens.items; end = t.end } };

    ghost invariant = { λ t. (vec_len t.tokens ≤ 2 ^ 20) × All (λ x. IsPlaceIn t.source.now x.place) t.tokens.items × IsPlaceIn t.source.now t.end };
}

impl<'a> Tokens<'a> {
    /// The tokens of a text, or what is wrong with it first and where.
    pub fn of(alloc: Global, source: &'a [u8]) -> Result<Tokens<'a>, TokenFault>
        ensures source { IfOk result (λ t. t.bytes ≡ source.now) }
        ensures tokens { IfOk result (λ t. tokens_of source.now ≡ Ok (t.tokens, t.end)) }
        ensures refused { IfErr result (λ f. (f.kind ≡ OutOfMemory) ⊎ (tokens_of source.now ≡ Err f)) }
        ensures place { IfErr result (λ f. IsPlaceIn source.now f.place) }
    {
        if source.len() > MOST_BYTES {
            return Err(TokenFault {
                kind: TokenFaultKind::TextTooLong,
                place: Place::FIRST,
            });
        }
        let mut cursor = Cursor::of(source);
        let mut tokens = Vec::new(alloc);
        while !cursor.is_at_end() {
            let token = cursor.next()?;
            keep(&mut tokens, token)?;
        }
        let end = cursor.place();
        Ok(Tokens {
            source,
            tokens,
            end,
        })
    }

    /// How many there are before the end.
    pub fn len(&self) -> usize
        ensures count { result ≡ length self.now.tokens }
        ensures few { result ≤ 2 ^ 20 }
    {
        self.tokens.len()
    }

    /// The token of that number. Behind the last comes the end.
    pub fn get(&self, at: usize) -> Token<'a>
        ensures token { placed_of result ≡ token_at self.now at }
        ensures place { IsPlaceIn self.now.bytes result.place }
    {
        match self.tokens.get(at) {
            Some(token) => *token,
            None => Token {
                kind: Kind::End,
                place: self.end,
            },
        }
    }

    /// The text.
    pub fn source(&self) -> &'a [u8]
        ensures { result.now ≡ self.now.bytes }
    {
        self.source
    }
}

/// Adds a token.
fn keep<'a>(tokens: &mut Vec<Token<'a>>, token: Token<'a>) -> Result<(), TokenFault>
    ensures kept { OnOk result (tokens.new.items ≡ tokens.old.items ++ token.entry ∷ []) }
    ensures refused { IfErr result (λ f. f ≡ record { kind = OutOfMemory; place = token.entry.place }) }
{
    let place = token.place;
    match tokens.push(token) {
        Ok(()) => Ok(()),
        Err(_) => Err(TokenFault {
            kind: TokenFaultKind::OutOfMemory,
            place,
        }),
    }
}
