//! The bytes of a text, read from the left.
ghost use Rattle.std.specs.Prelude.{◌≡◌, ◌≤◌, ◌^◌, ◌==◌, length, MatchResult, OnOk};
ghost use Rattle.aom_source_tokens.specs.Places.{first_place};
ghost use Rattle.aom_source_tokens.specs.Tokens.{passed, skipped, lexed, word_of, size_of};

use crate::bytes::gap_length;
use crate::lexeme::lexeme;
use crate::{Place, Token, TokenFault};
use std::marker::Model;

/// What is still to be read of a text, and its place.
#[derive(Drop)]
pub struct Cursor<'a> {
    rest: &'a [u8],
    place: Place,
}

impl<'a> Model for Cursor<'a> {
    ghost use Rattle.std.specs.Prelude.{◌≤◌, ◌+◌, ◌*◌, ◌^◌, length};
    ghost use Rattle.aom_source_tokens.specs.Tokens.{Rest};

    ghost Value = { Rest };

    ghost view = { λ c. record { place = c.place; bytes = c.rest.now } };

    ghost invariant = { λ c. (c.place.at + length c.rest.now ≤ 2 ^ 20) × (c.place.line + c.place.column ≤ 2 * c.place.at + 2) };
}

impl<'a> Cursor<'a> {
    /// At the first token of a text.
    pub fn of(source: &'a [u8]) -> Cursor<'a>
        requires { length source.now ≤ 2 ^ 20 }
        ensures { result ≡ skipped (record { place = first_place; bytes = source.now }) }
    {
        let mut cursor = Cursor {
            rest: source,
            place: Place::FIRST,
        };
        cursor.skip();
        cursor
    }

    pub fn is_at_end(&self) -> bool
        ensures { result ≡ (length self.now.bytes == 0) }
    {
        self.rest.is_empty()
    }

    pub fn place(&self) -> Place
        ensures { result ≡ self.now.place }
    {
        self.place
    }

    /// The token that begins here, which is read.
    pub fn next(&mut self) -> Result<Token<'a>, TokenFault>
        ensures token { MatchResult result
            (λ t. lexed self.old.bytes ≡ Ok (word_of t.kind, size_of (lexed self.old.bytes)))
            (λ f. lexed self.old.bytes ≡ Err f.kind) }
        ensures within { OnOk result (size_of (lexed self.old.bytes) ≤ length self.old.bytes) }
        ensures place { MatchResult result (λ t. t.place ≡ self.old.place) (λ f. f.place ≡ self.old.place) }
        ensures rest { OnOk result (self.new ≡ skipped (passed (size_of (lexed self.old.bytes)) self.old)) }
    {
        let place = self.place;
        match lexeme(self.rest) {
            Ok((kind, length)) => {
                self.pass(length);
                self.skip();
                Ok(Token { kind, place })
            }
            Err(kind) => Err(TokenFault { kind, place }),
        }
    }

    /// Blanks and comments are read.
    fn skip(&mut self)
        ensures { self.new ≡ skipped self.old }
    {
        self.pass(gap_length(self.rest));
    }

    /// As many bytes are read.
    fn pass(&mut self, count: usize)
        requires { count ≤ length self.old.bytes }
        ensures { self.new ≡ passed count self.old }
    {
        *self = Cursor {
            rest: &self.rest[count..],
            place: self.place.after(&self.rest[..count]),
        };
    }
}
