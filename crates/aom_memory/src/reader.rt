//! A reader over a slice.
ghost use Rattle.std.specs.Prelude.{◌≡◌};

use aom_transcript::Reader;
use std::marker::Model;

/// Gives the bytes of a slice, and then its end. It never fails.
#[derive(Drop)]
pub struct SliceReader<'a> {
    text: &'a [u8],
    /// How many of them it has given.
    given: usize,
}

impl<'a> Model for SliceReader<'a> {
    ghost use Rattle.std.specs.Prelude.{◌≤◌, length};
    ghost use Rattle.aom_memory.specs.Memory.{Reading};

    ghost Value = { Reading };

    ghost view = { λ r. record { text = r.text.now; given = r.given } };

    ghost invariant = { λ r. r.given ≤ length r.text.now };
}

impl<'a> SliceReader<'a> {
    /// One that has given nothing yet.
    pub fn new(text: &'a [u8]) -> SliceReader<'a>
        ensures { result ≡ record { text = text.entry.now; given = 0 } }
    {
        SliceReader { text, given: 0 }
    }
}

impl<'a> Reader for SliceReader<'a> {
    ghost use Rattle.std.specs.Prelude.{Some, false, length, nat_le, take};

    ghost given = { λ r. Some (take r.given r.text) };

    ghost ended = { λ r. nat_le (length r.text) r.given };

    ghost failed = { λ _. false };

    fn get(&mut self, buffer: &mut [u8]) -> Option<usize> {
        let rest = &self.text[self.given..];
        let count = rest.len().min(buffer.len());
        buffer[..count].copy_from_slice(&rest[..count]);
        self.given += count;
        Some(count)
    }
}
