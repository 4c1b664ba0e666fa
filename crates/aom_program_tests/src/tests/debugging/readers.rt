//! Readers of tests.
use aom_debug::Reader;

/// A reader of a text, which gives at most so many bytes at a time, and tells its end or fails there.
#[derive(Drop)]
pub struct Typed<'a> {
    pub rest: &'a [u8],
    pub most: usize,
    /// Whether it fails where the text ends.
    pub is_torn: bool,
}

impl<'a> Reader for Typed<'a> {
    ghost use Rattle.std.specs.Prelude.{None, true};

    ghost given = { λ _. None };

    ghost ended = { λ _. true };

    ghost failed = { λ _. true };

    fn get(&mut self, buffer: &mut [u8]) -> Option<usize> {
        if self.is_torn && self.rest.is_empty() {
            return None;
        }
        let count = self.rest.len().min(self.most).min(buffer.len());
        buffer[..count].copy_from_slice(&self.rest[..count]);
        self.rest = &self.rest[count..];
        Some(count)
    }
}

/// A reader that always gives `x`.
#[derive(Drop)]
pub struct Stuck;

impl Reader for Stuck {
    ghost use Rattle.std.specs.Prelude.{None, true};

    ghost given = { λ _. None };

    ghost ended = { λ _. true };

    ghost failed = { λ _. true };

    fn get(&mut self, buffer: &mut [u8]) -> Option<usize> {
        let count = buffer.len().min(1);
        for byte in &mut buffer[..count] {
            *byte = b'x';
        }
        Some(count)
    }
}
