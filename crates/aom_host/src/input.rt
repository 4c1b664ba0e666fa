//! Standard input as a reader of commands.
use aom_transcript::Reader;
use std::io::Read;

/// A reader over another. What that gives is not known, so nothing is said of what was given; but whether it has told its end, and whether
/// a read has failed.
#[derive(Drop)]
pub struct Input<R> {
    reader: R,
    has_ended: bool,
    has_failed: bool,
}

impl<R> Input<R> {
    pub fn new(reader: R) -> Input<R> {
        Input {
            reader,
            has_ended: false,
            has_failed: false,
        }
    }
}

impl<R: Read> Reader for Input<R> {
    ghost use Rattle.std.specs.Prelude.{None};

    ghost given = { λ _. None };

    ghost ended = { λ i. i.has_ended };

    ghost failed = { λ i. i.has_failed };

    fn get(&mut self, buffer: &mut [u8]) -> Option<usize> {
        match self.reader.read(buffer) {
            Ok(0) => {
                self.has_ended = true;
                Some(0)
            }
            Ok(count) => Some(count),
            Err(_) => {
                self.has_failed = true;
                None
            }
        }
    }
}
