//! A sink over a vector.
ghost use Rattle.std.specs.Prelude.{◌≡◌, [], false};

use aom_transcript::Sink;
use std::alloc::Global;

/// Has what it is sent as its text. It fails where there is no memory for more, and keeps what it has.
#[derive(Drop)]
pub struct MemorySink {
    pub text: Vec<u8>,
    pub is_full: bool,
}

impl MemorySink {
    /// An empty one.
    pub fn new(alloc: Global) -> MemorySink
        ensures empty { result.text.items ≡ [] }
        ensures lives { result.is_full ≡ false }
    {
        MemorySink {
            text: Vec::new(alloc),
            is_full: false,
        }
    }
}

impl Sink for MemorySink {
    ghost use Rattle.std.specs.Prelude.{Some};

    ghost out = { λ s. Some s.text.items };

    ghost failed = { λ s. s.is_full };

    fn put(&mut self, bytes: &[u8]) -> usize {
        if self.is_full || bytes.is_empty() {
            return 0;
        }
        if self.text.extend_from_slice(bytes).is_err() {
            self.is_full = true;
            return 0;
        }
        bytes.len()
    }

    fn has_failed(&self) -> bool {
        self.is_full
    }
}
