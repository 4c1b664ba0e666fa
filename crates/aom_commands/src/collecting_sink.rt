//! A sink that keeps a text, or nothing of it.
ghost use Rattle.std.specs.Prelude.{◌≡◌, [], false};

use aom_transcript::Sink;
use std::alloc::Global;

/// Takes all that it is sent, and keeps it where that is asked.
#[derive(Drop)]
pub struct CollectingSink {
    pub text: Vec<u8>,
    pub keeps: bool,
    /// Whether memory was wanting for what is kept.
    pub is_full: bool,
}

impl CollectingSink {
    pub fn new(alloc: Global, keeps: bool) -> CollectingSink
        ensures empty { result.text.items ≡ [] }
        ensures keeps { result.keeps ≡ keeps }
    {
        CollectingSink {
            text: Vec::new(alloc),
            keeps,
            is_full: false,
        }
    }
}

impl Sink for CollectingSink {
    ghost use Rattle.aom_commands.specs.Explored.{kept_text};

    ghost out = { λ k. kept_text k.keeps k.text.items };

    ghost failed = { λ k. k.is_full };

    fn put(&mut self, bytes: &[u8]) -> usize {
        if self.is_full || bytes.is_empty() {
            return 0;
        }
        if self.keeps && self.text.extend_from_slice(bytes).is_err() {
            self.is_full = true;
            return 0;
        }
        bytes.len()
    }

    fn has_failed(&self) -> bool {
        self.is_full
    }
}
