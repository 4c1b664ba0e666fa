//! A text on its way, word by word.
use std::alloc::Global;

/// A text on its way. Where memory lacks that is noted, and told at its end.
#[derive(Drop)]
pub struct Text {
    bytes: Vec<u8>,
    is_short: bool,
}

impl Text {
    /// No text yet.
    pub fn new(alloc: Global) -> Text {
        Text {
            bytes: Vec::new(alloc),
            is_short: false,
        }
    }

    /// Adds words.
    pub fn words(&mut self, words: &[u8]) {
        if self.bytes.extend_from_slice(words).is_err() {
            self.is_short = true;
        }
    }

    /// Adds a number.
    pub fn number(&mut self, number: i64) {
        let mut buffer = itoa::Buffer::new();
        self.words(buffer.format(number).as_bytes());
    }

    /// Adds words and a number.
    pub fn count(&mut self, words: &[u8], number: i64) {
        self.words(words);
        self.number(number);
    }

    /// The bytes, where there was memory for all of them.
    pub fn bytes(self) -> Option<Vec<u8>> {
        if self.is_short {
            return None;
        }
        Some(self.bytes)
    }
}
