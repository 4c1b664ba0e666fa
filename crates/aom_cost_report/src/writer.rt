//! A text of words and numbers, which grows at its end.
ghost use Rattle.std.specs.Prelude.{◌≡◌, [], ◌++◌, OnOk, decimal};

use itoa::Buffer;
use std::alloc::{AllocError, Global};
use std::marker::Model;

#[derive(Drop)]
pub struct FigureWriter {
    text: Vec<u8>,
}

impl Model for FigureWriter {
    ghost use Rattle.std.specs.Prelude.{ℕ, List};

    ghost Value = { List ℕ };

    ghost view = { λ w. w.text.items };
}

impl FigureWriter {
    pub fn new(alloc: Global) -> FigureWriter
        ensures { result ≡ [] }
    {
        FigureWriter {
            text: Vec::new(alloc),
        }
    }

    pub fn into_text(self) -> Vec<u8>
        ensures { result.items ≡ self }
    {
        self.text
    }

    pub fn words(&mut self, words: &[u8]) -> Result<(), AllocError>
        ensures { OnOk result (self.new ≡ self.old ++ words.now) }
    {
        self.text.extend_from_slice(words)
    }

    /// Words, and a number behind them.
    pub fn count(&mut self, words: &[u8], number: u64) -> Result<(), AllocError>
        ensures { OnOk result (self.new ≡ self.old ++ words.now ++ decimal number) }
    {
        let mut buffer = Buffer::new();
        self.words(words)?;
        self.words(buffer.format(number).as_bytes())
    }
}
