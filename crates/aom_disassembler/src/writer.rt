//! The text of a listing, which grows at its end.
ghost use Rattle.std.specs.Prelude.{◌≡◌, [], ◌∷◌, ◌++◌, OnOk, decimal};
ghost use Rattle.std.specs.Fmt.{signed_decimal};
ghost use Rattle.aom_syntax.specs.Keywords.{keyword_text};
ghost use Rattle.aom_instructions.specs.Mnemonics.{mnemonic_text};

use aom_image::Mnemonic;
use aom_syntax::Keyword;
use itoa::Buffer;
use std::alloc::{AllocError, Global};
use std::marker::Model;

#[derive(Drop)]
pub struct ListingWriter {
    text: Vec<u8>,
}

impl Model for ListingWriter {
    ghost use Rattle.std.specs.Prelude.{ℕ, List};

    ghost Value = { List ℕ };

    ghost view = { λ w. w.text.items };
}

impl ListingWriter {
    pub fn new(alloc: Global) -> ListingWriter
        ensures { result ≡ [] }
    {
        ListingWriter {
            text: Vec::new(alloc),
        }
    }

    pub fn into_text(self) -> Vec<u8>
        ensures { result.items ≡ self }
    {
        self.text
    }

    pub fn push(&mut self, bytes: &[u8]) -> Result<(), AllocError>
        ensures { OnOk result (self.new ≡ self.old ++ bytes.now) }
    {
        self.text.extend_from_slice(bytes)
    }

    /// A word of the language that begins a statement.
    pub fn first(&mut self, keyword: Keyword) -> Result<(), AllocError>
        ensures { OnOk result (self.new ≡ self.old ++ keyword_text keyword) }
    {
        self.push(keyword.text())
    }

    pub fn mnemonic(&mut self, mnemonic: Mnemonic) -> Result<(), AllocError>
        ensures { OnOk result (self.new ≡ self.old ++ mnemonic_text mnemonic) }
    {
        self.push(mnemonic.text())
    }

    /// A further word.
    pub fn word(&mut self, word: &[u8]) -> Result<(), AllocError>
        ensures { OnOk result (self.new ≡ self.old ++ 32 ∷ word.now) }
    {
        self.push(b" ")?;
        self.push(word)
    }

    pub fn keyword(&mut self, keyword: Keyword) -> Result<(), AllocError>
        ensures { OnOk result (self.new ≡ self.old ++ 32 ∷ keyword_text keyword) }
    {
        self.word(keyword.text())
    }

    pub fn number(&mut self, number: u32) -> Result<(), AllocError>
        ensures { OnOk result (self.new ≡ self.old ++ 32 ∷ decimal number) }
    {
        let mut buffer = Buffer::new();
        self.word(buffer.format(number).as_bytes())
    }

    pub fn signed(&mut self, number: i32) -> Result<(), AllocError>
        ensures { OnOk result (self.new ≡ self.old ++ 32 ∷ signed_decimal number) }
    {
        let mut buffer = Buffer::new();
        self.word(buffer.format(number).as_bytes())
    }

    /// A letter and a number behind it, without a space before them.
    pub fn numbered(&mut self, letter: u8, number: u32) -> Result<(), AllocError>
        ensures { OnOk result (self.new ≡ self.old ++ letter ∷ decimal number) }
    {
        let mut buffer = Buffer::new();
        self.text.push(letter)?;
        self.push(buffer.format(number).as_bytes())
    }

    /// The same as a further word.
    pub fn name(&mut self, letter: u8, number: u32) -> Result<(), AllocError>
        ensures { OnOk result (self.new ≡ self.old ++ 32 ∷ letter ∷ decimal number) }
    {
        self.push(b" ")?;
        self.numbered(letter, number)
    }

    pub fn end_line(&mut self) -> Result<(), AllocError>
        ensures { OnOk result (self.new ≡ self.old ++ 10 ∷ []) }
    {
        self.push(b"\n")
    }
}
