//! Lists, each in one word.
ghost use Rattle.std.specs.Prelude.{ℕ, ◌≡◌, ◌∷◌, ◌++◌, List, OnOk, map};
ghost use Rattle.aom_disassembler.specs.Classes.{thing_word};
ghost use Rattle.aom_disassembler.specs.Methods.{argument_word};
ghost use Rattle.aom_disassembler.specs.Text.{behind, list_word};

use crate::writer::ListingWriter;
use aom_image::{Argument, Thing};
use std::alloc::AllocError;

/// What may stand in a list.
pub trait WrittenElement: Copy {
    /// How it is written.
    ghost word: { Self → List ℕ };

    /// Writes it, without a space before it.
    fn write(self, writer: &mut ListingWriter) -> Result<(), AllocError>
        ensures { OnOk result (writer.new ≡ writer.old ++ word self) };
}

impl WrittenElement for Thing {
    ghost word = { thing_word };

    fn write(self, writer: &mut ListingWriter) -> Result<(), AllocError> {
        writer.thing(self)
    }
}

impl WrittenElement for Argument {
    ghost word = { argument_word };

    fn write(self, writer: &mut ListingWriter) -> Result<(), AllocError> {
        writer.argument(self)
    }
}

impl ListingWriter {
    /// Further elements.
    fn more<E: WrittenElement>(&mut self, elements: &[E]) -> Result<(), AllocError>
        ensures { OnOk result (self.new ≡ self.old ++ behind 44 (map E.word elements.now)) }
    {
        for element in elements {
            self.push(b",")?;
            element.write(self)?;
        }
        Ok(())
    }

    pub fn list<E: WrittenElement>(&mut self, elements: &[E]) -> Result<(), AllocError>
        ensures { OnOk result (self.new ≡ self.old ++ 32 ∷ list_word (map E.word elements.now)) }
    {
        match elements {
            [] => self.word(b"-"),
            [first, rest @ ..] => {
                self.push(b" ")?;
                first.write(self)?;
                self.more(rest)
            }
        }
    }
}
