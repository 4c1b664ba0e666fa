//! Instructions: the mnemonic, and the operands in the order of a text.
ghost use Rattle.std.specs.Prelude.{◌≡◌, ◌++◌, OnOk};
ghost use Rattle.aom_disassembler.specs.Words.{large_words, small_words, words_statement};
ghost use Rattle.aom_disassembler.specs.Text.{behind, parted_by};

use crate::writer::ListingWriter;
use aom_image::{Instr, Large, OperandOrder, Operands, Small};
use std::alloc::AllocError;

impl ListingWriter {
    fn small(&mut self, operand: Small) -> Result<(), AllocError>
        ensures { OnOk result (self.new ≡ self.old ++ behind 32 (small_words operand)) }
    {
        match operand {
            Small::Unused => Ok(()),
            Small::Register(register) => self.register(register),
            Small::Word(word) => self.name(b'w', u32::from(word.number())),
            Small::Field(field) => self.field(field),
            Small::Depth(depth) => self.number(u32::from(depth.number())),
            Small::CallTarget(target) => self.target(target),
        }
    }

    fn large(&mut self, operand: Large) -> Result<(), AllocError>
        ensures { OnOk result (self.new ≡ self.old ++ behind 32 (large_words operand)) }
    {
        match operand {
            Large::Nothing => Ok(()),
            Large::Number(number) => self.signed(number),
            Large::Rounds(rounds) => self.number(u32::from(rounds)),
            Large::Place(place) => self.name(b'L', u32::from(place.number())),
            Large::Class(class) => self.class_name(class),
            Large::Method(method) => self.name(b'm', u32::from(method.number())),
        }
    }

    /// A mnemonic, and what stands behind it.
    pub fn statement(&mut self, instr: &Instr) -> Result<(), AllocError>
        ensures { OnOk result (self.new ≡ self.old ++ parted_by 32 (words_statement instr.now)) }
    {
        let mnemonic = instr.mnemonic();
        let Operands { a, b, c, d } = instr.operands();
        self.mnemonic(mnemonic)?;
        self.small(a)?;
        match mnemonic.row().kinds().order {
            OperandOrder::LargeLast => {
                self.small(b)?;
                self.small(c)?;
                self.large(d)
            }
            OperandOrder::LargeSecond => {
                self.large(d)?;
                self.small(b)?;
                self.small(c)
            }
        }
    }
}
