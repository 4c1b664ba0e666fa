//! An instruction with its operands.
use crate::code::LabelId;
use crate::operation::Operation;
use aom_source_program::{ClassId, MethodId};

/// What an instruction works on.
#[derive(Clone, Copy, PartialEq, Eq, Debug)]
pub enum Operand {
    None,
    Register(usize),
    /// An entry of the cleanup stack, from above.
    Entry(usize),
    Field(usize),
    Word(usize),
    /// The object itself.
    Own,
    Label(LabelId),
    Method(MethodId),
    Class(ClassId),
    Number(i64),
}

/// Why the translator has added an instruction.
#[derive(Clone, Copy, PartialEq, Eq, Debug)]
pub enum Reason {
    /// It says what the source says.
    Written,
    Guards,
    Unguards,
    Deletes,
    /// What a field owned goes, since something else comes there.
    DeletesOld,
    Empties,
    RunsDeferred,
    Completes,
    Cancels,
    Widens,
}

/// Why an instruction is there, and what that is about.
#[derive(Clone, Copy)]
pub struct Note<'a> {
    pub reason: Reason,
    pub name: &'a [u8],
}

impl<'a> Note<'a> {
    /// The source says it.
    pub fn written() -> Note<'a> {
        Note {
            reason: Reason::Written,
            name: b"",
        }
    }

    /// The translator has added it.
    pub fn added(reason: Reason, name: &'a [u8]) -> Note<'a> {
        Note { reason, name }
    }
}

/// An instruction.
#[derive(Clone, Copy)]
pub struct Line<'a> {
    pub operation: Operation,
    pub operands: [Operand; 4],
    /// The token of the source that it comes of.
    pub token: u32,
    pub note: Note<'a>,
}

impl<'a> Line<'a> {
    /// The label that it leads to.
    pub fn label(&self) -> Option<LabelId> {
        for operand in self.operands {
            if let Operand::Label(label) = operand {
                return Some(label);
            }
        }
        None
    }
}
