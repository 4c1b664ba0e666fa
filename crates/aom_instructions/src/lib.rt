//! The instruction set: the numbers that instructions name, the instructions, the versions of the format, and the table of their rows.
//!
//! An operand is a number with a range of its own. A row of the table has an instruction's opcode, its mnemonic, the kinds of its operands and
//! the version from which on it is there; `Instr::make` and its views are the two ways between an instruction and its parts, and `instructions_and_rows` says that they are
//! one. Whoever reads, spells or lists instructions goes over rows and kinds. Whoever follows a method's code goes over control transfers (`Instr::transfer`), and whoever
//! asks what it calls, makes, pushes or destroys over actions (`Instr::action`). This crate knows nothing of images, bytes and texts.
#![tactic(auto)]

mod action;
mod instr;
mod kinds;
mod laws;
mod limits;
mod mnemonic;
mod operand;
mod operands;
mod transfer;
mod version;

pub use action::{Action, CallMode};
pub use instr::{Instr, Target};
pub use kinds::{Kinds, LargeKind, OperandOrder, SmallKind};
pub use laws::{instructions_and_rows, sorts_name_operands};
pub use limits::{Limits, fits};
pub use mnemonic::{Mnemonic, Row};
pub use operand::{Large, Operands, Small};
pub use operands::{
    ClassNumber, EntryDepth, FieldIndex, InstrPlace, LoopDepth, MethodNumber, NativeNumber,
    Register, WordIndex,
};
pub use transfer::{Condition, Transfer};
pub use version::Version;
