//! The types of an image, and which images are well formed.
#![tactic(auto)]

mod class;
mod form;
mod image;
mod items;
mod method;

pub use aom_instructions::{
    ClassNumber, EntryDepth, FieldIndex, Instr, InstrPlace, Kinds, Large, LargeKind, Limits,
    LoopDepth, MethodNumber, Mnemonic, NativeNumber, OperandOrder, Operands, Register, Row, Small,
    SmallKind, Target, Version, WordIndex, instructions_and_rows,
};
pub use class::{ClassDecl, ClassKind, Provider};
pub use form::{form_ok, serialized_len};
pub use image::{Header, Image};
pub use items::Items;
pub use method::{Argument, Gives, Method, MethodFlags, Role, States, Thing};
