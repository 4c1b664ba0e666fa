//! The assembly text: what it denotes, and the listing of an image.

pub use aom_asm::assemble;
pub use aom_disassembler::disassemble;
pub use aom_text::{AsmFault, AsmFaultKind};
