//! The listing of an image: a text that says every part of it, from which the assembler makes the same image.
//!
//! `disassemble` answers just the text of `specs/Listing.antt`: the words of each statement, and a line for each. Words
//! of the language and mnemonics are those of `aom_syntax`. Nothing here knows how a text is read.
#![tactic(auto)]

mod class;
mod disassembling;
mod header;
mod instruction;
mod jumps;
mod laws;
mod list;
mod method;
mod operands;
mod single;
mod writer;

pub use disassembling::disassemble;
pub use laws::listings_split;
pub use single::{class_line, heading_line, line_at};
