//! The statements of the assembly text, each by itself: what its words say, given the names of the text.
//!
//! What reads without a fault is in its range: the laws promise that the header, a class, the beginning of a method and an instruction
//! have every part in the range that an image asks, beside as many classes and methods as there are names, and as many places as there
//! are labels. What holds of a whole text is told in `aom_asm`.
#![tactic(auto)]

mod class;
mod header;
mod instruction;
mod keyword;
mod laws;
mod list;
mod method;
mod names;
mod operands;
mod parts;
mod reader;
mod scope;
mod states;

pub use instruction::label_of;
pub use keyword::Keyword;
pub use laws::{classes_in_range, headers_in_range, headings_in_range, instructions_in_range};
pub use method::Heading;
pub use names::NameList;
pub use reader::WordReader;
pub use scope::Scope;
