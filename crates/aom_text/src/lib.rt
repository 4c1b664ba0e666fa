//! The lowest layer of the texts: from bytes to lines, statements, their words, numbers and names.
//!
//! `StatementCursor` gives the statements of a text one after another, each with its line, and a statement gives its words.
//! `specs/Text.antt` says which they are by splitting: into lines, at the comment's mark, at semicolons, at blanks.
//! It takes no memory, and it knows nothing of what the words mean.
#![tactic(auto)]

mod fault;
mod name;
mod number;
mod text;
mod word;

pub use fault::{AsmFault, AsmFaultKind};
pub use name::is_name;
pub use number::{Number, sizes_are_reported};
pub use text::{Statement, StatementCursor, last_line, split_line, split_text_line};
pub use word::{WordCursor, is_text_word};
