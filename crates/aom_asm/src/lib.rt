//! Assembly: from a text to the image that it denotes.
//!
//! `assemble` answers just what a text denotes by `specs/Denoted.antt`: its statements are read first, with names that
//! are not told apart, and then once more with the names that the text declares. What one statement says by itself, and that
//! it is in its range, is of `aom_syntax`; this crate knows how statements stand beside each other, and so that what a
//! text denotes is a well-formed image.
#![tactic(auto)]

mod assembling;
mod body;
mod names;
mod program;
mod statements;

pub use assembling::assemble;
