//! The command line: what the words of a call ask.
//!
//! `read_words` answers it as the exact matches of `clap` say for the form of `specs/CommandLine.antt`: which command, which
//! files, which limit. It knows no image and no file. It stands apart from the commands so that `clap` is proved over once,
//! and no edit of a command waits for it.
#![tactic(auto)]

mod args;
mod forms;
mod words;

pub use words::{FileKind, RunWords, TriesWords, Words, WordsFault, read_words};
