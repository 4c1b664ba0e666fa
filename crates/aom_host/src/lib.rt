//! What the system gives a program, as the library takes it: files, standard input with the commands in it, and the outputs.
//! Of these a contract can say little: what a file holds, what comes in and what is out is known to no proof. That a file which cannot be read is the
//! one that is named then is said in `specs/Files.antt`.
#![tactic(auto)]

mod commands;
mod files;
mod input;
mod output;

pub use commands::Commands;
pub use files::{ReadError, read_file};
pub use input::Input;
pub use output::Output;
