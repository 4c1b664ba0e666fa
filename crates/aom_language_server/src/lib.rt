//! A server of the Language Server Protocol for the source language: a session over what comes in and goes out.
//!
//! What is answered is JSON of `aom_language_answers`; faults and notes are those of `compile` and `show`.
#![tactic(auto)]

mod queries;
mod server;
mod serving;
mod telling;

pub use server::{Answers, Server};
pub use serving::{Ended, serve};
