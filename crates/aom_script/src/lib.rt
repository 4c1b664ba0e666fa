//! Scripts: what happens to a run from outside, as a text.
//!
//! `read_script` answers just what a text denotes by `specs/Script.antt`: the requests that are refused and the events
//! in their order, or the first fault of the first faulty line. The times of a script never fall, and each number is in
//! its range. It knows the words of a text and the events of a run, and nothing of images or machines.
#![tactic(auto)]

mod clients;
mod fault;
mod line;
mod reading;
mod script;

pub use fault::{ScriptFault, ScriptFaultKind};
pub use script::{Script, read_script};
