//! The machine with its natives, and its runs.
//!
//! A `HostedMachine` has the boxes of its natives beside the machine of plain numbers, which makes no call to them itself. `run` promises that
//! what went out is the transcript of a run of the checked machine, or a beginning of one where the sink failed (`Ran` of
//! `specs/Runs.antt`), and `run_named` the same of that transcript with the names of classes in place of their numbers. No call but
//! `HostedMachine::boot` and `line_buffer` takes memory, by signature. A run knows what a machine's calls promise, and nothing of how it keeps its cells.
#![tactic(auto)]

mod asking;
mod dispatches;
mod machine;
mod outcome;
mod runs;
mod turns;
mod waiting;

pub use machine::HostedMachine;
pub use outcome::Outcome;
pub use runs::{line_buffer, run, run_named};
pub use turns::take_turns;
