//! The program's library: one call for each command over bytes and sinks.
//!
//! `run_bytes`, `explore_bytes`, `explore_bytes_with`, `check_bytes`, `prices_bytes` and `translate_bytes` take the bytes of files and write to two sinks, one for what is asked and one for a fault's line. Their contracts, `RunAnswers` and `CheckAnswers` of
//! `specs/Headline.antt`, `ExploreAnswers` of `specs/Explored.antt`, `PricesAnswers` of `specs/Prices.antt` and `Translates` of
//! `specs/Translations.antt`, go from bytes to bytes: what the image is, what the script says, and that the text is the
//! transcript of a run of the checked machine that never goes wrong. Nothing here reads a file, knows the command line or
//! where a sink leads.
#![tactic(auto)]

mod accepting;
mod assembling;
mod collecting_sink;
mod commands;
mod drawing;
mod exploring;
mod fault_line;
mod faults;
mod pricing;
mod running;
mod status;

pub use accepting::accept_bytes;
pub use assembling::assemble_bytes;
pub use commands::{
    Translation, check_bytes, prices_bytes, run_bytes, translate_bytes, try_check, try_draw,
    try_run,
};
pub use exploring::{explore_bytes, explore_bytes_with};
pub use fault_line::FaultLine;
pub use faults::{Fault, report};
pub use status::ExitStatus;
