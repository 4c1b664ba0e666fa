//! The machine: what an accepted image does, one step after another.
//!
//! `Machine::boot` gives a machine that stands for the boot state of the checked machine, and `Machine::step` goes with
//! it as the checked machine goes (`Stepped` of `specs/Steps.antt`), so that nothing is ever stuck here. All memory is
//! taken by `boot`: no later call has an allocator. This crate knows neither scripts nor texts, and no instruction but by
//! its move; lines go out as values in a `LineBuffer`.
#![tactic(auto)]

mod clients;
mod machine;
mod moves;
mod natives;
mod servers;
mod turns;
mod wanted;

pub use aom_machine_state::Progress;
pub use machine::Machine;
pub use wanted::NativeCall;
