//! The instructions of the machine, group by group, and what else is one move: the going of a cell, of a server's sessions
//! before it, a leave that unwinds, and the end of a dispatch or of a stage of one.
//!
//! Each is a function over the `Parts`. An instruction does as it does in the checked machine (`DoesIn` of
//! `specs/Acts.antt`), and so does each move (`Moves` of `specs/Moves.antt`); no instruction tests what a number stands
//! for. This crate knows no step, no turn and no native.
#![tactic(auto)]

mod after;
mod calls;
mod cleanup;
mod closing;
mod fields;
mod going;
mod leaving;
mod messages;
mod natives;
mod objects;
mod performing;
mod requests;
mod servers;
mod words;

pub use after::After;
pub use closing::close;
pub use going::{begin, close_next_session, reclaim, reclaim_alone};
pub use leaving::unwind;
pub use natives::TERMINATED;
pub use performing::perform;
