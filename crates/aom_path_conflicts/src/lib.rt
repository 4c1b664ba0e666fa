//! Ways that come together and do not agree: which other way comes to a place at which a method is refused, and the first register of which
//! it knows a kind that has nothing in common with what is known there.
//!
//! `find_conflict` looks at the states that the verifier had found when it stopped, and at each place from which one leads to the refused place.
//! What it finds is so, and nothing is found only where no such way differs in a register (`specs/Conflicts.antt`). That the other state
//! arrives there, and has no meet with the one that is known, is the law `conflicts_arrive`. Nothing here knows how a conflict is told.
#![tactic(auto)]

mod conflict;
mod laws;

pub use conflict::{Conflict, Difference, find_conflict};
pub use laws::conflicts_arrive;
