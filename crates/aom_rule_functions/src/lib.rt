//! The functions that decide the verifier's rules.
//!
//! `rule` is the table of rules as a function: the first need that an instruction's state does not meet, or each place where a run may go on with
//! what is known there, just as the definitions of `aom_typing_rules` say. Nothing here takes memory, and nothing knows of the machine, of sweeps or
//! of prices.
#![tactic(auto)]

mod cleanup;
mod messages;
mod natives;
mod objects;
mod requests;
mod rules;
mod words;

pub use requests::{enlisted, inactive, outstanding};
pub use rules::{Ruling, rule};
