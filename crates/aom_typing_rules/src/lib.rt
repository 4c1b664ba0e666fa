//! The verifier's rules, as definitions.
//!
//! `specs/Rules.antt` is the table of rules: what an instruction needs of the state in which it stands, and each place where a run may go on with
//! what is known there. The rules of calls, traps and returns read how methods are declared (`specs/Calls.antt`); a `RuleContext` is a place of a
//! method with what is known there. `rules_are_monotone` says that what passes for a state passes for one that says more. An image has a typing
//! (`IsTyped` of `specs/Typing.antt`) where some states are such that each rule passes and leads on to them. Nothing knows of the machine, of
//! sweeps or of prices, nor of the functions that decide these rules (`aom_rule_context`, `aom_rule_functions`).
#![tactic(auto)]

mod laws;

pub use laws::rules_are_monotone;
