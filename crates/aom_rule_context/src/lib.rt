//! Where a rule is asked, and what many rules ask there.
//!
//! A `RuleContext` is a place of a method with what is known there. It answers the needs that rules share, and the rules of calls, traps and
//! returns (`rule_call`, `rule_trap`, `rule_return`), which read how methods are declared. What a declared thing may hold (`field_thing`)
//! and in which states a method begins and ends is told here too. Nothing here takes memory, and nothing knows of the other instructions.
#![tactic(auto)]

mod calls;
mod requests;
mod site;
mod things;

pub use calls::Call;
pub use site::RuleContext;
pub use things::field_thing;
