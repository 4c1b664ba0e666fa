//! Abstract states of a method, and the order between them.
//!
//! A state says what is known of registers, fields, cleanup entries, request states and the message in service at a place.
//! `weaker` is the order, and `meet` is the strongest state that says no more than either, or a Why where there is none.
//! `Flow` is what a rule answers: where a run may go on, and what is known there.
//! No call but `EntryStacks::changed` takes memory, and nothing knows of instructions, of sweeps or of prices.
#![tactic(auto)]

mod entry_stacks;
mod flow;
mod kind;
mod known;
mod laws;
mod order;
mod shape;
mod things;
mod why;

pub use entry_stacks::{EntryStack, EntryStacks};
pub use flow::{Change, Flow, FlowEdge, Last, Next, judge, judge_all, only_if};
pub use kind::{CleanupEntry, FieldState, InitState, Kind, MessageState};
pub use known::Known;
pub use laws::order_is_one;
pub use order::{meet, meet_kept, weaker, weaker_kept};
pub use shape::{AbstractState, Kept};
pub use things::{is_object, same_thing};
pub use why::Reason;
