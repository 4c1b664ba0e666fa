//! What is known at a place of a method, and the table of rules.

pub use aom_abstract_state::{
    AbstractState, Change, CleanupEntry, EntryStack, EntryStacks, FieldState, Flow, FlowEdge,
    InitState, Kept, Kind, Known, Last, MessageState, Next, Reason, meet, weaker,
};
pub use aom_rule_functions::{Ruling, rule};
