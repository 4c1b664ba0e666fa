//! The checked machine.
//!
//! What a run does is defined here apart from the code that runs: states with a map of owners, what each instruction
//! needs and does, destruction, turns, runs, and what it means that each cell and message has one owner. Nothing in
//! this crate runs. Each of its functions has an empty body and says by its contract what closed cases come to: that
//! each need can fail, and what small programs write.
#![tactic(auto)]

mod laws;

pub use laws::{
    call_needs_fail, cleanup_needs_fail, constructs_run, event_needs_fail, lines_run,
    move_needs_fail, moves_leave, native_needs_fail, object_needs_fail, overriders_run,
    owner_needs_fail, request_needs_fail, return_needs_fail, server_needs_fail, servers_run,
    token_needs_fail, tokens_run, turn_needs_fail, word_needs_fail,
};
