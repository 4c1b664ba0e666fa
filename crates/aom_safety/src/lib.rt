//! The laws of the checked machine.
//!
//! Nothing in this crate runs. It promises that a move from a well-typed state is not stuck and leads to a well-typed
//! one; each law is the contract of a public function with an empty body.
#![tactic(auto)]

mod laws;

pub use laws::{
    boot_keeps, caught_owned, clients_keep, destruction_keeps, ends_empty, ends_owned,
    instruction_keeps, kept_needs_fail, leaves_arrive, leaves_move, linked_is_wired, loops_keep,
    quiet_preserved, registers_keep, signals_are_ready, step_keeps, steps_are_counted,
    steps_are_moves, traps_keep, turn_goes_on, turn_keeps, typed_is_sound, unwinding_keeps,
};
