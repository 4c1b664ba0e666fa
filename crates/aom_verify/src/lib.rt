//! The verifier: whether each method of a linked image has a typing.
//!
//! Promises: `check` answers a `Checked` where every method has a typing, and else names the first method that has
//! none, with the place and the reason; a `Checked` keeps the strongest typing, and hands out the states of a method or
//! of a place without memory. `stop_of` tells what is known where a method without a typing fails. It knows the rules
//! and the order of abstract states from the crate below, and nothing of the machine.
#![tactic(auto)]

mod change;
mod checked;
mod refusal;
mod stale;
mod state_table;
mod states;
mod stop;
mod view;

pub use checked::{Checked, check};
pub use refusal::Refusal;
pub use state_table::StateTable;
pub use stop::{Stop, stop_of};
pub use view::AbstractStateView;
