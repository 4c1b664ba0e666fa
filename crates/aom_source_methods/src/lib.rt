//! The translation of one method: its items to instructions, with what is inferred on the way.
//!
//! A method is translated again and again until a pass finds nothing new to note: where owners are guarded, what is deleted where ways come together,
//! what the rounds of a loop may change. What it calls has to be translated before; what is missing is told.
//! It names the first thing that the source gets wrong. What it answers is judged by the verifier, as every image is.
#![tactic(auto)]

mod arguments;
mod calls;
mod conditions;
mod expressions;
mod generator;
mod ifs;
mod knowing;
mod leaving;
mod locals;
mod loops;
mod making;
mod method;
mod moving;
mod owned;
mod requests;
mod statements;
mod summary;
mod traps;
mod ways;
mod words;

pub use method::{Outcome, Translated, first_states, translate_method};
pub use summary::{Helpers, Noise, Summaries, Summary, add_helpers};
