//! What an accepted image may have that nobody wanted: methods that nothing calls, places that no way reaches, fields and registers that
//! nothing reads, and classes of which no object is made.
//!
//! `warnings` answers all of an image. Each kind of warning has a definition of its own in `specs/`, which looks at the image's methods and
//! instructions alone: nothing here knows what is known of registers at a place, nor how a warning is told.
#![tactic(auto)]

mod called;
mod fields;
mod finding;
mod flow;
mod made;
mod numbers;
mod registers;
mod warning;

pub use finding::warnings;
pub use warning::Warning;
