//! What a debugger tells of the object that is owned at a path of the map of owners: its words, and what waits at it.
//!
//! `object_at` follows a path from a place that is in no object on from object to object. The object that it answers is the one that is
//! owned there in each state that the machine stands for (`owned_at` of `specs/Paths.antt`), and where it answers none, none is. Then
//! `report_words` and `report_queue` write the lines of its words and of its queue, or a beginning of them where the sink failed. Nothing
//! here takes memory, by signature. It knows no commands, no texts of programs and no natives.
#![tactic(auto)]

mod finding;
mod following;
mod queue;
mod variable;
mod words;

pub use following::{Found, object_at};
pub use queue::report_queue;
pub use variable::variable_at;
pub use words::report_words;
