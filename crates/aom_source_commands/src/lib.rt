//! What is done with a source: it is compiled to an assembly text, or its author is told what is wrong with it.
//!
//! What is told of a refusal is the place, the fault's name, a sentence, the line with a mark, and a mend.
#![tactic(auto)]

mod compiling;
mod diagnosing;
mod judging;
mod mapping;
mod notes;
mod saying;
mod scripts;
mod sending;
mod showing;
mod telling;
mod told;
mod words;

pub use compiling::{Compiled, Emit, compile};
pub use diagnosing::{Diagnosis, diagnose, notes_of_source};
pub use judging::{Judged, LinedText, accept_source};
pub use notes::LineNotes;
pub use scripts::script_of_source;
pub use sending::compile_source;
pub use showing::show_source;
pub use telling::tell_refusals;
