//! The words of a debugger: what a line of its input says, why a command is refused, by what lines it answers, and the marks
//! that it keeps beside its machine.
//!
//! `read_command` answers just what a line says by `specs/Commands.antt`: a command with its numbers, nothing where the line has no
//! word, or that it is bad. `Pending` keeps the line that is not yet whole, in the 256 bytes that a line may have, and gives just the
//! lines of the text that came (`specs/Lines.antt`), however it is cut into parts. An `Answer` is a line as a value, and `line_of`
//! spells it just as `specs/Answers.antt` does, in a buffer of its own; `help_text` lists the commands (`specs/Help.antt`). `Breakpoints` has at most
//! sixteen places and none twice, each with its condition (`specs/Conditions.antt`), and `History` the latest sixteen of all places that were
//! noted (`specs/Marks.antt`).
//! After `History::new` nothing here takes memory, by signature. It knows nothing of machines and images: methods, classes and places
//! are numbers.
#![tactic(auto)]

mod answer;
mod breakpoints;
mod command;
mod condition;
mod fault;
mod help;
mod line;
mod path;
mod pending;
mod reading;
mod recent;
mod spot;
mod variable;
mod verb;
mod way;

pub use answer::{Answer, Content, Phase, Source};
pub use breakpoints::{Breakpoint, Breakpoints, unbreak_undoes_break};
pub use command::{Command, ends_session, may_repeat, read_command};
pub use condition::{Comparison, Condition, read_comparison, read_condition};
pub use fault::DebugFault;
pub use help::{help_by, help_text};
pub use line::{AnswerLine, add_condition, line_of};
pub use path::Path;
pub use pending::Pending;
pub use recent::{History, notes_keep_latest};
pub use spot::CodeLocation;
pub use variable::Variable;
pub use verb::{Verb, verb_named};
pub use way::{Branch, ClientNumber, Outer};
