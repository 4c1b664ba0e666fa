//! The script of a run.

pub use aom_script::{Script, ScriptFault, ScriptFaultKind, read_script};
pub use aom_transcript::{ClientCommand, Event, TimedEvent};
