//! A whole run, into a sink.

pub use aom_memory::MemorySink;
pub use aom_run::{Outcome, line_buffer, run, run_named, take_turns};
pub use aom_transcript::{Sink, write_lines, write_text};
