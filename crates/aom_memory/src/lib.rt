//! Memory as a sink and as a reader, for programs that have no files.
//!
//! A `MemorySink` is sent lines and has them as its text, as long as there is memory. A `SliceReader` gives the bytes of a slice. Both tell
//! what was sent and given, so a contract over them speaks of the very bytes. They know nothing of images and commands.
#![tactic(auto)]

mod reader;
mod sink;

pub use reader::SliceReader;
pub use sink::MemorySink;
