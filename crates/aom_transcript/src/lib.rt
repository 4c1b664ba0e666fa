//! What a run hears and shows: the events of its script, the lines of its transcript, how it ended, their text, and where that goes.
//!
//! An `Event` and a `Line` are values. A `Text` grows at its end by words and numbers, in a buffer of a fixed size, so that it takes no memory; a
//! `Page` is the text of some lines in one. The text is the one that `specs/Text.antt` spells, or that with the names of classes in place of their
//! numbers (`specs/Naming.antt`). A `Sink` takes bytes and a `Reader` gives them; each says of itself what it has taken or given, and whether it has
//! failed. `write_text` sends a text to a sink of any type, and stops where it fails. This crate knows no machine: the laws and the machine say which
//! lines a run has.
#![tactic(auto)]

mod event;
mod laws;
mod line;
mod naming;
mod page;
mod reader;
mod sink;
mod text;
mod writing;

pub use event::{ClientCommand, Event, TimedEvent};
pub use laws::numbers_are_transcripts;
pub use line::{Asked, Ending, Line};
pub use naming::put_lines;
pub use page::Page;
pub use reader::Reader;
pub use sink::{Sink, write_text};
pub use text::Text;
pub use writing::write_lines;
