//! The lines of a run, and their texts.

pub use aom_transcript::{Asked, Ending, Line, Page};
