//! Messages in a stream of bytes: each stands behind a head that says how many bytes it has.
//!
//! A head is some lines and an empty one. Which bytes are a message says `specs/Frames.antt`, by the bytes alone: what has come of a stream is cut into
//! just its frames, whatever the stream is.
#![tactic(auto)]

mod frames;
mod head;
mod laws;
mod writing;

pub use frames::{Frame, Frames, MOST_BYTES};
pub use laws::a_stream_is_cut_once;
pub use writing::frame_of;
