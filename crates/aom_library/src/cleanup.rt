//! The cleanup stack.

pub use aom_frames::{Cleanup, Item};
