//! The bounded store of messages.

pub use aom_cells::{MessageId, Messages};
