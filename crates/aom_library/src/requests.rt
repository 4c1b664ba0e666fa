//! The requests of active objects, and their signals.

pub use aom_scheduler::{PENDING, RequestState, Requests};
