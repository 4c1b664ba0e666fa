//! The order in which objects are picked, and timers.

pub use aom_scheduler::{Schedule, ScheduleEntry, Timers};
