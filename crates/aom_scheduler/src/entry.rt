//! What is known of an object that is enlisted.

use aom_cells::CellId;

/// An object with its priority, of which a higher one goes first.
#[derive(Clone, Copy)]
pub struct ScheduleEntry {
    pub id: CellId,
    pub priority: i32,
    pub is_ready: bool,
}
