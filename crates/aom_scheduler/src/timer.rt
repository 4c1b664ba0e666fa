//! One timer.

use aom_cells::CellId;

/// An object's timer, due at a time in microseconds.
#[derive(Clone, Copy)]
pub struct Timer {
    pub id: CellId,
    pub due: u64,
}
