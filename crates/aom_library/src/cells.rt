//! The bounded heap.

pub use aom_cells::{CellId, Cells, NULL};
