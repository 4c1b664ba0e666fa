//! How far a step has come.

use aom_transcript::Ending;

/// What stands after a step.
#[derive(Clone, Copy, PartialEq, Eq)]
pub enum Progress {
    /// Something is at hand.
    Running,
    /// Nothing is at hand, and the next turn is due.
    Turned,
    Ended(Ending),
}
