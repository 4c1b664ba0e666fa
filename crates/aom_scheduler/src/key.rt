//! By what an object is found among those that are enlisted.
ghost use Rattle.std.specs.Prelude.{◌≡◌};
ghost use Rattle.aom_scheduler.specs.Keys.{goes_before};

use crate::ScheduleEntry;

/// An object's priority, of which a higher one goes first, and its turn among those of the same.
#[derive(Clone, Copy)]
pub struct Key {
    pub priority: i32,
    pub turn: u32,
}

impl Key {
    pub fn of(entry: &ScheduleEntry, turn: u32) -> Key
        ensures { result ≡ record { priority = entry.now.priority; turn = turn } }
    {
        let priority = entry.priority;
        Key { priority, turn }
    }

    /// Whether this one's object stands before the other's.
    pub fn goes_before(&self, other: &Key) -> bool
        ensures { result ≡ goes_before self.now other.now }
    {
        self.priority > other.priority
            || (self.priority >= other.priority && self.turn < other.turn)
    }
}
