//! The law, as the contract of a function that does nothing.
ghost use Rattle.aom_path_conflicts.specs.Conflicts.{ConflictsArrive};

/// The state of another way arrives at the place, and has no meet with the state that is known there.
pub fn conflicts_arrive()
    ensures { ConflictsArrive }
{}
