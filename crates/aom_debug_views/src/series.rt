//! What the map of owners numbers from the bottom.
ghost use Rattle.std.specs.Prelude.{◌≡◌, ◌<◌, ◌≤◌, cond};
ghost use Rattle.aom_image.specs.Image.{Image};
ghost use Rattle.aom_machine_state.specs.Stands.{Refines};
ghost use Rattle.aom_semantics.specs.State.{State};
ghost use Rattle.aom_debug_views.specs.SeriesMaps.{is_such, places_in};

use crate::owners::{entries_at, frames_at, goings_at};
use aom_machine_state::Parts;

/// What is numbered from the bottom.
#[derive(Clone, Copy)]
pub enum Series {
    /// The methods at hand.
    Frames,
    /// What stands in the cleanup stack, without its marks.
    Entries,
    /// The destructions at hand.
    Goings,
}

impl Series {
    /// How many places there are at which one may stand.
    pub fn places(self, parts: &Parts) -> usize
        ensures { result ≡ places_in self parts.now }
    {
        match self {
            Series::Frames | Series::Goings => parts.stack.len(),
            Series::Entries => parts.entries.len(),
        }
    }

    /// How many stand at that place.
    pub fn count_at(self, parts: &Parts, place: usize) -> usize
        requires { place < places_in self parts.now }
        ensures few { result ≤ 1 }
        ensures value { (p : Image) (s : State) → Refines (record { image = p; parts = parts.now }) s → result ≡ cond (is_such self s place) 1 0 }
    {
        match self {
            Series::Frames => frames_at(parts, place),
            Series::Entries => entries_at(parts, place),
            Series::Goings => goings_at(parts, place),
        }
    }
}
