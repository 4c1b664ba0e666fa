//! What a call of `explore` is asked.
ghost use Rattle.std.specs.Prelude.{◌≡◌};
ghost use Rattle.aom_fault_injection.specs.Expected.{exploration_of, is_judged, tells_counts, tries_alone};

use crate::{ExpectedEnding, Tries};

/// What is tried, what else is told, and how runs are expected to end.
#[derive(Clone, Copy)]
pub struct ExploreOptions<'a> {
    pub tries: Tries,
    /// Whether the run as it is is told too, before all others.
    pub base: bool,
    /// A run that ends in none of these ways is marked and counted. Where there are none, no run is.
    pub expected: &'a [ExpectedEnding],
}

impl<'a> ExploreOptions<'a> {
    /// The tries alone: no run as it is, and no end that is expected.
    pub fn of_tries(tries: Tries) -> ExploreOptions<'a>
        ensures { exploration_of result ≡ tries_alone tries }
    {
        ExploreOptions {
            tries,
            base: false,
            expected: &[],
        }
    }

    /// Whether ends are judged.
    pub fn judges(self) -> bool
        ensures { result ≡ is_judged self.entry.expected.now }
    {
        !self.expected.is_empty()
    }

    /// Whether what was counted is told at the end.
    pub fn tells_counts(self) -> bool
        ensures { result ≡ tells_counts (exploration_of self.entry) }
    {
        self.tries.asks_more() || self.judges()
    }
}
