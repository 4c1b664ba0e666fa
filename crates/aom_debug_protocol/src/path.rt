//! A way to what is owned, as a value that takes no memory.
ghost use Rattle.std.specs.Prelude.{◌≡◌};
ghost use Rattle.aom_debug_protocol.specs.Ways.{fitting, further, way_at};

use crate::way::{Branch, Outer};
use arrayvec::ArrayVec;
use std::marker::Model;

/// The most branches: a line has no room for more.
const MAX: usize = 85;

/// A way to what is owned.
#[derive(Drop)]
pub struct Path {
    outer: Outer,
    branches: ArrayVec<Branch, MAX>,
}

impl Model for Path {
    ghost use Rattle.aom_debug_protocol.specs.Ways.{Way};

    ghost Value = { Way };

    ghost view = { λ p. record { outer = p.outer; branches = p.branches.items } };
}

impl Path {
    /// The way to a place that is in no object.
    pub fn to(outer: Outer) -> Path
        ensures { result ≡ way_at outer }
    {
        Path {
            outer,
            branches: ArrayVec::new(),
        }
    }

    /// One branch further, where there is room for it.
    pub fn further(mut self, branch: Branch) -> Option<Path>
        ensures { result ≡ fitting (further self branch) }
    {
        if self.branches.is_full() {
            return None;
        }
        self.branches.push(branch);
        Some(self)
    }

    /// Where it begins.
    pub fn outer(&self) -> Outer
        ensures { result ≡ self.now.outer }
    {
        self.outer
    }

    /// How it goes on from there, the outermost first.
    pub fn branches(&self) -> &[Branch]
        ensures { result.now ≡ self.now.branches }
    {
        self.branches.as_slice()
    }
}
