//! Breakpoints.
ghost use Rattle.std.specs.Prelude.{◌≡◌, ◌<◌, ◌≤◌, [], ◌∷◌, ◌++◌, IfSome, cond, length, nat_lt, slice_get};
ghost use Rattle.std.specs.List.{position};
ghost use Rattle.aom_debug_protocol.specs.Marks.{UnbreakUndoesBreak, breakpoint_at, has_spot, is_at, is_set, with_breakpoint, without_spot};

use crate::{CodeLocation, Condition};
use arrayvec::ArrayVec;
use std::marker::Model;

/// The most breakpoints.
const MAX: usize = 16;

/// A place at which a run is to stop, always or under a condition.
#[derive(Clone, Copy)]
pub struct Breakpoint {
    pub spot: CodeLocation,
    pub condition: Condition,
}

impl Default for Breakpoint {
    /// For the room that is not taken yet.
    fn default() -> Breakpoint {
        Breakpoint {
            spot: CodeLocation::default(),
            condition: Condition::Always,
        }
    }
}

/// The breakpoints, in the order in which their places were set.
#[derive(Drop)]
pub struct Breakpoints {
    breakpoints: ArrayVec<Breakpoint, MAX>,
}

impl Model for Breakpoints {
    ghost use Rattle.std.specs.Prelude.{List};
    ghost use Rattle.aom_debug_protocol.specs.declared.breakpoints.Breakpoint.{Breakpoint};

    ghost Value = { List Breakpoint };

    ghost view = { λ b. b.breakpoints.items };
}

/// Where the first of them stands that is at that place.
fn index_of(breakpoints: &[Breakpoint], spot: CodeLocation) -> Option<usize>
    ensures value { result ≡ position (is_at spot) breakpoints.now }
    ensures within { IfSome result (λ index. index < length breakpoints.now) }
{
    breakpoints.iter().position(|other| spot.is(other.spot))
}

impl Breakpoints {
    pub fn new() -> Breakpoints
        ensures { result ≡ [] }
    {
        Breakpoints {
            breakpoints: ArrayVec::new(),
        }
    }

    /// The one at that place, if there is one.
    pub fn find(&self, spot: CodeLocation) -> Option<Breakpoint>
        ensures { result ≡ breakpoint_at spot self.now }
    {
        self.breakpoints
            .iter()
            .copied()
            .find(|other| spot.is(other.spot))
    }

    /// Sets one. One at its place takes that on. Answers false where there are sixteen others, and changes nothing then.
    pub fn set(&mut self, breakpoint: Breakpoint) -> bool
        ensures answer { result ≡ is_set breakpoint.spot self.old }
        ensures breakpoints { self.new ≡ with_breakpoint breakpoint self.old }
    {
        match index_of(self.breakpoints.as_slice(), breakpoint.spot) {
            Some(index) => {
                self.breakpoints[index] = breakpoint;
                true
            }
            None => self.add(breakpoint.spot, breakpoint.condition),
        }
    }

    /// Adds one behind the others, where there is room for it. Answers whether there is.
    fn add(&mut self, spot: CodeLocation, condition: Condition) -> bool
        ensures answer { result ≡ nat_lt (length self.old) 16 }
        ensures breakpoints { self.new ≡ cond (nat_lt (length self.old) 16) (self.old ++ (record { spot = spot; condition = condition }) ∷ []) self.old }
    {
        if self.breakpoints.is_full() {
            return false;
        }
        self.breakpoints.push(Breakpoint { spot, condition });
        true
    }

    /// Takes away the one at that place. Answers false where there is none.
    pub fn clear_breakpoint(&mut self, spot: CodeLocation) -> bool
        ensures answer { result ≡ has_spot spot self.old }
        ensures breakpoints { self.new ≡ without_spot spot self.old }
    {
        match index_of(self.breakpoints.as_slice(), spot) {
            Some(index) => {
                self.breakpoints.remove(index);
                true
            }
            None => false,
        }
    }

    pub fn count(&self) -> usize
        ensures { result ≡ length self.now }
    {
        self.breakpoints.len()
    }

    /// One of them, in the order in which their places were set.
    pub fn at(&self, index: usize) -> Option<Breakpoint>
        ensures { result ≡ slice_get self.now index }
    {
        self.breakpoints.as_slice().get(index).copied()
    }
}

/// To set a breakpoint where none was, and to take it away, is to do nothing.
pub fn unbreak_undoes_break()
    ensures { UnbreakUndoesBreak }
{}
