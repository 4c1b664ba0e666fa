//! Where a run may go on.
ghost use Rattle.std.specs.Prelude.{◌≡◌, List, None, [], ◌∷◌, suc, ◌<◌, ◌^◌};
ghost use Rattle.aom_roles.specs.Tests.{only_if};
ghost use Rattle.aom_abstract_state.specs.Entries.{made_ready_at, with_entry, without_entry};
ghost use Rattle.aom_abstract_state.specs.Changes.{known_with, next_shape, reported, ways_from};
ghost use Rattle.aom_abstract_state.specs.Kinds.{set_register};
ghost use Rattle.aom_abstract_state.specs.Needs.{judged, tested, to_next};
ghost use Rattle.aom_abstract_state.specs.declared.flow.Last.TheVariants.{Same};
ghost use Rattle.aom_abstract_state.specs.declared.kind.CleanupEntry.{CleanupEntry as EntryData};

use crate::{AbstractState, CleanupEntry, Kind, Known, Reason};
use aom_image::EntryDepth;

/// What becomes of the last cleanup entry.
#[derive(Clone, Copy)]
pub enum Last {
    Same,
    /// One more comes on top.
    More(CleanupEntry),
    Fewer,
}

/// What becomes of the cleanup entries: that of a number is readied, and then the last one changes.
#[derive(Clone, Copy)]
pub struct Change {
    pub made_ready: Option<EntryDepth>,
    pub last: Last,
}

/// What is known after an instruction.
#[derive(Clone, Copy)]
pub struct Next {
    pub known: Known,
    pub change: Change,
}

/// A place where a run may go on, and what is known there apart from the cleanup entries.
#[derive(Clone, Copy)]
pub struct FlowEdge {
    pub to: usize,
    pub known: Known,
}

/// Where a run may go on, the lower place first. The cleanup entries are the same at both.
#[derive(Clone, Copy)]
pub struct Flow {
    pub first: Option<FlowEdge>,
    pub second: Option<FlowEdge>,
    pub change: Change,
}

impl Change {
    fn none() -> Change
        ensures { result ≡ record { made_ready = None; last = Same } }
    {
        Change {
            made_ready: None,
            last: Last::Same,
        }
    }
}

impl Next {
    pub fn of(shape: &AbstractState<'_>) -> Next
        ensures value { next_shape shape.now.entries result ≡ shape.now }
        ensures same { result.change ≡ record { made_ready = None; last = Same } }
    {
        Next {
            known: shape.known(),
            change: Change::none(),
        }
    }

    /// The same, and the object of the cleanup entry of that number is ready.
    pub fn with_made_ready_entry(mut self, number: EntryDepth) -> Next
        requires { self.change.last ≡ Same }
        ensures value { (es : List EntryData) → next_shape es result ≡ known_with self.known (made_ready_at es number) }
        ensures same { result.change.last ≡ Same }
    {
        self.change.made_ready = Some(number);
        self
    }

    /// The same with one more cleanup entry.
    pub fn with_entry(mut self, entry: CleanupEntry) -> Next
        requires { self.change.last ≡ Same }
        ensures { (es : List EntryData) → next_shape es result ≡ with_entry entry (next_shape es self) }
    {
        self.change.last = Last::More(entry);
        self
    }

    /// The same without the last cleanup entry, if there is one.
    pub fn without_entry(mut self) -> Next
        requires { self.change.last ≡ Same }
        ensures { (es : List EntryData) → next_shape es result ≡ without_entry (next_shape es self) }
    {
        self.change.last = Last::Fewer;
        self
    }

    /// The same with another kind in the register of that number.
    pub fn with_kind(mut self, index: usize, kind: Kind) -> Next
        requires { index < 16 }
        ensures value { (es : List EntryData) → next_shape es result ≡ set_register (next_shape es self) index kind }
        ensures same { result.change ≡ self.change }
    {
        self.known = self.known.with_kind(index, kind);
        self
    }
}

impl Flow {
    /// Nowhere.
    pub fn none() -> Flow
        ensures { (es : List EntryData) → ways_from es result ≡ [] }
    {
        Flow {
            first: None,
            second: None,
            change: Change::none(),
        }
    }

    pub fn to(place: usize, shape: &AbstractState<'_>) -> Flow
        ensures { ways_from shape.now.entries result ≡ (place, shape.now) ∷ [] }
    {
        let way = FlowEdge {
            to: place,
            known: shape.known(),
        };
        Flow {
            first: Some(way),
            second: None,
            change: Change::none(),
        }
    }

    /// To the place after that one.
    pub fn to_next(place: usize, shape: &AbstractState<'_>) -> Flow
        requires { suc place < 2 ^ 64 }
        ensures { ways_from shape.now.entries result ≡ to_next place shape.now }
    {
        Flow::to(place + 1, shape)
    }

    /// To the place after that one, with that known.
    pub fn on(place: usize, next: Next) -> Flow
        requires { suc place < 2 ^ 64 }
        ensures { (es : List EntryData) → ways_from es result ≡ to_next place (next_shape es next) }
    {
        let way = FlowEdge {
            to: place + 1,
            known: next.known,
        };
        Flow {
            first: Some(way),
            second: None,
            change: next.change,
        }
    }

    /// To two places, with the same cleanup entries.
    pub fn to_either<'a>(
        first: usize,
        there: &AbstractState<'a>,
        second: usize,
        here: &AbstractState<'a>,
    ) -> Flow
        requires { here.now.entries ≡ there.now.entries }
        ensures { ways_from there.now.entries result ≡ (first, there.now) ∷ (second, here.now) ∷ [] }
    {
        let first = FlowEdge {
            to: first,
            known: there.known(),
        };
        let second = FlowEdge {
            to: second,
            known: here.known(),
        };
        Flow {
            first: Some(first),
            second: Some(second),
            change: Change::none(),
        }
    }
}

/// A need that is asked only where the first holds.
pub fn only_if(asked: bool, holds: bool) -> bool
    ensures { result ≡ only_if asked holds }
{
    !asked || holds
}

/// The first need that is not met.
pub fn judge_all(needs: &[(bool, Reason)]) -> Result<(), Reason>
    ensures { result ≡ tested needs.now }
{
    for (holds, why) in needs {
        if !*holds {
            return Err(*why);
        }
    }
    Ok(())
}

/// The first need that is not met, or the flow.
pub fn judge(needs: &[(bool, Reason)], flow: Flow) -> Result<Flow, Reason>
    ensures { (es : List EntryData) → reported es result ≡ judged needs.now (ways_from es flow) }
{
    judge_all(needs)?;
    Ok(flow)
}
