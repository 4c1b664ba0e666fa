//! The abstract states of one method, by place, and the sweeps that find them.
ghost use Rattle.std.specs.Prelude.{◌≡◌, ◌<◌, suc, [], ◌∷◌, length, replicate, slice_set, IfOk, IfErr, IfSome, IsSome, Some, None};
ghost use Rattle.aom_image.specs.Views.{instr_at};
ghost use Rattle.aom_abstract_state.specs.Changes.{changed, kept_shape, known_with, leads_both, leads_to, ways_from};
ghost use Rattle.aom_typing_rules.specs.Laws.{HaveAtMost};
ghost use Rattle.aom_abstract_state.specs.Meet.{NoMeet, ReasonNoMeet};
ghost use Rattle.aom_abstract_state.specs.EntryStacks.{Stands, entries_of};
ghost use Rattle.aom_typing_rules.specs.Rules.{rule};
ghost use Rattle.aom_roles.specs.Tables.{at};
ghost use Rattle.aom_verify.specs.Entries.{IsFew, AllFew, HasRoom};
ghost use Rattle.aom_verify.specs.Faults.{JoinStops, Stops, refusal_of};
ghost use Rattle.aom_verify.specs.States.{Lowers, shape_of, shapes};
ghost use Rattle.aom_verify.specs.Sweep.{AreWorked, Marks, Spans, AllWithin, Joins, Flows, Fails, IsAhead, SameBut, WithinMethod, Visits, Sweeps, SweepsOn, Settles};

use crate::Refusal;
use crate::change::{StatesChange, Step};
use crate::stale::Stale;
use crate::view::AbstractStateView;
use aom_abstract_state::{
    AbstractState, Change as EntriesChange, EntryStack, EntryStacks, Flow, FlowEdge, Kept, Known,
    Reason, meet_kept, weaker_kept,
};
use aom_image::MethodNumber;
use aom_linker::Linked;
use aom_rule_functions::rule;
use std::alloc::{AllocError, Global};
use std::marker::Model;

/// Why sweeps end early.
#[derive(Clone, Copy)]
pub(crate) enum SweepFault {
    OutOfMemory,
    /// Where a rule or a meet fails.
    At { place: usize, why: Reason },
}

impl From<AllocError> for SweepFault {
    ghost use Rattle.aom_verify.specs.declared.states.SweepFault.TheVariants.{OutOfMemory};

    ghost from_gives = { λ _ e. e ≡ OutOfMemory };

    fn from(_error: AllocError) -> SweepFault {
        SweepFault::OutOfMemory
    }
}

impl SweepFault {
    /// The same as a refusal of the method.
    pub(crate) fn refusal(self, method: MethodNumber) -> Refusal
        ensures { result ≡ refusal_of method self }
    {
        match self {
            SweepFault::OutOfMemory => Refusal::OutOfMemory,
            SweepFault::At { place, why } => Refusal::Refused { method, place, why },
        }
    }
}

/// A state for each place of a method that is reached.
#[derive(Drop)]
pub(crate) struct PlaceStates {
    places: Vec<Option<Kept>>,
    entry_stacks: EntryStacks,
}

impl Model for PlaceStates {
    ghost use Rattle.aom_verify.specs.States.{AreKept, States as StatesRecord};

    ghost Value = { StatesRecord };

    ghost view = { λ s. record { places = s.places.items; nodes = s.entry_stacks } };

    ghost invariant = { λ s. AreKept s.entry_stacks s.places.items };
}

impl PlaceStates {
    /// So many places, of which the first alone is reached.
    pub(crate) fn new(alloc: Global, count: usize, entry: Known) -> Result<PlaceStates, AllocError>
        requires { 0 < count }
        ensures { IfOk result (λ s. shapes s ≡ slice_set (replicate count None) 0 (Some (known_with entry []))) }
    {
        let mut places = vec![in alloc; None; count]?;
        places[0] = Some(Kept {
            known: entry,
            entry_stack: EntryStack::none(),
        });
        Ok(PlaceStates {
            places,
            entry_stacks: EntryStacks::new(alloc),
        })
    }

    /// How many places there are.
    pub(crate) fn len(&self) -> usize
        ensures { result ≡ length (shapes self.now) }
    {
        self.places.len()
    }

    /// The state at a place, if that is a place that is reached.
    pub(crate) fn shape(&self, place: usize) -> Option<AbstractState<'_>>
        ensures { result ≡ at None (shapes self.now) place }
    {
        if self.len() <= place {
            return None;
        }
        match self.kept_at(place) {
            None => None,
            Some(kept) => Some(kept.shape(&self.entry_stacks)),
        }
    }

    /// The same, read where it stands.
    pub(crate) fn view(&self, place: usize) -> Option<AbstractStateView<'_>>
        ensures { result ≡ at None (shapes self.now) place }
    {
        if self.len() <= place {
            return None;
        }
        match &self.places[place] {
            None => None,
            Some(kept) => Some(AbstractStateView::new(kept, &self.entry_stacks)),
        }
    }

    /// The entries after a change. The states stay as they are.
    fn changed(
        &mut self,
        entry_stack: EntryStack,
        change: EntriesChange,
    ) -> Result<EntryStack, AllocError>
        requires stands { Stands self.old.nodes entry_stack }
        requires room { length (entries_of self.old.nodes entry_stack) < 1024 }
        ensures same { shapes self.new ≡ shapes self.old }
        ensures stands { IfOk result (λ p. Stands self.new.nodes p) }
        ensures value { IfOk result (λ p. entries_of self.new.nodes p ≡ changed change (entries_of self.old.nodes entry_stack)) }
    {
        self.entry_stacks.changed(entry_stack, change)
    }

    /// What is known at a place from one flow to it.
    fn join(&mut self, to: usize, new: Kept) -> Result<StatesChange, SweepFault>
        requires within { to < length (shapes self.old) }
        requires few { IsFew (shapes self.old) (kept_shape self.old.nodes new) }
        requires stands { Stands self.old.nodes new.entry_stack }
        ensures nodes { self.new.nodes ≡ self.old.nodes }
        ensures ok { IfOk result (λ change. Joins (shapes self.old) (shapes self.new) ((to, kept_shape self.old.nodes new) ∷ []) change) }
        ensures others { IfOk result (λ change. SameBut to (shapes self.old) (shapes self.new)) }
        ensures err { IfErr result (λ fault. JoinStops (shapes self.old) (shapes self.new) ((to, kept_shape self.old.nodes new) ∷ []) fault) }
    {
        let Some(there) = self.places[to] else {
            self.places[to] = Some(new);
            return Ok(StatesChange::Reached);
        };
        match lowered(&self.entry_stacks, &there, &new) {
            Ok(None) => Ok(StatesChange::Nothing),
            Ok(Some(known)) => {
                let entry_stack = there.entry_stack;
                self.places[to] = Some(Kept { known, entry_stack });
                Ok(StatesChange::Fell)
            }
            Err(why) => Err(SweepFault::At { place: to, why }),
        }
    }

    /// The same of a way, if there is one, by a sweep that has come to that place.
    #[inline(always)]
    fn join_perhaps(
        &mut self,
        stale: &mut Stale,
        way: &Option<FlowEdge>,
        entry_stack: EntryStack,
        seen: usize,
    ) -> Result<Step, SweepFault>
        requires within { AllWithin (length (shapes self.old)) (leads_to (entries_of self.old.nodes entry_stack) way.now) }
        requires few { AllFew (shapes self.old) (leads_to (entries_of self.old.nodes entry_stack) way.now) }
        requires stands { Stands self.old.nodes entry_stack }
        ensures nodes { self.new.nodes ≡ self.old.nodes }
        ensures ok { IfOk result (λ step. Joins (shapes self.old) (shapes self.new) (leads_to (entries_of self.old.nodes entry_stack) way.now) step.change × IsAhead seen (shapes self.old) (shapes self.new) step × Marks (shapes self.old) (shapes self.new) stale.old stale.new) }
        ensures err { IfErr result (λ fault. JoinStops (shapes self.old) (shapes self.new) (leads_to (entries_of self.old.nodes entry_stack) way.now) fault) }
    {
        match way {
            None => Ok(Step::nothing()),
            Some(way) => {
                let known = way.known;
                let change = self.join(way.to, Kept { known, entry_stack })?;
                stale.mark(way.to, change);
                Ok(Step::at(way.to, seen, change))
            }
        }
    }

    fn join_all(
        &mut self,
        stale: &mut Stale,
        flow: &Flow,
        entry_stack: EntryStack,
        seen: usize,
    ) -> Result<Step, SweepFault>
        requires within { AllWithin (length (shapes self.old)) (leads_both (entries_of self.old.nodes entry_stack) flow.now) }
        requires few { AllFew (shapes self.old) (leads_both (entries_of self.old.nodes entry_stack) flow.now) }
        requires stands { Stands self.old.nodes entry_stack }
        ensures ok { IfOk result (λ step. Joins (shapes self.old) (shapes self.new) (leads_both (entries_of self.old.nodes entry_stack) flow.now) step.change × IsAhead seen (shapes self.old) (shapes self.new) step × Marks (shapes self.old) (shapes self.new) stale.old stale.new) }
        ensures err { IfErr result (λ fault. JoinStops (shapes self.old) (shapes self.new) (leads_both (entries_of self.old.nodes entry_stack) flow.now) fault) }
    {
        let first = self.join_perhaps(stale, &flow.first, entry_stack, seen)?;
        let second = self.join_perhaps(stale, &flow.second, entry_stack, seen)?;
        Ok(first.then(second))
    }

    /// Meets the flows of a state with these entries into their targets, the lower target first.
    fn follow(
        &mut self,
        stale: &mut Stale,
        entry_stack: EntryStack,
        flow: &Flow,
        seen: usize,
    ) -> Result<Step, SweepFault>
        requires within { AllWithin (length (shapes self.old)) (ways_from (entries_of self.old.nodes entry_stack) flow.now) }
        requires few { AllFew (shapes self.old) (ways_from (entries_of self.old.nodes entry_stack) flow.now) }
        requires stands { Stands self.old.nodes entry_stack }
        requires room { length (entries_of self.old.nodes entry_stack) < 1024 }
        ensures ok { IfOk result (λ step. Joins (shapes self.old) (shapes self.new) (ways_from (entries_of self.old.nodes entry_stack) flow.now) step.change × IsAhead seen (shapes self.old) (shapes self.new) step × Marks (shapes self.old) (shapes self.new) stale.old stale.new) }
        ensures err { IfErr result (λ fault. JoinStops (shapes self.old) (shapes self.new) (ways_from (entries_of self.old.nodes entry_stack) flow.now) fault) }
    {
        let after = self.changed(entry_stack, flow.change)?;
        self.join_all(stale, flow, after, seen)
    }

    /// Applies the rule at a place, if it is reached, and meets its flows into their targets, the lower target first. Nothing is
    /// to be done at a place whose state has not changed since.
    fn visit(
        &mut self,
        stale: &mut Stale,
        linked: &Linked,
        method: MethodNumber,
        place: usize,
    ) -> Result<Step, SweepFault>
        requires spans { Spans linked.now method (shapes self.old) }
        requires place { place < length (shapes self.old) }
        requires worked { AreWorked linked.now method (shapes self.old) stale.old }
        ensures ok { IfOk result (λ step. Visits linked.now method (shapes self.old) (shapes self.new) place step) }
        ensures worked { IfOk result (λ _. AreWorked linked.now method (shapes self.new) stale.new) }
        ensures err { IfErr result (λ fault. Stops linked.now method (shapes self.old) (shapes self.new) fault) }
    {
        if !stale.take(place) {
            return Ok(Step::nothing());
        }
        match self.kept_at(place) {
            None => Ok(Step::nothing()),
            Some(kept) => {
                let ruled = flow_of(linked, method, place, &kept.shape(&self.entry_stacks));
                match &ruled {
                    Ok(flow) => self.follow(stale, kept.entry_stack, flow, place),
                    Err(why) => Err(SweepFault::At { place, why: *why }),
                }
            }
        }
    }

    /// What is kept of the state at a place, if it is reached.
    fn kept_at(&self, place: usize) -> Option<Kept>
        requires { place < length (shapes self.now) }
        ensures shape { shape_of self.now.nodes result ≡ at None (shapes self.now) place }
        ensures stands { IfSome result (λ kept. Stands self.now.nodes kept.entry_stack) }
    {
        self.places[place]
    }

    /// Visits each place in order.
    fn sweep(
        &mut self,
        stale: &mut Stale,
        linked: &Linked,
        method: MethodNumber,
    ) -> Result<Step, SweepFault>
        requires spans { Spans linked.now method (shapes self.old) }
        requires worked { AreWorked linked.now method (shapes self.old) stale.old }
        ensures ok { IfOk result (λ step. Sweeps linked.now method (shapes self.old) (shapes self.new) (length (shapes self.old)) step) }
        ensures worked { IfOk result (λ _. AreWorked linked.now method (shapes self.new) stale.new) }
        ensures err { IfErr result (λ fault. Stops linked.now method (shapes self.old) (shapes self.new) fault) }
    {
        let mut step = Step::nothing();
        for place in 0..self.len() {
            step = step.then(self.visit(stale, linked, method, place)?);
        }
        Ok(step)
    }

    /// Sweeps until one reaches a place, or changes nothing at a place that it has come to. Whether another has to follow.
    fn sweep_on(
        &mut self,
        stale: &mut Stale,
        linked: &Linked,
        method: MethodNumber,
    ) -> Result<bool, SweepFault>
        requires spans { Spans linked.now method (shapes self.old) }
        requires worked { AreWorked linked.now method (shapes self.old) stale.old }
        ensures ok { IfOk result (λ reached. SweepsOn linked.now method (shapes self.old) (shapes self.new) reached) }
        ensures worked { IfOk result (λ _. AreWorked linked.now method (shapes self.new) stale.new) }
        ensures err { IfErr result (λ fault. Stops linked.now method (shapes self.old) (shapes self.new) fault) }
    {
        loop {
            let step = self.sweep(stale, linked, method)?;
            if !step.is_behind {
                return Ok(false);
            }
            match step.change {
                StatesChange::Nothing => return Ok(false),
                StatesChange::Fell => {}
                StatesChange::Reached => return Ok(true),
            }
        }
    }

    /// Sweeps until one leaves nothing to do.
    pub(crate) fn sweep_to_fixpoint(
        &mut self,
        alloc: Global,
        linked: &Linked,
        method: MethodNumber,
    ) -> Result<(), SweepFault>
        requires { Spans linked.now method (shapes self.old) }
        ensures ok { IfOk result (λ _. Settles linked.now method (shapes self.old) (shapes self.new)) }
        ensures err { IfErr result (λ fault. Stops linked.now method (shapes self.old) (shapes self.new) fault) }
    {
        let mut stale = Stale::all(alloc, self.len())?;
        while self.sweep_on(&mut stale, linked, method)? {}
        Ok(())
    }
}

/// Where a run may go on from a place with that state, or the need that fails there.
fn flow_of(
    linked: &Linked,
    method: MethodNumber,
    place: usize,
    shape: &AbstractState<'_>,
) -> Result<Flow, Reason>
    requires instr { IsSome (instr_at linked.now method place) }
    requires room { HasRoom linked.now method shape.now }
    ensures ok { IfOk result (λ flow. Flows linked.now method place shape.now (ways_from shape.now.entries flow)) }
    ensures within { IfOk result (λ flow. WithinMethod linked.now method (ways_from shape.now.entries flow)) }
    ensures few { IfOk result (λ flow. HaveAtMost (suc (length shape.now.entries)) (ways_from shape.now.entries flow)) }
    ensures room { length shape.now.entries < 1024 }
    ensures err { IfErr result (λ why. Fails linked.now method place shape.now why) }
{
    linked.facts();
    let _formed = linked.image().methods();
    rule(linked, method, place, shape)
}

/// What is known at a place once something new comes there, if that is less than before.
fn lowered(entry_stacks: &EntryStacks, there: &Kept, new: &Kept) -> Result<Option<Known>, Reason>
    ensures ok { IfOk result (λ less. Lowers entry_stacks.now there.now new.now less) }
    ensures err { IfErr result (λ why. NoMeet (kept_shape entry_stacks.now there.now) (kept_shape entry_stacks.now new.now) × ReasonNoMeet (kept_shape entry_stacks.now there.now) (kept_shape entry_stacks.now new.now) why) }
{
    if weaker_kept(entry_stacks, there, new) {
        return Ok(None);
    }
    match meet_kept(entry_stacks, there, new) {
        Ok(less) => Ok(Some(less)),
        Err(why) => Err(why),
    }
}
