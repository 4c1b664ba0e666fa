//! One pass over the places of a method, the last one first: what the method costs from each of them.
ghost use Rattle.std.specs.Prelude.{◌≡◌, ◌≢◌, ◌≤◌, ◌<◌, ◌+◌, ◌-◌, ◌*◌, ◌^◌, ◌++◌, ℕ, suc, max, length, replicate, slice_set, Some, None, IfOk, IsSome};
ghost use Rattle.aom_image.specs.Views.{method_at};
ghost use Rattle.aom_link_conditions.specs.Bodies.{IsIn};
ghost use Rattle.aom_abstract_state.specs.AbstractState.{AbstractState};
ghost use Rattle.aom_roles.specs.Tables.{at};
ghost use Rattle.aom_static_bounds.specs.Strongest.{IsMethodStrongest};
ghost use Rattle.aom_static_bounds.specs.Calls.{listed};
ghost use Rattle.aom_verify.specs.Sweep.{HasPlaces};
ghost use Rattle.aom_budget.specs.StackDepths.{IsMost, Before};
ghost use Rattle.aom_budget.specs.Costing.{AreCosts};
ghost use Rattle.aom_budget.specs.Pricing.{kept, after_in, most_to, most_past, ExitsAt, Follows, IsPassing, IsMethodPriced, found_by, plain_cost, region_of};

use crate::costs::Costs;
use crate::sums::{Sums, kept};
use crate::targets::Targets;
use aom_image::{Instr, MethodNumber};
use aom_instructions::Transfer;
use aom_linker::Linked;
use aom_verify::{Checked, StateTable};
use std::alloc::{AllocError, Global};

/// A loop's place, and that of the next that closes it.
#[derive(Clone, Copy)]
pub(crate) struct Round {
    first: usize,
    last: usize,
}

/// What the pass has found, and the loops that it is in.
#[derive(Drop)]
pub(crate) struct Pass {
    /// By place what the method costs from there, where the round at hand is the last of each loop round that place.
    from: Sums,
    /// By a loop's place the most that follows the loop.
    after: Sums,
    /// By a loop's place the innermost loop round it.
    around: Vec<Option<Round>>,
    /// The innermost loop round the last place that was looked at.
    innermost: Option<Round>,
}

impl Pass {
    /// The pass stands past the last of so many places.
    fn new(alloc: Global, places: usize) -> Result<Pass, AllocError>
        ensures from { IfOk result (λ s. s.from ≡ replicate places 0) }
        ensures after { IfOk result (λ s. s.after ≡ replicate places 0) }
        ensures around { IfOk result (λ s. s.around.items ≡ replicate places None) }
        ensures innermost { IfOk result (λ s. s.innermost ≡ None) }
    {
        let from = Sums::new(alloc, places)?;
        let after = Sums::new(alloc, places)?;
        let around = vec![in alloc; None; places]?;
        Ok(Pass {
            from,
            after,
            around,
            innermost: None,
        })
    }

    /// The most that follows a loop, or 0 for the whole method.
    fn after_in(&self, region: Option<Round>) -> u64
        ensures is { result ≡ after_in self.now.after (region_of region) }
        ensures low { result ≤ 4294967296 }
    {
        match region {
            Some(round) => self.after.at(round.first),
            None => 0,
        }
    }

    /// What the method costs from a place, if it is not past the innermost loop.
    fn within(&self, target: Option<usize>) -> u64
        ensures is { result ≡ most_to self.now.from (region_of self.now.innermost) (listed target) }
        ensures low { result ≤ 4294967296 }
    {
        match (target, self.innermost) {
            (None, _) => 0,
            (Some(place), None) => self.from.at(place),
            (Some(place), Some(round)) => {
                if round.last < place {
                    0
                } else {
                    self.from.at(place)
                }
            }
        }
    }

    /// What it costs from a place past that one.
    fn past(&self, last: usize, target: Option<usize>) -> u64
        ensures is { result ≡ most_past self.now.from last (listed target) }
        ensures low { result ≤ 4294967296 }
    {
        match target {
            Some(place) => { if last < place { self.from.at(place) } else { 0 } }
            None => 0,
        }
    }

    fn most_within(&self, targets: Targets) -> u64
        ensures is { result ≡ most_to self.now.from (region_of self.now.innermost) (listed targets.first ++ listed targets.second) }
        ensures low { result ≤ 4294967296 }
    {
        self.within(targets.first).max(self.within(targets.second))
    }

    fn most_past(&self, last: usize, targets: Targets) -> u64
        ensures is { result ≡ most_past self.now.from last (listed targets.first ++ listed targets.second) }
        ensures low { result ≤ 4294967296 }
    {
        self.past(last, targets.first)
            .max(self.past(last, targets.second))
    }
    /// The most that a place of a body goes out to.
    fn exit_at(
        &self,
        linked: &Linked,
        method: MethodNumber,
        state_table: &StateTable,
        round: Round,
        place: usize,
    ) -> u64
        requires strongest { IsMethodStrongest linked.now method state_table.now }
        requires inside { IsIn round.first round.last place }
        requires place { suc place < 2 ^ 64 }
        ensures is { IsMost 4294967296 (ExitsAt linked.now method state_table.now self.now.from round.first round.last place) result }
        ensures low { result ≤ 4294967296 }
    {
        match state_table.view(place) {
            None => 0,
            Some(shape) => {
                let instr = linked.instr(method, place);
                self.most_past(round.last, Targets::of_instr(place, &shape, &instr))
            }
        }
    }

    /// The most that the places of a body go out to.
    fn exits_of(
        &self,
        linked: &Linked,
        method: MethodNumber,
        state_table: &StateTable,
        round: Round,
    ) -> u64
        requires strongest { IsMethodStrongest linked.now method state_table.now }
        requires order { round.first < round.last }
        requires last { suc round.last < 2 ^ 64 }
        ensures is { IsMost 4294967296 (Before (ExitsAt linked.now method state_table.now self.now.from round.first round.last) (suc round.last)) result }
        ensures low { result ≤ 4294967296 }
    {
        let mut most = 0;
        for place in round.first + 1..round.last + 1 {
            most = most.max(self.exit_at(linked, method, state_table, round, place));
        }
        most
    }

    /// The most that follows a loop: what follows the one round it, or what its body goes out to.
    fn follows(
        &self,
        linked: &Linked,
        method: MethodNumber,
        state_table: &StateTable,
        round: Round,
    ) -> u64
        requires strongest { IsMethodStrongest linked.now method state_table.now }
        requires order { round.first < round.last }
        requires last { suc round.last < 2 ^ 64 }
        ensures is { Follows linked.now method state_table.now self.now.from (after_in self.now.after (region_of self.now.innermost)) round.first round.last result }
        ensures low { result ≤ 4294967296 }
    {
        self.after_in(self.innermost)
            .max(self.exits_of(linked, method, state_table, round))
    }

    /// Goes into the body of a loop, at its end.
    fn close(&mut self, round: Round, follows: u64)
        requires room { round.first < length self.old.after }
        requires around { round.first < length self.old.around.items }
        requires low { follows ≤ 4294967296 }
        ensures from { self.new.from ≡ self.old.from }
        ensures after { self.new.after ≡ slice_set self.old.after round.first follows }
        ensures around { self.new.around.items ≡ slice_set self.old.around.items round.first self.old.innermost }
        ensures innermost { self.new.innermost ≡ Some round }
    {
        self.after.set(round.first, follows);
        self.around[round.first] = self.innermost;
        self.innermost = Some(round);
    }

    /// What a loop costs with all its rounds, where the last is part of what follows.
    fn all_rounds(&self, place: usize, rounds: u16) -> u64
        requires { suc place < 2 ^ 64 }
        ensures is { result ≡ kept (1 + (rounds - 1) * (at 0 self.now.from (suc place) - at 0 self.now.after place) + at 0 self.now.from (suc place)) }
        ensures low { result ≤ 4294967296 }
    {
        let next = self.from.at(place + 1);
        let round = next.saturating_sub(self.after.at(place));
        kept(1 + u64::from(rounds.saturating_sub(1)) * round + next)
    }

    /// What a method costs from a place with a plain instruction, and the dearest way on: nothing where it is not reached.
    fn plain(
        &self,
        linked: &Linked,
        costs: &Costs,
        method: MethodNumber,
        state_table: &StateTable,
        place: usize,
        instr: &Instr,
    ) -> u64
        requires fits { suc place < 2 ^ 64 }
        requires costs { AreCosts linked.now costs.now }
        ensures is { (sh : AbstractState) → at None state_table.now place ≡ Some sh → result ≡ plain_cost linked.now method costs.now.prices (found_by self.now.from self.now.after) (region_of self.now.innermost) place sh instr.now }
        ensures low { result ≤ 4294967296 }
    {
        match state_table.view(place) {
            None => 0,
            Some(shape) => {
                let onward = self
                    .after_in(self.innermost)
                    .max(self.most_within(Targets::of_instr(place, &shape, instr)));
                kept(costs.of_instr(linked, method, &shape, instr) + onward)
            }
        }
    }

    /// Keeps what a place costs, if it is reached.
    fn note(&mut self, state_table: &StateTable, place: usize, cost: u64)
        requires within { place < length self.old.from }
        requires low { cost ≤ 4294967296 }
        ensures here { (sh : AbstractState) → at None state_table.now place ≡ Some sh → at 0 self.new.from place ≡ cost }
        ensures others { (y : ℕ) → y ≢ place → at 0 self.new.from y ≡ at 0 self.old.from y }
        ensures size { length self.new.from ≡ length self.old.from }
        ensures after { self.new.after ≡ self.old.after }
        ensures around { self.new.around.items ≡ self.old.around.items }
        ensures innermost { self.new.innermost ≡ self.old.innermost }
    {
        if state_table.view(place).is_some() {
            self.from.set(place, cost);
        }
    }

    /// Finds what the method costs from a place, once that is found of the later ones.
    fn visit(
        &mut self,
        linked: &Linked,
        costs: &Costs,
        method: MethodNumber,
        state_table: &StateTable,
        place: usize,
    )
        requires strongest { IsMethodStrongest linked.now method state_table.now }
        requires passing { IsPassing linked.now costs.now.prices method state_table.now (suc place) self.old.from self.old.after self.old.innermost self.old.around.items }
        requires costs { AreCosts linked.now costs.now }
        requires place { place < length self.old.from }
        requires fits { suc place < 2 ^ 64 }
        ensures passing { IsPassing linked.now costs.now.prices method state_table.now place self.new.from self.new.after self.new.innermost self.new.around.items }
        ensures size { length self.new.from ≡ length self.old.from }
    {
        linked.facts();
        let _formed = linked.image().methods();
        self.from.low();
        self.after.low();
        let instr = linked.instr(method, place);
        match &instr.transfer() {
            Transfer::Repeat(_, to) => {
                let round = Round {
                    first: to.number() as usize - 1,
                    last: place,
                };
                let follows = self.follows(linked, method, state_table, round);
                self.close(round, follows);
                self.note(state_table, place, kept(1 + follows));
            }
            Transfer::Begin(_, rounds) => {
                self.innermost = self.around[place];
                let cost = self.all_rounds(place, *rounds);
                self.note(state_table, place, cost);
            }
            _ => {
                let cost = self.plain(linked, costs, method, state_table, place, &instr);
                self.note(state_table, place, cost);
            }
        }
    }

    /// Finds what the method costs from each place, the last one first.
    fn sweep(
        &mut self,
        linked: &Linked,
        costs: &Costs,
        method: MethodNumber,
        state_table: &StateTable,
    )
        requires strongest { IsMethodStrongest linked.now method state_table.now }
        requires costs { AreCosts linked.now costs.now }
        requires passing { IsPassing linked.now costs.now.prices method state_table.now (length self.old.from) self.old.from self.old.after self.old.innermost self.old.around.items }
        ensures { IsPassing linked.now costs.now.prices method state_table.now 0 self.new.from self.new.after self.new.innermost self.new.around.items }
    {
        let mut place = self.from.len();
        while place > 0 {
            place -= 1;
            self.visit(linked, costs, method, state_table, place);
        }
    }
}

/// How many places a method has.
fn place_count(linked: &Linked, method: MethodNumber) -> usize
    requires { IsSome (method_at linked.now method) }
    ensures { HasPlaces linked.now method result }
{
    let methods = linked.image().methods();
    methods.at(method.number() as usize).code.len()
}

/// The price of a method, by those of the lower ones.
pub(crate) fn price_of(
    alloc: Global,
    checked: &Checked,
    costs: &Costs,
    method: MethodNumber,
) -> Result<u64, AllocError>
    requires costs { AreCosts checked.now costs.now }
    requires method { IsSome (method_at checked.now method) }
    ensures price { IfOk result (λ n. IsMethodPriced checked.now costs.now.prices method n) }
    ensures low { IfOk result (λ n. n ≤ 4294967296) }
{
    let linked = checked.linked();
    let mut pass = Pass::new(alloc, place_count(linked, method))?;
    pass.sweep(linked, costs, method, checked.state_table(method));
    Ok(pass.from.at(0))
}
