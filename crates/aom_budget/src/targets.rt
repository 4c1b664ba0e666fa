//! Where an instruction goes on.
ghost use Rattle.std.specs.Prelude.{◌≡◌, ◌++◌, [], ◌∷◌, ◌<◌, ◌^◌, suc, bit_and};
ghost use Rattle.aom_image.specs.Image.{Image as ImageRecord};
ghost use Rattle.aom_static_bounds.specs.Calls.{listed};
ghost use Rattle.aom_budget.specs.Pricing.{null_targets, empty_targets, states_targets, targets_of};

use aom_abstract_state::{FieldState, Kind};
use aom_image::{Instr, InstrPlace, States};
use aom_instructions::{Condition, Transfer};
use aom_rule_functions::{enlisted, inactive, outstanding};
use aom_verify::AbstractStateView;
use bitflags::Flags;

/// At most two places.
#[derive(Clone, Copy)]
pub(crate) struct Targets {
    pub(crate) first: Option<usize>,
    pub(crate) second: Option<usize>,
}

/// A place as an index.
fn index_of(place: InstrPlace) -> usize
    ensures { result ≡ place }
{
    place.number() as usize
}

impl Targets {
    fn none() -> Targets
        ensures { listed result.first ++ listed result.second ≡ [] }
    {
        Targets {
            first: None,
            second: None,
        }
    }

    fn one(place: usize) -> Targets
        ensures { listed result.first ++ listed result.second ≡ place ∷ [] }
    {
        Targets {
            first: Some(place),
            second: None,
        }
    }

    fn two(first: usize, second: usize) -> Targets
        ensures { listed result.first ++ listed result.second ≡ first ∷ second ∷ [] }
    {
        Targets {
            first: Some(first),
            second: Some(second),
        }
    }

    fn of_null(next: usize, kind: Kind, to: usize) -> Targets
        ensures { listed result.first ++ listed result.second ≡ null_targets next kind to }
    {
        match kind {
            Kind::Unset | Kind::Word => Targets::none(),
            Kind::Null => Targets::one(to),
            Kind::Own(_, _) => Targets::one(next),
            Kind::Maybe(_, _) => Targets::two(next, to),
        }
    }

    fn of_empty(next: usize, field_state: FieldState, to: usize) -> Targets
        ensures { listed result.first ++ listed result.second ≡ empty_targets next field_state to }
    {
        match field_state {
            FieldState::Empty => Targets::one(to),
            FieldState::Full => Targets::one(next),
            FieldState::Perhaps => Targets::two(next, to),
        }
    }

    /// The next place in the first of the states, and that place in the others. A place for which there is no state is left
    /// out.
    fn of_states(next: usize, states: States, first: States, to: usize, others: States) -> Targets
        ensures { listed result.first ++ listed result.second ≡ states_targets next (bit_and states.0 first.0) to (bit_and states.0 others.0) }
    {
        let here = states.intersection(first);
        let there = states.intersection(others);
        match (here.is_empty(), there.is_empty()) {
            (false, false) => Targets::two(next, to),
            (false, true) => Targets::one(next),
            (true, false) => Targets::one(to),
            (true, true) => Targets::none(),
        }
    }

    /// The places at which a run may go on from one, by what is known there.
    pub(crate) fn of_instr(place: usize, shape: &AbstractStateView<'_>, instr: &Instr) -> Targets
        requires { suc place < 2 ^ 64 }
        ensures { (p : ImageRecord) → listed result.first ++ listed result.second ≡ targets_of p place shape.now instr.now }
    {
        let next = place + 1;
        match &instr.transfer() {
            Transfer::Jump(to) => Targets::one(index_of(*to)),
            Transfer::Branch(Condition::OnWords, to) => Targets::two(next, index_of(*to)),
            Transfer::Branch(Condition::IsNull(register), to) => {
                Targets::of_null(next, shape.register(*register), index_of(*to))
            }
            Transfer::Branch(Condition::IsEmpty(field), to) => {
                Targets::of_empty(next, shape.field(*field), index_of(*to))
            }
            Transfer::Branch(Condition::IsActive, to) => Targets::of_states(
                next,
                shape.states(),
                inactive(),
                index_of(*to),
                outstanding(),
            ),
            Transfer::Branch(Condition::IsAdded, to) => Targets::of_states(
                next,
                shape.states(),
                States::UNLISTED,
                index_of(*to),
                enlisted(),
            ),
            Transfer::Repeat(_, to) => Targets::two(index_of(*to), next),
            Transfer::Return(_) | Transfer::Leave(_) => Targets::none(),
            Transfer::Onward | Transfer::Begin(_, _) => Targets::one(next),
        }
    }
}
