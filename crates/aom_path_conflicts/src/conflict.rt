//! The other way to a place, and the register of which it knows another kind.
ghost use Rattle.std.specs.Prelude.{◌<◌, IfNone, IfSome, IsSome, List};
ghost use Rattle.aom_image.specs.Views.{instr_at, method_at};
ghost use Rattle.aom_abstract_state.specs.Changes.{changed, leads_both, leads_to, ways_from};
ghost use Rattle.aom_abstract_state.specs.declared.kind.CleanupEntry.{CleanupEntry};
ghost use Rattle.aom_path_conflicts.specs.Conflicts.{AgreesAt, AgreesFrom, Conflicts, DiffersAt, DiffersFrom, EachAgrees, IsFirstApart, NoConflict, NoneApart, SomeDiffers};

use aom_abstract_state::{AbstractState, Flow, FlowEdge, Kind, Known};
use aom_image::MethodNumber;
use aom_linker::Linked;
use aom_rule_functions::rule;
use aom_verify::StateTable;

/// How many registers a method has.
const REGISTERS: u8 = 16;

/// A state in a table has fewer cleanup entries.
const MAX_ENTRIES: usize = 1024;

/// A register of which another way knows a kind that has nothing in common with what is known.
#[derive(Clone, Copy)]
pub struct Difference {
    /// Its number, below 16.
    pub register: u8,
    /// What the other way knows of it.
    pub kind: Kind,
}

/// Another way to a place, from the place behind which it comes there.
#[derive(Clone, Copy)]
pub struct Conflict {
    pub from: usize,
    pub difference: Difference,
}

/// The first register whose kinds have nothing in common.
fn first_apart(here: &Known, there: &Known) -> Option<Difference>
    ensures some { IfSome result (λ d. IsFirstApart here.now.registers there.now.registers d) }
    ensures none { IfNone result (NoneApart here.now.registers there.now.registers) }
{
    for register in 0..REGISTERS {
        let kind = there.kind_at(register as usize);
        if here.kind_at(register as usize).meet(&kind).is_none() {
            return Some(Difference { register, kind });
        }
    }
    None
}

/// How an edge differs from what is known at a place, if it leads there.
fn edge_differs(edge: &Option<FlowEdge>, place: usize, here: &Known) -> Option<Difference>
    ensures some { IfSome result (λ d. (es : List CleanupEntry) → SomeDiffers here.now.registers place d (leads_to es edge.now)) }
    ensures none { IfNone result ((es : List CleanupEntry) → EachAgrees here.now.registers place (leads_to es edge.now)) }
{
    match edge {
        Some(edge) if edge.to == place => first_apart(here, &edge.known),
        _ => None,
    }
}

/// The same of the edges of a flow, the first one first.
fn flow_differs(flow: &Flow, place: usize, here: &Known) -> Option<Difference>
    ensures some { IfSome result (λ d. (es : List CleanupEntry) → SomeDiffers here.now.registers place d (ways_from es flow.now)) }
    ensures none { IfNone result ((es : List CleanupEntry) → EachAgrees here.now.registers place (ways_from es flow.now)) }
{
    match edge_differs(&flow.first, place, here) {
        Some(difference) => Some(difference),
        None => edge_differs(&flow.second, place, here),
    }
}

/// How a state leads from one place to another with something else known there.
fn state_differs(
    linked: &Linked,
    method: MethodNumber,
    from: usize,
    shape: &AbstractState<'_>,
    place: usize,
    here: &Known,
) -> Option<Difference>
    requires { IsSome (method_at linked.now method) }
    ensures some { IfSome result (λ d. DiffersAt linked.now method from shape.now place here.now.registers d) }
    ensures none { IfNone result (AgreesAt linked.now method from shape.now place here.now.registers) }
{
    if shape.height() >= MAX_ENTRIES {
        return None;
    }
    if linked.method(method).code.len() <= from {
        return None;
    }
    match rule(linked, method, from, shape) {
        Ok(flow) => flow_differs(&flow, place, here),
        Err(_) => None,
    }
}

/// The same of the state of a place, if it has one.
fn place_differs(
    linked: &Linked,
    method: MethodNumber,
    states: &StateTable,
    from: usize,
    place: usize,
    here: &Known,
) -> Option<Difference>
    requires { IsSome (method_at linked.now method) }
    ensures some { IfSome result (λ d. DiffersFrom linked.now method states.now from place here.now.registers d) }
    ensures none { IfNone result (AgreesFrom linked.now method states.now from place here.now.registers) }
{
    match states.shape(from) {
        Some(shape) => state_differs(linked, method, from, &shape, place, here),
        None => None,
    }
}

/// The first place whose state leads to that place with a register of which something else is known than in the state there.
pub fn find_conflict(
    linked: &Linked,
    method: MethodNumber,
    states: &StateTable,
    place: usize,
    here: &AbstractState<'_>,
) -> Option<Conflict>
    requires { IsSome (method_at linked.now method) }
    ensures some { IfSome result (λ c. Conflicts linked.now method states.now place here.now.registers c) }
    ensures none { IfNone result (NoConflict linked.now method states.now place here.now.registers) }
{
    let known = here.known();
    for from in 0..states.len() {
        match place_differs(linked, method, states, from, place, &known) {
            Some(difference) => return Some(Conflict { from, difference }),
            None => {}
        }
    }
    None
}
