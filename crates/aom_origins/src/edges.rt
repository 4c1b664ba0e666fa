//! Whether an instruction makes what is known as it is.
ghost use Rattle.std.specs.Prelude.{◌≡◌, IsSome, List, false, true};
ghost use Rattle.aom_image.specs.Views.{instr_at, method_at};
ghost use Rattle.aom_abstract_state.specs.Changes.{ways_from};
ghost use Rattle.aom_abstract_state.specs.declared.kind.CleanupEntry.{CleanupEntry};
ghost use Rattle.aom_origins.specs.Origins.{Brings, BringsFrom, all_bring};

use crate::subject::{Subject, is_same};
use aom_abstract_state::{AbstractState, Flow, Known};
use aom_image::MethodNumber;
use aom_linker::Linked;
use aom_rule_functions::rule;
use aom_verify::StateTable;

/// A state in a table has fewer cleanup entries.
const MAX_ENTRIES: usize = 1024;

/// Whether a flow leads on, and to none but states that have the subject so.
fn flow_brings(flow: &Flow, subject: &Subject, now: &Known) -> bool
    ensures { (es : List CleanupEntry) → result ≡ all_bring subject.now now.now (ways_from es flow.now) }
{
    match (&flow.first, &flow.second) {
        (None, None) => false,
        (Some(edge), None) => is_same(subject, &edge.known, now),
        (None, Some(edge)) => is_same(subject, &edge.known, now),
        (Some(one), Some(other)) => {
            is_same(subject, &one.known, now) && is_same(subject, &other.known, now)
        }
    }
}

/// Whether a state has the subject otherwise, and leads from a place to none but such as have it so.
fn state_brings(
    linked: &Linked,
    method: MethodNumber,
    from: usize,
    shape: &AbstractState<'_>,
    subject: &Subject,
    now: &Known,
) -> bool
    requires { IsSome (method_at linked.now method) }
    ensures yes { result ≡ true → Brings linked.now method from shape.now subject.now now.now }
    ensures no { result ≡ false → ¬ Brings linked.now method from shape.now subject.now now.now }
{
    if is_same(subject, &shape.known(), now) {
        return false;
    }
    if shape.height() >= MAX_ENTRIES {
        return false;
    }
    if linked.method(method).code.len() <= from {
        return false;
    }
    match rule(linked, method, from, shape) {
        Ok(flow) => flow_brings(&flow, subject, now),
        Err(_) => false,
    }
}

/// The same of the state of a place, if it has one.
pub(crate) fn place_brings(
    linked: &Linked,
    method: MethodNumber,
    states: &StateTable,
    from: usize,
    subject: &Subject,
    now: &Known,
) -> bool
    requires { IsSome (method_at linked.now method) }
    ensures yes { result ≡ true → BringsFrom linked.now method states.now subject.now now.now from }
    ensures no { result ≡ false → ¬ BringsFrom linked.now method states.now subject.now now.now from }
{
    match states.shape(from) {
        Some(shape) => state_brings(linked, method, from, &shape, subject, now),
        None => false,
    }
}
