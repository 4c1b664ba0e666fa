//! The one place that made what is known as it is.
ghost use Rattle.std.specs.Prelude.{IfNone, IfSome, IsSome, ℕ};
ghost use Rattle.aom_image.specs.Views.{method_at};
ghost use Rattle.aom_origins.specs.Origins.{HasOrigin, IsOnly, IsOrigin, known_of};

use crate::edges::place_brings;
use crate::subject::{Subject, is_same, needed_subject};
use aom_abstract_state::{AbstractState, Known, Reason};
use aom_image::MethodNumber;
use aom_linker::Linked;
use aom_verify::StateTable;

/// The place that brings it about, if there is one alone.
fn find_only(
    linked: &Linked,
    method: MethodNumber,
    states: &StateTable,
    subject: &Subject,
    now: &Known,
) -> Option<usize>
    requires { IsSome (method_at linked.now method) }
    ensures some { IfSome result (λ place. IsOnly linked.now method states.now subject.now now.now place) }
    ensures none { IfNone result ((place : ℕ) → ¬ IsOnly linked.now method states.now subject.now now.now place) }
{
    let mut found: Option<usize> = None;
    for from in 0..states.len() {
        if place_brings(linked, method, states, from, subject, now) {
            if found.is_some() {
                return None;
            }
            found = Some(from);
        }
    }
    found
}

/// The place whose instruction made the subject what it is in a state, if that is one place alone and the method does not begin so.
pub fn find_origin(
    linked: &Linked,
    method: MethodNumber,
    states: &StateTable,
    shape: &AbstractState<'_>,
    subject: &Subject,
) -> Option<usize>
    requires { IsSome (method_at linked.now method) }
    ensures some { IfSome result (λ place. IsOrigin linked.now method states.now subject.now (known_of shape.now) place) }
    ensures none { IfNone result ((place : ℕ) → ¬ IsOrigin linked.now method states.now subject.now (known_of shape.now) place) }
{
    let now = shape.known();
    let Some(first) = states.shape(0) else {
        return None;
    };
    if is_same(subject, &first.known(), &now) {
        return None;
    }
    find_only(linked, method, states, subject, &now)
}

/// The place that alone made so what the instruction at a place needs otherwise, where that is refused for a reason that is told.
pub fn find_need_origin(
    linked: &Linked,
    method: MethodNumber,
    states: &StateTable,
    place: usize,
    shape: &AbstractState<'_>,
    why: Reason,
) -> Option<usize>
    requires { IsSome (method_at linked.now method) }
    ensures some { IfSome result (λ origin. HasOrigin linked.now method states.now place shape.now why origin) }
    ensures none { IfNone result ((origin : ℕ) → ¬ HasOrigin linked.now method states.now place shape.now why origin) }
{
    if linked.method(method).code.len() <= place {
        return None;
    }
    match needed_subject(linked, method, place, shape, why) {
        Some(subject) => find_origin(linked, method, states, shape, &subject),
        None => None,
    }
}
