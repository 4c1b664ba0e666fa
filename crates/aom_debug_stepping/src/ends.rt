//! The end of a dispatch in which `stop` was run.
ghost use Rattle.std.specs.Prelude.{◌≡◌, ◌&&◌, is_some, not};
ghost use Rattle.aom_image.specs.Image.{Image};
ghost use Rattle.aom_machine_instructions.specs.Going.{ending_here};
ghost use Rattle.aom_semantics.specs.Places.{Elsewhere, Place, Root, held};
ghost use Rattle.aom_semantics.specs.State.{State};
ghost use Rattle.aom_machine_state.specs.Agrees.{dispatch_of};
ghost use Rattle.aom_machine_state.specs.Stands.{Refines};
ghost use Rattle.aom_debug_stepping.specs.Next.{ends_all, ends_all_in, is_last, is_last_in, pauses, root_is_due};

use aom_cells::NULL;
use aom_frames::{Dispatch, TaskKind};
use aom_image::Role;
use aom_linker::Linked;
use aom_machine_state::Parts;

/// The dispatch that is at its end, if one is.
fn ending(parts: &Parts) -> Option<Dispatch>
    ensures { result ≡ ending_here parts.now.stack.tasks }
{
    match parts.stack.top() {
        Some(TaskKind::Dispatched(dispatch)) => Some(dispatch),
        _ => None,
    }
}

/// Whether nothing else of that dispatch is left: no `error` method is asked, and none has answered with an error.
fn ends_all(dispatch: Dispatch, linked: &Linked) -> bool
    ensures { (q : Place) → result ≡ ends_all linked.now (dispatch_of q dispatch) }
{
    match dispatch {
        Dispatch::Main | Dispatch::Object(_) | Dispatch::Asks(_) => true,
        // That of a server ends as one of an object first.
        Dispatch::MainLeft(_) | Dispatch::Root | Dispatch::Server(_, _, _) => false,
        Dispatch::ObjectLeft(subject, code) => {
            code == 0 && linked.role(subject.class(), Role::Error).is_none()
        }
        Dispatch::Answered(_, answer) => answer == 0,
    }
}

/// Whether a dispatch is at its end, of which nothing else is left.
fn ends_all_here(parts: &Parts, linked: &Linked) -> bool
    ensures { (s : State) → Refines (record { image = linked.now; parts = parts.now }) s → result ≡ ends_all_in linked.now s.tasks }
{
    match ending(parts) {
        Some(dispatch) => ends_all(dispatch, linked),
        None => false,
    }
}

/// Whether the root owns a cell.
fn root_owns(parts: &Parts) -> bool
    ensures { (p : Image) (s : State) → Refines (record { image = p; parts = parts.now }) s → result ≡ is_some (held s.cells (Elsewhere Root)) }
{
    parts.root != NULL
}

/// Whether the root's destruction is due: `stop` was run, the dispatch is at its end, and the root owns.
pub fn is_due(parts: &Parts, linked: &Linked) -> bool
    ensures { (s : State) → Refines (record { image = linked.now; parts = parts.now }) s → result ≡ root_is_due linked.now s }
{
    // Few steps are behind `stop`: in the others nothing more is looked at.
    if !parts.rest.is_stopped() {
        return false;
    }
    are_both(root_owns(parts), ends_all_here(parts, linked))
}

fn are_both(first: bool, second: bool) -> bool
    ensures { result ≡ (first && second) }
{
    first && second
}

fn all_of(first: bool, second: bool, third: bool) -> bool
    ensures { result ≡ (first && (second && third)) }
{
    first && second && third
}

/// Whether that dispatch is one after which the run may go on.
fn is_last(dispatch: Dispatch) -> bool
    ensures { (q : Place) → result ≡ is_last (dispatch_of q dispatch) }
{
    !matches!(
        dispatch,
        Dispatch::MainLeft(_) | Dispatch::Root | Dispatch::Server(_, _, _)
    )
}

/// Whether a dispatch is at its end, after which the run may go on.
fn is_last_here(parts: &Parts) -> bool
    ensures { (p : Image) (s : State) → Refines (record { image = p; parts = parts.now }) s → result ≡ is_last_in s.tasks }
{
    match ending(parts) {
        Some(dispatch) => is_last(dispatch),
        None => false,
    }
}

/// Whether the machine stays at the end of a dispatch in which `stop` was run, and the root's destruction is not due.
pub fn pauses(parts: &Parts, linked: &Linked) -> bool
    ensures { (s : State) → Refines (record { image = linked.now; parts = parts.now }) s → result ≡ pauses linked.now s }
{
    if !parts.rest.is_stopped() {
        return false;
    }
    all_of(is_going(parts), is_last_here(parts), !is_due(parts, linked))
}

/// Whether the run is not over.
fn is_going(parts: &Parts) -> bool
    ensures { (p : Image) (s : State) → Refines (record { image = p; parts = parts.now }) s → result ≡ not (is_some s.rest.ended) }
{
    parts.rest.ended().is_none()
}
