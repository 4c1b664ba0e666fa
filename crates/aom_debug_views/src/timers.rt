//! The timers that run, the one that is due first before all others.
ghost use Rattle.std.specs.Prelude.{◌≡◌, IfErr, IfOk, IfSome, Some, map, slice_get, true};
ghost use Rattle.aom_active_objects.specs.Agrees.{due_in};
ghost use Rattle.aom_image.specs.Image.{Image};
ghost use Rattle.aom_machine.specs.Agreement.{AgreesInAll};
ghost use Rattle.aom_machine_state.specs.Stands.{Stands, Refines};
ghost use Rattle.aom_semantics.specs.Places.{requested};
ghost use Rattle.aom_semantics.specs.State.{State as StateRecord};
ghost use Rattle.aom_debug_symbols.specs.Answers.{reports_class};
ghost use Rattle.aom_debug_views.specs.Seeking.{path_at};
ghost use Rattle.aom_debug_views.specs.Timers.{ReportsTimers, ReportsTimersPart, timer_answer, timer_at};

use crate::cleanup::class_of;
use crate::placed::{path_by, report_any_placed};
use crate::way::PathText;
use aom_budget::Accepted;
use aom_debug_protocol::{Answer, DebugFault};
use aom_debug_symbols::SourceNames;
use aom_machine_state::Parts;
use aom_scheduler::Timer;
use aom_transcript::Sink;

/// A timer, as it is told.
fn timer_answer(parts: &Parts, timer: Timer) -> Option<Answer>
    requires { (p : Image) × Stands (record { image = p; parts = parts.now }) }
    ensures classed { IfSome result (λ a. reports_class a ≡ true) }
    ensures reported { (p : Image) (s : StateRecord) → Refines (record { image = p; parts = parts.now }) s → due_in (requested s.cells timer.id) ≡ Some timer.due → result ≡ timer_answer s.cells timer.id }
{
    let class = class_of(parts, timer.id.number())?;
    Some(Answer::Timer(class, timer.due))
}

/// The timer at a place in the order in which they are due, as it is told.
fn place_answer(parts: &Parts, place: usize) -> Option<Answer>
    requires { (p : Image) × Stands (record { image = p; parts = parts.now }) }
    ensures classed { IfSome result (λ a. reports_class a ≡ true) }
    ensures reported { (p : Image) (s : StateRecord) → Refines (record { image = p; parts = parts.now }) s → result ≡ timer_at s.cells (slice_get (map (λ t. t.id) parts.now.active.pending.timers) place) }
{
    match parts.active.timer(place) {
        Some(timer) => timer_answer(parts, timer),
        None => None,
    }
}

/// The path of the object of a timer at a place in the order in which they are due, where there is a text.
fn place_path(
    parts: &Parts,
    accepted: &Accepted,
    names: &SourceNames,
    place: usize,
) -> Option<PathText>
    requires stands { Stands (record { image = accepted.now; parts = parts.now }) }
    requires agrees { AgreesInAll (record { image = accepted.now; parts = parts.now }) }
    ensures { (s : StateRecord) → Refines (record { image = accepted.now; parts = parts.now }) s → result ≡ path_at names.now s (slice_get (map (λ t. t.id) parts.now.active.pending.timers) place) }
{
    match parts.active.timer(place) {
        Some(timer) => path_by(parts, accepted, names, timer.id.number()),
        None => None,
    }
}

/// Tells the timers that run, when each is due, and where there is a text the path of its object: the sooner before the later, and of two at one time the one that was set first.
pub fn report_timers<W: Sink>(
    parts: &Parts,
    accepted: &Accepted,
    names: &SourceNames,
    out: &mut W,
) -> Result<(), DebugFault>
    requires stands { Stands (record { image = accepted.now; parts = parts.now }) }
    requires agrees { AgreesInAll (record { image = accepted.now; parts = parts.now }) }
    ensures ok { IfOk result (λ _. ReportsTimers names.now (record { image = accepted.now; parts = parts.now }) (W.out out.old) (W.out out.new)) }
    ensures err { IfErr result (λ fault. ReportsTimersPart names.now (record { image = accepted.now; parts = parts.now }) fault (W.failed out.new) (W.out out.old) (W.out out.new)) }
{
    for place in 0..parts.active.timers() {
        let answer = place_answer(parts, place);
        let path = place_path(parts, accepted, names, place);
        report_any_placed(names, answer, path, out)?;
    }
    Ok(())
}
