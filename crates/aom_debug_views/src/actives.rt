//! The active objects, in the order of choice.
ghost use Rattle.std.specs.Prelude.{◌≡◌, IfErr, IfOk, IfSome, map, slice_get, true};
ghost use Rattle.aom_active_objects.specs.Agrees.{HasPriority, phase_of};
ghost use Rattle.aom_image.specs.Image.{Image};
ghost use Rattle.aom_machine.specs.Agreement.{AgreesInAll};
ghost use Rattle.aom_machine_state.specs.Stands.{Stands, Refines};
ghost use Rattle.aom_semantics.specs.Places.{requested};
ghost use Rattle.aom_semantics.specs.State.{State as StateRecord};
ghost use Rattle.aom_debug_symbols.specs.Answers.{reports_class};
ghost use Rattle.aom_debug_views.specs.Seeking.{path_at};
ghost use Rattle.aom_debug_views.specs.Actives.{ReportsActives, ReportsActivesPart, active_answer, active_at, shown_phase};

use crate::cleanup::class_of;
use crate::placed::{path_by, report_any_placed};
use crate::way::PathText;
use aom_budget::Accepted;
use aom_debug_protocol::{Answer, DebugFault, Phase};
use aom_debug_symbols::SourceNames;
use aom_machine_state::Parts;
use aom_scheduler::{RequestState, ScheduleEntry};
use aom_transcript::Sink;

/// How far a request has come, as it is told.
fn phase_of(state: RequestState) -> Phase
    ensures { result ≡ shown_phase (phase_of state) }
{
    match state {
        RequestState::Idle => Phase::Idle,
        RequestState::Issued => Phase::Issued,
        RequestState::Active | RequestState::Cancelling | RequestState::Aborted => Phase::Active,
    }
}

/// An enlisted object, as it is told.
fn entry_answer(parts: &Parts, entry: ScheduleEntry) -> Option<Answer>
    requires { (p : Image) × Stands (record { image = p; parts = parts.now }) }
    ensures classed { IfSome result (λ a. reports_class a ≡ true) }
    ensures reported { (p : Image) (s : StateRecord) → Refines (record { image = p; parts = parts.now }) s → HasPriority entry.priority (requested s.cells entry.id) → result ≡ active_answer p s.cells entry.id }
{
    let class = class_of(parts, entry.id.number())?;
    if parts.active.is_server(entry.id) {
        let queued = parts.clients.queued(entry.id.number() as u16);
        return Some(Answer::Server(class, entry.priority, queued));
    }
    let state = parts.active.state(entry.id)?;
    let status = parts.active.status(entry.id);
    Some(Answer::Active(class, entry.priority, phase_of(state), status))
}

/// The object at a place in the order of choice, as it is told.
fn place_answer(parts: &Parts, place: usize) -> Option<Answer>
    requires { (p : Image) × Stands (record { image = p; parts = parts.now }) }
    ensures classed { IfSome result (λ a. reports_class a ≡ true) }
    ensures reported { (p : Image) (s : StateRecord) → Refines (record { image = p; parts = parts.now }) s → result ≡ active_at p s.cells (slice_get (map (λ e. e.id) parts.now.active.priority_list.entries) place) }
{
    match parts.active.entry(place) {
        Some(entry) => entry_answer(parts, entry),
        None => None,
    }
}

/// The path of the object at a place in the order of choice, where there is a text.
fn place_path(
    parts: &Parts,
    accepted: &Accepted,
    names: &SourceNames,
    place: usize,
) -> Option<PathText>
    requires stands { Stands (record { image = accepted.now; parts = parts.now }) }
    requires agrees { AgreesInAll (record { image = accepted.now; parts = parts.now }) }
    ensures { (s : StateRecord) → Refines (record { image = accepted.now; parts = parts.now }) s → result ≡ path_at names.now s (slice_get (map (λ e. e.id) parts.now.active.priority_list.entries) place) }
{
    match parts.active.entry(place) {
        Some(entry) => path_by(parts, accepted, names, entry.id.number()),
        None => None,
    }
}

/// Tells the enlisted objects, of a server how much waits in its queue, and where there is a text the path of each, in the order of choice: one of a higher priority first, and of two of the same the one that was enlisted first.
pub fn report_actives<W: Sink>(
    parts: &Parts,
    accepted: &Accepted,
    names: &SourceNames,
    out: &mut W,
) -> Result<(), DebugFault>
    requires stands { Stands (record { image = accepted.now; parts = parts.now }) }
    requires agrees { AgreesInAll (record { image = accepted.now; parts = parts.now }) }
    ensures ok { IfOk result (λ _. ReportsActives names.now (record { image = accepted.now; parts = parts.now }) (W.out out.old) (W.out out.new)) }
    ensures err { IfErr result (λ fault. ReportsActivesPart names.now (record { image = accepted.now; parts = parts.now }) fault (W.failed out.new) (W.out out.old) (W.out out.new)) }
{
    for place in 0..parts.active.count() {
        let answer = place_answer(parts, place);
        let path = place_path(parts, accepted, names, place);
        report_any_placed(names, answer, path, out)?;
    }
    Ok(())
}
