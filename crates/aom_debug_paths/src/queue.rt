//! What waits at a server.
ghost use Rattle.std.specs.Prelude.{◌≡◌, ◌<◌, IfErr, IfOk, length, option_map, slice_get};
ghost use Rattle.aom_cells.specs.Heap.{Lives};
ghost use Rattle.aom_clients.specs.Clients.{queue_at, taken_entry};
ghost use Rattle.aom_image.specs.Image.{Image};
ghost use Rattle.aom_machine_state.specs.Stands.{Stands};
ghost use Rattle.aom_semantics.specs.Places.{service_of};
ghost use Rattle.aom_debug_views.specs.Reporting.{Reports, ReportsPart, answers_text};
ghost use Rattle.aom_debug_paths.specs.Paths.{taken_answer, waiting_lines};

use crate::Found;
use aom_clients::{QueueEntry, TakenEntry};
use aom_debug_protocol::{Answer, DebugFault};
use aom_debug_views::report_any;
use aom_machine_state::Parts;
use aom_transcript::Sink;

/// What waits, as it is told.
fn taken_answer(taken: TakenEntry) -> Answer
    ensures { result ≡ taken_answer taken }
{
    match taken.entry {
        QueueEntry::Connect { .. } => Answer::Connect(taken.client),
        QueueEntry::Message { .. } => Answer::Message(taken.client),
        QueueEntry::Close { .. } => Answer::Close(taken.client),
    }
}

/// What waits at a server behind so many others, as it is told.
fn waiting_answer(parts: &Parts, server: u16, ahead: usize) -> Option<Answer>
    requires { server < length parts.now.clients.queues }
    ensures { result ≡ option_map (λ e. taken_answer (taken_entry parts.now.clients e)) (slice_get (queue_at parts.now.clients server) ahead) }
{
    match parts.clients.waiting(server, ahead) {
        Some(taken) => Some(taken_answer(taken)),
        None => None,
    }
}

/// Tells what waits at the server in a cell, the first first.
fn report_waiting<W: Sink>(parts: &Parts, server: u16, out: &mut W) -> Result<(), DebugFault>
    requires { server < length parts.now.clients.queues }
    ensures ok { IfOk result (λ _. (p : Image) → Reports (record { image = p; parts = parts.now }) (λ s. answers_text (waiting_lines (service_of s.cells server).queue)) (W.out out.old) (W.out out.new)) }
    ensures err { IfErr result (λ fault. (p : Image) → ReportsPart (record { image = p; parts = parts.now }) (λ s. answers_text (waiting_lines (service_of s.cells server).queue)) fault (W.failed out.new) (W.out out.old) (W.out out.new)) }
{
    for ahead in 0..parts.clients.queued(server) {
        report_any(waiting_answer(parts, server, ahead), out)?;
    }
    Ok(())
}

/// Tells what waits at an object, the first first. An object that is no server has nothing that waits.
pub fn report_queue<W: Sink>(parts: &Parts, found: Found, out: &mut W) -> Result<(), DebugFault>
    requires stands { (p : Image) × Stands (record { image = p; parts = parts.now }) }
    requires lives { Lives parts.now.cells found.cell }
    ensures ok { IfOk result (λ _. (p : Image) → Reports (record { image = p; parts = parts.now }) (λ s. answers_text (waiting_lines (service_of s.cells found.cell).queue)) (W.out out.old) (W.out out.new)) }
    ensures err { IfErr result (λ fault. (p : Image) → ReportsPart (record { image = p; parts = parts.now }) (λ s. answers_text (waiting_lines (service_of s.cells found.cell).queue)) fault (W.failed out.new) (W.out out.old) (W.out out.new)) }
{
    report_waiting(parts, found.cell.number() as u16, out)
}
