//! Natives between dispatches: one is killed, or one that is polled completes a request.
ghost use Rattle.aom_active_objects.specs.Agrees.{RefinesRequests as Asks_for};
ghost use Rattle.aom_active_objects.specs.Meanings.{asked_anew};
ghost use Rattle.aom_cells.specs.Heap.{Lives, class_at};
ghost use Rattle.aom_machine_state.specs.Progress.{progress_by};
ghost use Rattle.aom_machine.specs.Serving.{Detaches, Finishes, serves_class};
ghost use Rattle.aom_machine_state.specs.Stands.{Stands, Refines};
ghost use Rattle.aom_machine.specs.Turns.{Takes};
ghost use Rattle.aom_machine_state.specs.declared.progress.Progress.TheVariants.{Turned};
ghost use Rattle.aom_scheduler.specs.Requests.{is_pending, request_at};
ghost use Rattle.aom_cells.specs.Sessions.{Sets, is_killed, is_open};
ghost use Rattle.aom_semantics.specs.Requests.{is_unanswered};
ghost use Rattle.aom_semantics.specs.Natives.{is_owed, terminated_request};
ghost use Rattle.aom_semantics.specs.Places.{Request};
ghost use Rattle.aom_semantics.specs.State.{State, FitsWord};
ghost use Rattle.aom_semantics.specs.World.{Kills};
ghost use Rattle.std.specs.Prelude.{◌≡◌, ◌<◌, ◌+◌, ◌^◌, ◌&&◌, ◌||◌, ◌++◌, ◌∷◌, [], ℕ, IfSome, IsTrue, Bool, Option, false, length, suc, true};

use crate::wanted;
use aom_cells::CellId;
use aom_linker::Linked;
use aom_machine_instructions::TERMINATED;
use aom_machine_state::{LineBuffer, Parts};
use aom_transcript::Line;

/// Whether the native serves a cell that has a request outstanding, or a session.
fn is_engaged(parts: &Parts, id: CellId, native: usize, linked: &Linked) -> bool
    requires lives { (asked : ℕ → Option Request) × (queues : ℕ → Option Bool) × Asks_for parts.now.active asked queues × ((is_owed (asked id) || is_open parts.now.sessions id) ≡ true → Lives parts.now.cells id) }
    requires small { IfSome (class_at parts.now.cells id) (λ class. class < 256) }
    ensures { (asked : ℕ → Option Request) (queues : ℕ → Option Bool) → Asks_for parts.now.active asked queues → result ≡ ((is_owed (asked id) || is_open parts.now.sessions id) && serves_class linked.now native (class_at parts.now.cells id)) }
{
    if !parts.active.is_pending(id) && !parts.sessions.is_open(id) {
        return false;
    }
    match wanted::serving(parts, id.number(), linked) {
        Some(serving) => serving == native,
        None => false,
    }
}

/// What a cell has outstanding is completed as its native is killed, and its session is over.
fn fail_requests(parts: &mut Parts, id: CellId)
    requires { (asked : ℕ → Option Request) × (queues : ℕ → Option Bool) × Asks_for parts.old.active asked queues × (is_unanswered (asked id) ≡ false) }
    ensures requests { (asked : ℕ → Option Request) (queues : ℕ → Option Bool) → Asks_for parts.old.active asked queues → Asks_for parts.new.active (asked_anew id (terminated_request (asked id)) asked) queues }
    ensures numbers { parts.new.active.table.limit ≡ parts.old.active.table.limit }
    ensures sessions { Sets parts.old.sessions parts.new.sessions id false }
    ensures rest { parts.new ≡ record parts.old { active = parts.new.active; sessions = parts.new.sessions } }
{
    if parts.active.is_pending(id) {
        parts.active.complete(id, TERMINATED);
    }
    parts.sessions.close(id);
}

/// So is each cell that the native serves.
fn fail_all_requests(parts: &mut Parts, native: usize, linked: &Linked)
    requires { Stands (record { image = linked.now; parts = parts.old }) }
    ensures { Detaches linked.now native parts.old parts.new }
{
    for number in 0..parts.cells.limit() {
        let id = CellId::new(number as u32);
        if is_engaged(parts, id, native, linked) {
            fail_requests(parts, id);
        }
    }
}

/// A native is killed, with its line: what is outstanding there is completed, and sessions with it are over.
pub fn kill(parts: &mut Parts, native: u8, linked: &Linked, lines: &mut LineBuffer)
    requires stands { Stands (record { image = linked.now; parts = parts.old }) }
    requires between { progress_by parts.old.rest.ended parts.old.stack.tasks ≡ Turned }
    requires few { parts.old.rest.delivered + 1 < 2 ^ 64 }
    requires lives { is_killed parts.old.sessions native ≡ false }
    requires room { length lines.old.lines < lines.old.room }
    ensures killed { (s : State) → Refines (record { image = linked.now; parts = parts.old }) s → Takes (record { image = linked.now; parts = parts.old }) s (Kills native) lines.old lines.new (record { image = linked.now; parts = parts.new }) }
    ensures rest { parts.new.rest ≡ record parts.old.rest { delivered = suc parts.old.rest.delivered } }
    ensures ended { parts.new.sessions.killed ≡ parts.old.sessions.killed ++ native ∷ [] }
    ensures timers { parts.new.active.pending.timers ≡ parts.old.active.pending.timers }
{
    fail_all_requests(parts, native as usize, linked);
    parts.sessions.kill(native);
    parts.rest.deliver();
    lines.push(Line::Killed(native));
}

/// A native is polled: it completes the request of the cell of that number with a code, or nothing.
pub fn polled(parts: &mut Parts, native: usize, completion: Option<(u32, i32)>)
    requires few { native + 1 < 2 ^ 64 }
    requires pending { IfSome completion (λ x. Lives parts.old.cells x.0 × IsTrue (is_pending (request_at parts.old.active.table x.0))) }
    ensures finishes { Finishes completion parts.old.active parts.new.active }
    ensures word { IfSome completion (λ x. FitsWord x.1) }
    ensures rest { parts.new ≡ record parts.old { active = parts.new.active; rest = record parts.old.rest { polled = suc native } } }
{
    if let Some((number, code)) = completion {
        let id = parts.cells.living(number);
        parts.active.complete(id, code);
    }
    parts.rest.poll(native);
}
