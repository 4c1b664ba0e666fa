//! What is next in a machine.
ghost use Rattle.std.specs.Prelude.{◌≡◌, ◌≢◌, ◌<◌, IfSome, length};
ghost use Rattle.aom_machine_instructions.specs.Serving.{session_there};
ghost use Rattle.aom_cells.specs.Heap.{Lives, class_at};
ghost use Rattle.aom_link_conditions.specs.Roles.{role_of};
ghost use Rattle.aom_clients.specs.Clients.{first_there, sessions_at};
ghost use Rattle.aom_image.specs.declared.method.Role.TheVariants.{Destruct};
ghost use Rattle.aom_frames.specs.Tasks.{TopFrameIs, method_here, place_here};
ghost use Rattle.aom_machine_state.specs.Agrees.{number as number_of};
ghost use Rattle.aom_machine_state.specs.Places.{IsClosing, IsDestroying, going_here};
ghost use Rattle.aom_machine_state.specs.Stands.{Stands, Refines};
ghost use Rattle.aom_semantics.specs.Places.{Elsewhere, Place, Root, held};
ghost use Rattle.aom_semantics.specs.State.{State};
ghost use Rattle.aom_debug_protocol.specs.declared.answer.Answer.TheVariants.{At};
ghost use Rattle.aom_debug_stepping.specs.Next.{GoesFirst, begins_by, destroyed_under, destruction_of, next_in, next_of, spot_of};

use aom_cells::NULL;
use aom_debug_protocol::{Answer, CodeLocation};
use aom_frames::{Task, TaskKind};
use aom_image::{ClassNumber, Role};
use aom_linker::Linked;
use aom_machine_state::Parts;

/// The first step of a destruction of a cell of that class.
fn begins_by(linked: &Linked, class: ClassNumber) -> Answer
    ensures { result ≡ begins_by class (role_of linked.now class Destruct) }
{
    match linked.role(class, Role::Destruct) {
        Some(method) => Answer::At(CodeLocation {
            method: method.number(),
            place: 0,
        }),
        None => Answer::Gone(class.number()),
    }
}

/// The number of the first session with a server that is there.
fn first_session(parts: &Parts, server: u16) -> Option<u16>
    requires { server < length parts.now.clients.queues }
    ensures value { result ≡ session_there (first_there parts.now.clients (sessions_at parts.now.clients server)) parts.now.clients }
    ensures below { IfSome result (λ n. n < 65536) }
{
    let client = parts.clients.first_there(server)?;
    parts.clients.session(client)
}

/// The number of the cell that goes first as that one is destroyed.
fn first_to_go(parts: &Parts, linked: &Linked, number: u32) -> u32
    requires stands { Stands (record { image = linked.now; parts = parts.now }) }
    requires lives { Lives parts.now.cells number }
    ensures lives { Lives parts.now.cells result }
    ensures first { GoesFirst parts.now number result }
{
    match first_session(parts, number as u16) {
        Some(session) => u32::from(session),
        None => number,
    }
}

/// The first step of the destruction of that cell.
fn begins(parts: &Parts, linked: &Linked, number: u32) -> Answer
    requires stands { Stands (record { image = linked.now; parts = parts.now }) }
    requires lives { Lives parts.now.cells number }
    ensures { (s : State) → Refines (record { image = linked.now; parts = parts.now }) s → (q : Place) → number ≡ number_of (held s.cells q) → result ≡ destruction_of linked.now s.cells (held s.cells q) }
{
    let first = first_to_go(parts, linked, number);
    begins_by(linked, parts.class(first))
}

/// The first step of the root's destruction, and the end where the root owns nothing.
fn begins_root(parts: &Parts, linked: &Linked) -> Answer
    requires stands { Stands (record { image = linked.now; parts = parts.now }) }
    ensures { (s : State) → Refines (record { image = linked.now; parts = parts.now }) s → result ≡ destruction_of linked.now s.cells (held s.cells (Elsewhere Root)) }
{
    if parts.root == NULL {
        return Answer::Ended;
    }
    begins(parts, linked, parts.root)
}

/// The cell that the task right under the one on top lets go, if it is a destruction.
fn under_top(parts: &Parts) -> Option<u32>
    ensures { result ≡ destroyed_under parts.now.stack.tasks }
{
    let tasks = parts.stack.len();
    if tasks < 2 {
        return None;
    }
    match parts.stack.task(tasks - 2) {
        Some(Task::Destroy(number)) => Some(number),
        _ => None,
    }
}

/// What is next where a server lets go of its sessions.
fn closes_next(parts: &Parts, linked: &Linked) -> Answer
    requires stands { Stands (record { image = linked.now; parts = parts.now }) }
    requires closing { IsClosing parts.now.stack.tasks }
    ensures { (s : State) → Refines (record { image = linked.now; parts = parts.now }) s → result ≡ next_in linked.now s s.tasks }
{
    match under_top(parts) {
        Some(number) => begins(parts, linked, number),
        None => Answer::Ended,
    }
}

/// Where the method that runs goes on.
fn location(parts: &Parts) -> CodeLocation
    requires { TopFrameIs parts.now.stack.tasks }
    ensures { result ≡ record { method = method_here parts.now.stack.tasks; place = place_here parts.now.stack.tasks } }
{
    CodeLocation {
        method: parts.stack.method().number(),
        place: parts.stack.place(),
    }
}

/// The instruction that is next.
fn runs_next(parts: &Parts) -> Answer
    requires { TopFrameIs parts.now.stack.tasks }
    ensures { result ≡ At (record { method = method_here parts.now.stack.tasks; place = place_here parts.now.stack.tasks }) }
{
    Answer::At(location(parts))
}

/// What is next where the run is not over.
fn next_in(parts: &Parts, linked: &Linked) -> Answer
    requires stands { Stands (record { image = linked.now; parts = parts.now }) }
    ensures { (s : State) → Refines (record { image = linked.now; parts = parts.now }) s → result ≡ next_in linked.now s s.tasks }
{
    match parts.stack.top() {
        Some(TaskKind::Run) => runs_next(parts),
        Some(TaskKind::Destroy(number)) => Answer::Gone(parts.class(number).number()),
        Some(TaskKind::Closing) => closes_next(parts, linked),
        Some(_) => begins_root(parts, linked),
        None => Answer::Between(parts.rest.clock()),
    }
}

/// The step that is next, or where the run stands.
pub fn next_of(parts: &Parts, linked: &Linked) -> Answer
    requires stands { Stands (record { image = linked.now; parts = parts.now }) }
    ensures { (s : State) → Refines (record { image = linked.now; parts = parts.now }) s → result ≡ next_of linked.now s }
{
    match parts.rest.ended() {
        Some(_) => Answer::Ended,
        None => next_in(parts, linked),
    }
}

/// The instruction that an answer tells of as next.
fn spot_of(answer: Answer) -> Option<CodeLocation>
    ensures { result ≡ spot_of answer }
{
    match answer {
        Answer::At(spot) => Some(spot),
        _ => None,
    }
}

/// The instruction that is next, if one is, where the run is not over. Mostly a method runs.
#[inline(always)]
fn spot_in(parts: &Parts, linked: &Linked) -> Option<CodeLocation>
    requires stands { Stands (record { image = linked.now; parts = parts.now }) }
    ensures { (s : State) → Refines (record { image = linked.now; parts = parts.now }) s → result ≡ spot_of (next_in linked.now s s.tasks) }
{
    match parts.stack.top() {
        Some(TaskKind::Run) => Some(location(parts)),
        _ => spot_of(next_in(parts, linked)),
    }
}

/// The instruction that is next, if one is.
#[inline(always)]
pub fn spot_at(parts: &Parts, linked: &Linked) -> Option<CodeLocation>
    requires stands { Stands (record { image = linked.now; parts = parts.now }) }
    ensures { (s : State) → Refines (record { image = linked.now; parts = parts.now }) s → result ≡ spot_of (next_of linked.now s) }
{
    match parts.rest.ended() {
        Some(_) => None,
        None => spot_in(parts, linked),
    }
}
