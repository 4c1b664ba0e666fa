//! Instructions on the request of the active object whose method runs.
ghost use Rattle.aom_semantics.specs.Requests.{due_after};
ghost use Rattle.std.specs.Prelude.{◌≡◌, ◌<◌, ◌+◌, ◌^◌, ℕ, IfSome, List, Some, cond, true};
ghost use Rattle.aom_cells.specs.Heap.{class_at};
ghost use Rattle.aom_link_conditions.specs.Roles.{or_else};
ghost use Rattle.aom_frames.specs.Tasks.{TopFrameIs, place_here};
ghost use Rattle.aom_frames.specs.Views.{class_above};
ghost use Rattle.aom_image.specs.Image.{Image};
ghost use Rattle.aom_instructions.specs.declared.instr.Instr.TheVariants.{Abort, Cancel, Enlist, Issue, JumpActive, JumpAdded, SetActive, Status};
ghost use Rattle.aom_roles.specs.Kinds.{is_active_kind};
ghost use Rattle.aom_machine_instructions.specs.Acts.{Does, DoesIn};
ghost use Rattle.aom_machine_state.specs.Agrees.{observed_by};
ghost use Rattle.aom_machine_state.specs.Places.{next, to_place};
ghost use Rattle.aom_machine_state.specs.Fields.{this};
ghost use Rattle.aom_machine_instructions.specs.Next.{IsNext};
ghost use Rattle.aom_machine_instructions.specs.Requests.{Issues, kind_here, provider_of};
ghost use Rattle.aom_scheduler.specs.Requests.{state_at, status_at};
ghost use Rattle.aom_scheduler.specs.declared.request.RequestState.{RequestState};
ghost use Rattle.aom_semantics.specs.Words.{word_or_zero};

use crate::{going, natives};
use aom_cells::CellId;
use aom_frames::{Frame, Task, View};
use aom_image::{ClassKind, ClassNumber, InstrPlace, Provider, Register, Role};
use aom_linker::Linked;
use aom_machine_state::Parts;

/// A time so long after another, where a negative interval is none. Times stay at their greatest value.
fn due_after(clock: u64, interval: i32) -> u64
    ensures { result ≡ due_after clock interval }
{
    clock.saturating_add(interval.max(0) as u64)
}

/// The method goes on at that place where a test holds, and else at its next one.
fn jump_if(parts: &mut Parts, holds: bool, place: InstrPlace)
    requires runs { TopFrameIs parts.old.stack.tasks }
    requires within { place_here parts.old.stack.tasks + 1 < 2 ^ 64 }
    ensures { parts.new ≡ cond holds (to_place place parts.old) (next parts.old) }
{
    if holds {
        parts.stack.set_place(place.number() as usize);
    } else {
        parts.next();
    }
}

pub fn jump_active(parts: &mut Parts, place: InstrPlace)
    requires { (p : Image) × IsNext p (JumpActive place) parts.old }
    ensures { (refused : List ℕ) → Does refused (JumpActive place) parts.old parts.new }
{
    let busy = parts.active.is_busy(parts.cell());
    jump_if(parts, busy, place);
}

pub fn jump_added(parts: &mut Parts, place: InstrPlace)
    requires { (p : Image) × IsNext p (JumpAdded place) parts.old }
    ensures { (refused : List ℕ) → Does refused (JumpAdded place) parts.old parts.new }
{
    let added = parts.active.is_enlisted(parts.cell());
    jump_if(parts, added, place);
}

/// The status of an object's last request, and 0 where there was none.
fn last_status(parts: &Parts, id: CellId) -> i32
    ensures { result ≡ word_or_zero (status_at parts.now.active.table id) }
{
    if parts.active.state(id).is_some() {
        parts.active.status(id)
    } else {
        0
    }
}

pub fn status(parts: &mut Parts, to: Register)
    requires { (p : Image) × IsNext p (Status to) parts.old }
    ensures { (refused : List ℕ) → Does refused (Status to) parts.old parts.new }
{
    let status = last_status(parts, parts.cell());
    parts.write_word(to, status);
}

pub fn enlist(parts: &mut Parts, priority: i32, linked: &Linked)
    requires { IsNext linked.now (Enlist priority) parts.old }
    ensures { (refused : List ℕ) → DoesIn linked.now refused (Enlist priority) parts.old parts.new }
{
    // Of a living cell the number is below the limit, so there is a place for its request.
    let id = parts.cells.living(parts.stack.this());
    let class = parts.class(id.number());
    if going::is_server(class, linked) {
        parts.active.enlist_server(id, priority);
        parts.listed.push_last(class.number(), id.number() as u16);
    } else {
        parts.active.enlist(id, priority);
    }
    parts.next();
}

/// What the method's object makes its requests of.
pub fn provider(parts: &Parts, linked: &Linked) -> Provider
    requires runs { TopFrameIs parts.now.stack.tasks }
    requires small { IfSome (class_at parts.now.cells (this parts.now)) (λ class. class < 256) }
    requires active { is_active_kind (kind_here linked.now parts.now) ≡ true }
    ensures { provider_of (kind_here linked.now parts.now) ≡ Some result }
{
    let class = linked.class(parts.class(parts.stack.this()));
    match class.kind {
        ClassKind::Active { provider } => provider,
        _ => unreachable!(),
    }
}

/// A request is made: one's own is completed at once with that code, a timer's once that interval is over, and a native's as it answers.
fn make_request(parts: &mut Parts, id: CellId, provider: Provider, word: i32)
    requires idle { state_at parts.old.active.table id ≡ Some RequestState.Idle }
    ensures made { Issues provider parts.old.sessions (observed_by parts.old) parts.old.rest.clock word parts.old.active parts.new.active id }
    ensures rest { parts.new ≡ record parts.old { active = parts.new.active } }
{
    match provider {
        // No request is made so where tokens complete them: it is handed out.
        Provider::Own | Provider::Token => parts.active.issue_own(id, word),
        Provider::Timer => {
            let due = due_after(parts.rest.clock(), word);
            parts.active.issue_timer(id, due);
        }
        Provider::Native(native) => natives::start(parts, id, native.number() as usize),
    }
}

pub fn issue(parts: &mut Parts, from: Register, linked: &Linked)
    requires { (other : ℕ) × IsNext linked.now (Issue from other) parts.old }
    ensures { (refused : List ℕ) (other : ℕ) → DoesIn linked.now refused (Issue from other) parts.old parts.new }
{
    let id = parts.cell();
    let word = parts.word(from);
    let provider = provider(parts, linked);
    make_request(parts, id, provider, word);
    parts.next();
}

pub fn set_active(parts: &mut Parts)
    requires { (p : Image) × IsNext p SetActive parts.old }
    ensures { (refused : List ℕ) → Does refused SetActive parts.old parts.new }
{
    let id = parts.cell();
    parts.active.set_active(id);
    parts.next();
}

/// The class as which an object of that class counts.
pub fn counted(view: View, class: ClassNumber) -> ClassNumber
    ensures { Some result ≡ or_else (class_above view) (Some class) }
{
    match view.class() {
        Some(above) => above,
        None => class,
    }
}

/// Where the object waits for its request, the method that cancels it is called.
pub fn cancel(parts: &mut Parts, linked: &Linked)
    requires { IsNext linked.now Cancel parts.old }
    ensures { (refused : List ℕ) → DoesIn linked.now refused Cancel parts.old parts.new }
{
    let id = parts.cell();
    let class = parts.class(id.number());
    if !parts.active.is_active(id) {
        parts.next();
        return;
    }
    let view = parts.stack.view();
    let Some(method) = linked.role(counted(view, class), Role::Cancel) else {
        unreachable!();
    };
    parts.active.cancelling(id);
    parts.stack.push(Task::Run(Frame::begin(method, id.number()).counting_as(view)));
}

pub fn abort(parts: &mut Parts)
    requires { (p : Image) × IsNext p Abort parts.old }
    ensures { (refused : List ℕ) → Does refused Abort parts.old parts.new }
{
    let id = parts.cell();
    parts.active.abort(id);
    parts.tokens.forget(id);
    parts.next();
}
