//! Instructions at the native that serves the object whose method runs. What it answers was told before the step.
ghost use Rattle.aom_machine_instructions.specs.Acts.{Does, DoesIn};
ghost use Rattle.aom_machine_state.specs.Agrees.{observed_by};
ghost use Rattle.aom_machine_state.specs.Fields.{this};
ghost use Rattle.aom_machine_instructions.specs.Next.{IsNext};
ghost use Rattle.aom_machine_instructions.specs.Natives.{begins_with};
ghost use Rattle.aom_machine_instructions.specs.Requests.{kind_here};
ghost use Rattle.aom_active_objects.specs.Meanings.{Makes, begun_with};
ghost use Rattle.aom_cells.specs.Heap.{class_at};
ghost use Rattle.aom_frames.specs.Tasks.{TopFrameIs};
ghost use Rattle.aom_image.specs.Image.{Image};
ghost use Rattle.aom_instructions.specs.declared.instr.Instr.TheVariants.{Ask, Close, Connect};
ghost use Rattle.aom_scheduler.specs.Requests.{state_at};
ghost use Rattle.aom_scheduler.specs.declared.request.RequestState.{RequestState};
ghost use Rattle.aom_cells.specs.Sessions.{Sets, is_killed, is_open};
ghost use Rattle.aom_semantics.specs.Natives.{connected, native_of, opens, replied, started};
ghost use Rattle.std.specs.Prelude.{◌≡◌, ◌<◌, ℕ, IfSome, List, Some, length, true};
ghost use Rattle.aom_roles.specs.Kinds.{is_native_kind};

use crate::requests;
use aom_cells::CellId;
use aom_image::{Provider, Register};
use aom_linker::Linked;
use aom_machine_state::Parts;

/// There is no native to connect to, or no session: KErrNotFound.
const NOT_FOUND: i32 = -1;

/// The native is killed: KErrServerTerminated.
pub const TERMINATED: i32 = -15;

/// The native that serves the method's object.
fn native(parts: &Parts, linked: &Linked) -> usize
    requires runs { TopFrameIs parts.now.stack.tasks }
    requires small { IfSome (class_at parts.now.cells (this parts.now)) (λ class. class < 256) }
    requires native { is_native_kind (kind_here linked.now parts.now) ≡ true }
    ensures { native_of (kind_here linked.now parts.now) ≡ Some result }
{
    match requests::provider(parts, linked) {
        Provider::Native(native) => native.number() as usize,
        _ => unreachable!(),
    }
}

/// The session of a cell is open from then on, or closed.
fn set_session(parts: &mut Parts, id: CellId, is_open: bool)
    requires { id < length parts.old.sessions.flags }
    ensures set { Sets parts.old.sessions parts.new.sessions id is_open }
    ensures rest { parts.new ≡ record parts.old { sessions = parts.new.sessions } }
{
    if is_open {
        parts.sessions.open(id);
    } else {
        parts.sessions.close(id);
    }
}

/// What a method is told that connects. A session that is open is no other.
fn connected(parts: &Parts, id: CellId, is_dead: bool) -> i32
    ensures { result ≡ connected is_dead (is_open parts.now.sessions id) (observed_by parts.now) }
{
    if is_dead {
        NOT_FOUND
    } else if parts.sessions.is_open(id) || parts.observed >= 0 {
        0
    } else {
        parts.observed
    }
}

/// Whether the session is open then.
fn opens(parts: &Parts, id: CellId, is_dead: bool) -> bool
    ensures { result ≡ opens is_dead (is_open parts.now.sessions id) (observed_by parts.now) }
{
    !is_dead && (parts.sessions.is_open(id) || parts.observed >= 0)
}

pub fn connect(parts: &mut Parts, to: Register, linked: &Linked)
    requires { IsNext linked.now (Connect to) parts.old }
    ensures { (refused : List ℕ) → DoesIn linked.now refused (Connect to) parts.old parts.new }
{
    // Of a living cell the number is below the limit, so there is a place for its session.
    let id = parts.cells.living(parts.stack.this());
    let native = native(parts, linked);
    let is_dead = parts.sessions.is_dead(native);
    let answer = connected(parts, id, is_dead);
    let is_open = opens(parts, id, is_dead);
    set_session(parts, id, is_open);
    parts.write_word(to, answer);
}

/// What a method is told that asks.
fn replied(parts: &Parts, id: CellId, is_dead: bool) -> i32
    ensures { result ≡ replied is_dead (is_open parts.now.sessions id) (observed_by parts.now) }
{
    if is_dead {
        TERMINATED
    } else if parts.sessions.is_open(id) {
        parts.observed
    } else {
        NOT_FOUND
    }
}

pub fn ask_native(parts: &mut Parts, to: Register, linked: &Linked)
    requires { (function : ℕ) × (word : ℕ) × IsNext linked.now (Ask to function word) parts.old }
    ensures { (refused : List ℕ) (function word : ℕ) → DoesIn linked.now refused (Ask to function word) parts.old parts.new }
{
    let id = parts.cell();
    let native = native(parts, linked);
    let is_dead = parts.sessions.is_dead(native);
    let reply = replied(parts, id, is_dead);
    parts.write_word(to, reply);
}

pub fn close_session(parts: &mut Parts)
    requires { (p : Image) × IsNext p Close parts.old }
    ensures { (refused : List ℕ) → Does refused Close parts.old parts.new }
{
    let own = parts.cell();
    parts.sessions.close(own);
    parts.next();
}

/// The code with which a request at a native is completed as it is made, if it is.
fn declined(parts: &Parts, id: CellId, native: usize) -> Option<i32>
    ensures { begins_with result ≡ started (is_killed parts.now.sessions native) (is_open parts.now.sessions id) (observed_by parts.now) }
{
    if parts.sessions.is_dead(native) {
        Some(TERMINATED)
    } else if !parts.sessions.is_open(id) {
        Some(NOT_FOUND)
    } else if parts.observed < 0 {
        Some(parts.observed)
    } else {
        None
    }
}

/// A request is made of a native, which may decline it.
pub fn start(parts: &mut Parts, id: CellId, native: usize)
    requires idle { state_at parts.old.active.table id ≡ Some RequestState.Idle }
    ensures made { Makes parts.old.active parts.new.active id (begun_with (started (is_killed parts.old.sessions native) (is_open parts.old.sessions id) (observed_by parts.old))) }
    ensures rest { parts.new ≡ record parts.old { active = parts.new.active } }
{
    match declined(parts, id, native) {
        Some(code) => parts.active.issue_own(id, code),
        None => parts.active.issue_native(id),
    }
}
