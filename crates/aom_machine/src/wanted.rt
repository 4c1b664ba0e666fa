//! What the next step asks of a native.
ghost use Rattle.aom_cells.specs.Heap.{Lives, class_at};
ghost use Rattle.aom_machine_state.specs.Places.{IsDestroying, going_here};
ghost use Rattle.aom_machine_state.specs.Stands.{Stands, Refines};
ghost use Rattle.aom_machine.specs.Steps.{Wants, NoNativeCall};
ghost use Rattle.aom_machine.specs.NativeCall.{as_wanted, closes_open, wanted_of};
ghost use Rattle.aom_frames.specs.Tasks.{TopFrameIs};
ghost use Rattle.aom_roles.specs.Shapes.{kind_of};
ghost use Rattle.aom_semantics.specs.Natives.{native_of};
ghost use Rattle.aom_semantics.specs.State.{State};
ghost use Rattle.aom_semantics.specs.NativeCall.{wanted};
ghost use Rattle.std.specs.Prelude.{◌≡◌, ◌<◌, IfSome, Some, false, option_map, true};

use aom_cells::{CellId, NULL};
use aom_frames::TaskKind;
use aom_image::{ClassKind, Instr, Provider};
use aom_linker::Linked;
use aom_machine_state::Parts;

/// A call that is to be made on a native, for the cell of that number, before the step that hears its answer.
#[derive(Clone, Copy)]
pub enum NativeCall {
    /// A session is to be opened.
    Open {
        native: usize,
        id: u32,
    },
    /// A request is to be begun.
    Start {
        native: usize,
        id: u32,
        function: i32,
        word: i32,
    },
    /// An answer is to be given at once.
    Ask {
        native: usize,
        id: u32,
        function: i32,
        word: i32,
    },
    /// The request that is outstanding is to be cancelled.
    Cancel {
        native: usize,
        id: u32,
    },
    /// The session is to be closed.
    Close {
        native: usize,
        id: u32,
    },
}

/// The native that serves the objects of a class of that kind, if one does.
fn native_of(kind: ClassKind) -> Option<usize>
    ensures { native_of (Some kind) ≡ result }
{
    match kind {
        ClassKind::Active { provider } => match provider {
            Provider::Native(native) => Some(native.number() as usize),
            Provider::Own => None,
            Provider::Timer => None,
            Provider::Token => None,
        },
        ClassKind::Plain => None,
        ClassKind::Server { .. } => None,
        ClassKind::Session => None,
    }
}

/// The native that serves a living cell, if one does.
pub fn serving(parts: &Parts, number: u32, linked: &Linked) -> Option<usize>
    requires lives { Lives parts.now.cells number }
    requires small { IfSome (class_at parts.now.cells number) (λ class. class < 256) }
    ensures { native_of (kind_of linked.now (class_at parts.now.cells number)) ≡ result }
{
    let class = parts.class(number);
    let classes = linked.image().classes().as_slice();
    match classes.get(class.number() as usize) {
        Some(declared) => native_of(declared.kind),
        None => None,
    }
}

/// What an instruction asks of the native that serves the cell of that number, where a request is outstanding or not.
fn wanted_of(
    parts: &Parts,
    instr: Instr,
    native: usize,
    cell: CellId,
    is_owed: bool,
) -> Option<NativeCall>
    requires { TopFrameIs parts.now.stack.tasks }
    ensures { result ≡ wanted_of parts.now is_owed native cell instr }
{
    let id = cell.number();
    let is_dead = parts.sessions.is_dead(native);
    let is_open = parts.sessions.is_open(cell);
    match instr {
        Instr::Connect(_) if !is_dead && !is_open => Some(NativeCall::Open { native, id }),
        Instr::Issue(function, word) if !is_dead && is_open => Some(NativeCall::Start {
            native,
            id,
            function: parts.word(function),
            word: parts.word(word),
        }),
        Instr::Ask(_, function, word) if !is_dead && is_open => Some(NativeCall::Ask {
            native,
            id,
            function: parts.word(function),
            word: parts.word(word),
        }),
        Instr::Abort if is_owed => Some(NativeCall::Cancel { native, id }),
        Instr::Close if is_open => Some(NativeCall::Close { native, id }),
        _ => None,
    }
}

/// What the instruction asks that is next.
fn wanted_here(parts: &Parts, linked: &Linked) -> Option<NativeCall>
    requires runs { TopFrameIs parts.now.stack.tasks }
    requires stands { Stands (record { image = linked.now; parts = parts.now }) }
    ensures { (s : State) → Refines (record { image = linked.now; parts = parts.now }) s → wanted linked.now s ≡ option_map as_wanted result }
{
    let number = parts.stack.this();
    if number == NULL {
        return None;
    }
    let id = parts.cells.living(number);
    match serving(parts, number, linked) {
        Some(native) => {
            let is_owed = parts.active.is_pending(id);
            wanted_of(parts, *parts.fetch(linked), native, id, is_owed)
        }
        None => None,
    }
}

/// A session that is open is to be closed.
fn closing(parts: &Parts, native: usize, cell: CellId) -> Option<NativeCall>
    ensures { result ≡ closes_open parts.now native cell }
{
    if parts.sessions.is_open(cell) {
        Some(NativeCall::Close {
            native,
            id: cell.number(),
        })
    } else {
        None
    }
}

/// What the going of the cell of that number asks, which is at hand: a session that is open is closed.
fn wanted_going(parts: &Parts, number: u32, linked: &Linked) -> Option<NativeCall>
    requires destroying { IsDestroying parts.now.stack.tasks }
    requires going { number ≡ going_here parts.now.stack.tasks }
    requires stands { Stands (record { image = linked.now; parts = parts.now }) }
    ensures { (s : State) → Refines (record { image = linked.now; parts = parts.now }) s → wanted linked.now s ≡ option_map as_wanted result }
{
    let id = parts.cells.living(number);
    match serving(parts, number, linked) {
        Some(native) => closing(parts, native, id),
        None => None,
    }
}

/// Whether the next step asks anything of a native, where the image names any.
pub fn asks(parts: &Parts, linked: &Linked, has_natives: bool) -> bool
    requires stands { Stands (record { image = linked.now; parts = parts.now }) }
    requires named { has_natives ≡ false → linked.now.header.natives ≡ 0 }
    ensures wants { result ≡ true → Wants (record { image = linked.now; parts = parts.now }) }
    ensures quiet { result ≡ false → NoNativeCall (record { image = linked.now; parts = parts.now }) }
{
    if !has_natives {
        return false;
    }
    match wanted_next(parts, linked) {
        Some(_) => true,
        None => false,
    }
}

/// What that asks of a native that is at hand.
#[inline(never)]
fn current_native_call(parts: &Parts, linked: &Linked) -> Option<NativeCall>
    requires { Stands (record { image = linked.now; parts = parts.now }) }
    ensures { (s : State) → Refines (record { image = linked.now; parts = parts.now }) s → wanted linked.now s ≡ option_map as_wanted result }
{
    match parts.stack.top() {
        Some(TaskKind::Run) => wanted_here(parts, linked),
        Some(TaskKind::Destroy(number)) => wanted_going(parts, number, linked),
        _ => None,
    }
}

/// What the next step asks of a native, if it asks anything.
#[inline(always)]
pub fn wanted_next(parts: &Parts, linked: &Linked) -> Option<NativeCall>
    requires { Stands (record { image = linked.now; parts = parts.now }) }
    ensures { (s : State) → Refines (record { image = linked.now; parts = parts.now }) s → wanted linked.now s ≡ option_map as_wanted result }
{
    if linked.image().header().natives == 0 {
        return None;
    }
    current_native_call(parts, linked)
}
