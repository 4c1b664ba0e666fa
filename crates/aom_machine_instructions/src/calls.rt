//! Calls, returns, and `stop`.
ghost use Rattle.aom_machine_instructions.specs.Ends.{observed, reported_by};
ghost use Rattle.aom_machine_instructions.specs.Going.{ending_here};
ghost use Rattle.aom_frames.specs.Items.{IsMarked};
ghost use Rattle.aom_machine_state.specs.Places.{IsTrapped, with_tasks, next, set_register};
ghost use Rattle.aom_machine_state.specs.Room.{ReturnsTo};
ghost use Rattle.aom_machine_instructions.specs.Requests.{EndsCancel, IsCancelled, IsOver};
ghost use Rattle.aom_machine_state.specs.Fields.{this, ThisLives};
ghost use Rattle.aom_frames.specs.declared.task.Task.TheVariants.{Dispatched};
ghost use Rattle.aom_frames.specs.Tasks.{TopFrameIs, begun, below_first, fresh, method_here, place_here, with_view};
ghost use Rattle.std.specs.Prelude.{ℕ, suc, List, ◌<◌, ◌≤◌, ◌+◌, ◌^◌, ◌∷◌, ◌≡◌, ◌≢◌, IfSome, IsSome, Some, length, true};
ghost use Rattle.aom_image.specs.Image.{Image};
ghost use Rattle.aom_image.specs.Views.{gives_of, instr_at, method_at, method_class};
ghost use Rattle.aom_instructions.specs.declared.instr.Instr.TheVariants.{Call, Return, Stop, Trap};
ghost use Rattle.aom_semantics.specs.Calls.{callee_in, result_register};
ghost use Rattle.aom_machine_instructions.specs.Acts.{Does, DoesIn, resulted};
ghost use Rattle.aom_machine_instructions.specs.Calls.{body_on, callee_here, is_this, target_here, view_on};
ghost use Rattle.aom_cells.specs.Heap.{Lives, class_at, null};
ghost use Rattle.aom_machine_instructions.specs.Next.{IsNext};

use crate::requests::counted;
use crate::{going, servers};
use aom_cells::NULL;
use aom_frames::{Callee, Dispatch, Item, Task, TaskKind, View};
use aom_image::{ClassNumber, Gives, Instr, MethodNumber, Register, Role, Target};
use aom_linker::Linked;
use aom_machine_state::Parts;

/// The register to which the result of a call comes.
pub fn result_of(instr: Instr) -> u8
    ensures value { result ≡ result_register (Some instr) }
    ensures in_range { result < 16 }
{
    match instr {
        Instr::Call(_, _, _, to) | Instr::Trap(_, _, _, to) => to.number(),
        _ => 0,
    }
}

/// The method that an instruction calls, with a trap or without.
pub fn callee_of(instr: Instr) -> Option<MethodNumber>
    ensures { result ≡ callee_in (Some instr) }
{
    match instr {
        Instr::Call(_, method, _, _) | Instr::Trap(_, method, _, _) => Some(method),
        _ => None,
    }
}

/// The answer that a method gives, by the number in the register that it returns.
fn answer_of(gives: Gives, number: u32) -> i32
    ensures { result ≡ reported_by gives number }
{
    match gives {
        Gives::Word => number.cast_signed(),
        _ => 0,
    }
}

/// What a method that is called works on: the number of a cell, or null.
fn target_of(parts: &Parts, target: Target, class: Option<ClassNumber>) -> u32
    requires runs { TopFrameIs parts.now.stack.tasks }
    requires receiver_held { ThisLives parts.now }
    ensures { result ≡ target_here target class parts.now }
{
    match target {
        Target::This => match class {
            None => NULL,
            Some(_) => parts.stack.this(),
        },
        Target::Register(register) => parts.register(register),
        Target::Field(field) => parts.field(field),
        Target::Entry(depth) => match parts.entries.entry(depth.number() as usize) {
            Some(Item::Object(number)) => number,
            _ => NULL,
        },
    }
}

/// What a call of a method runs on that cell, by the table; on none the method itself.
fn body_on(
    parts: &Parts,
    this: u32,
    view: View,
    method: MethodNumber,
    linked: &Linked,
) -> MethodNumber
    requires there { IsSome (method_at linked.now method) }
    requires lives { this ≢ null → Lives parts.now.cells this }
    requires small { IfSome (class_at parts.now.cells this) (λ class. class < 256) }
    ensures { result ≡ body_on linked.now method this view parts.now.cells }
{
    if this == NULL {
        return method;
    }
    let class = parts.class(this);
    linked.body(method, counted(view, class))
}

/// As what the object of a call counts: on self as it does for the method that runs, and else as its own class.
fn view_on(parts: &Parts, on_self: bool) -> View
    requires { TopFrameIs parts.now.stack.tasks }
    ensures { result ≡ view_on on_self parts.now.stack.tasks }
{
    if on_self {
        parts.stack.view()
    } else {
        View::own()
    }
}

/// Whom a call reaches on what it names.
#[inline(always)]
fn reached(
    parts: &Parts,
    target: Target,
    method: MethodNumber,
    class: Option<ClassNumber>,
    linked: &Linked,
) -> Callee
    requires there { IsSome (method_at linked.now method) }
    requires runs { TopFrameIs parts.now.stack.tasks }
    requires receiver_held { ThisLives parts.now }
    requires lives { target_here target class parts.now ≢ null → Lives parts.now.cells (target_here target class parts.now) }
    requires small { IfSome (class_at parts.now.cells (target_here target class parts.now)) (λ class. class < 256) }
    ensures { begun result ≡ with_view (view_on (is_this target) parts.now.stack.tasks) (fresh (body_on linked.now method (target_here target class parts.now) (view_on (is_this target) parts.now.stack.tasks) parts.now.cells) (target_here target class parts.now)) }
{
    let on_self = matches!(target, Target::This);
    let this = target_of(parts, target, class);
    let view = view_on(parts, on_self);
    let method = body_on(parts, this, view, method, linked);
    Callee { method, this, view }
}

/// Whom a call reaches. A static method called on self works on nothing.
#[inline(always)]
fn callee(
    parts: &Parts,
    target: Target,
    method: MethodNumber,
    class: Option<ClassNumber>,
    linked: &Linked,
) -> Callee
    requires there { IsSome (method_at linked.now method) }
    requires class { class ≡ method_class linked.now method }
    requires runs { TopFrameIs parts.now.stack.tasks }
    requires receiver_held { ThisLives parts.now }
    requires lives { target_here target (method_class linked.now method) parts.now ≢ null → Lives parts.now.cells (target_here target (method_class linked.now method) parts.now) }
    requires small { IfSome (class_at parts.now.cells (target_here target (method_class linked.now method) parts.now)) (λ class. class < 256) }
    ensures { begun result ≡ callee_here linked.now target method parts.now }
{
    if matches!(target, Target::This) && class.is_none() {
        return Callee {
            method,
            this: NULL,
            view: View::own(),
        };
    }
    reached(parts, target, method, class, linked)
}

/// Calls a method, with its arguments from a register on.
#[inline(always)]
pub fn call(parts: &mut Parts, on: Target, method: MethodNumber, first: Register, linked: &Linked)
    requires { (to : ℕ) × IsNext linked.now (Call on method first to) parts.old }
    ensures { (refused : List ℕ) (to : ℕ) → DoesIn linked.now refused (Call on method first to) parts.old parts.new }
{
    let called = linked.method(method);
    let whom = callee(parts, on, method, called.class, linked);
    parts
        .stack
        .enter(whom, first.number(), called.arguments.as_slice());
}

/// The same under a trap, whose mark lies on the cleanup stack.
#[inline(always)]
pub fn trap(parts: &mut Parts, on: Target, method: MethodNumber, first: Register, linked: &Linked)
    requires { (to : ℕ) × IsNext linked.now (Trap on method first to) parts.old }
    ensures { (refused : List ℕ) (to : ℕ) → DoesIn linked.now refused (Trap on method first to) parts.old parts.new }
{
    let called = linked.method(method);
    let whom = callee(parts, on, method, called.class, linked);
    parts
        .stack
        .enter_trap(whom, first.number(), called.arguments.as_slice());
    parts.entries.mark();
}

/// A result comes to a register, if the method gives one.
fn take_result(parts: &mut Parts, to: u8, gives: Gives, number: u32)
    requires runs { TopFrameIs parts.old.stack.tasks }
    requires within { to < 16 }
    ensures { parts.new ≡ resulted gives to number parts.old }
{
    match gives {
        Gives::Nothing | Gives::Left(_) => {}
        Gives::Word | Gives::Own(_) | Gives::Maybe(_) => {
            parts.stack.set_register(to, number);
        }
    }
}

/// A result comes to the method that called, which goes on.
fn receive(parts: &mut Parts, gives: Gives, number: u32, linked: &Linked)
    requires runs { TopFrameIs parts.old.stack.tasks }
    requires there { IsSome (instr_at linked.now (method_here parts.old.stack.tasks) (place_here parts.old.stack.tasks)) }
    requires within { place_here parts.old.stack.tasks + 1 < 2 ^ 64 }
    ensures in_range { result_register (instr_at linked.now (method_here parts.old.stack.tasks) (place_here parts.old.stack.tasks)) < 16 }
    ensures received { parts.new ≡ next (resulted gives (result_register (instr_at linked.now (method_here parts.old.stack.tasks) (place_here parts.old.stack.tasks))) number parts.old) }
{
    let to = result_of(*parts.fetch(linked));
    take_result(parts, to, gives, number);
    parts.next();
}

/// The same through its trap, with 0 for the code in the next register.
#[inline]
fn receive_trapped(parts: &mut Parts, gives: Gives, number: u32, linked: &Linked)
    requires runs { TopFrameIs parts.old.stack.tasks }
    requires there { IsSome (instr_at linked.now (method_here parts.old.stack.tasks) (place_here parts.old.stack.tasks)) }
    requires within { place_here parts.old.stack.tasks + 1 < 2 ^ 64 }
    requires coded { suc (result_register (instr_at linked.now (method_here parts.old.stack.tasks) (place_here parts.old.stack.tasks))) < 16 }
    ensures { parts.new ≡ next (set_register (suc (result_register (instr_at linked.now (method_here parts.old.stack.tasks) (place_here parts.old.stack.tasks)))) 0 (resulted gives (result_register (instr_at linked.now (method_here parts.old.stack.tasks) (place_here parts.old.stack.tasks))) number parts.old)) }
{
    let to = result_of(*parts.fetch(linked));
    take_result(parts, to, gives, number);
    parts.stack.set_and_advance(to + 1, 0);
}

/// Where a method that cancels is over, the signal of the request is taken.
fn end_cancel(parts: &mut Parts, role: Role)
    requires { IsCancelled role parts.old }
    ensures ended { EndsCancel role parts.old.active parts.new.active (this parts.old) }
    ensures rest { parts.new ≡ record parts.old { active = parts.new.active } }
{
    if let Role::Cancel = role {
        let id = parts.cell();
        parts.active.cancelled(id);
    }
}

/// The dispatch that has asked hears the answer.
fn deliver_answer(parts: &mut Parts, dispatch: Dispatch, gives: Gives, number: u32)
    requires ending { ending_here parts.old.stack.tasks ≡ Some dispatch }
    requires room { length parts.old.stack.tasks ≤ parts.old.stack.depth }
    ensures { parts.new ≡ with_tasks (Dispatched (observed (reported_by gives number) dispatch) ∷ below_first parts.old.stack.tasks) parts.old }
{
    let Dispatch::Asks(subject) = dispatch else {
        return;
    };
    parts.drop_task();
    let answer = answer_of(gives, number);
    parts
        .stack
        .push(Task::Dispatched(Dispatch::Answered(subject, answer)));
}

/// The method that runs is over, and a cancel that it may end. What it gives.
fn end_method(parts: &mut Parts, linked: &Linked) -> Gives
    requires { (from : ℕ) × IsNext linked.now (Return from) parts.old }
    ensures gives { result ≡ gives_of linked.now (method_here parts.old.stack.tasks) }
    ensures over { IsOver linked.now parts.old parts.new.active }
    ensures rest { parts.new ≡ with_tasks (below_first parts.old.stack.tasks) (record parts.old { active = parts.new.active }) }
    ensures returns { ReturnsTo linked.now parts.new.stack.tasks }
    ensures marked { IsTrapped parts.new.stack.tasks → IsMarked parts.new.entries.items }
{
    let method = linked.method(parts.stack.method());
    let gives = method.gives;
    end_cancel(parts, method.role);
    parts.end_method();
    gives
}

/// A method returns: to the one that called it, through a trap to it or to the dispatch, to the going of its cell, to an unwinding, or to
/// the dispatch that has asked it.
#[inline(always)]
pub fn return_from(parts: &mut Parts, from: Register, linked: &Linked) -> bool
    requires { IsNext linked.now (Return from) parts.old }
    ensures does { (refused : List ℕ) → DoesIn linked.now refused (Return from) parts.old parts.new }
    ensures runs { result ≡ true → TopFrameIs parts.new.stack.tasks }
{
    let number = parts.register(from);
    let method = parts.stack.method();
    let gives = end_method(parts, linked);
    match parts.stack.top() {
        Some(TaskKind::Run) => {
            receive(parts, gives, number, linked);
            true
        }
        Some(TaskKind::Trapped) => {
            parts.drop_task();
            parts.entries.unmark();
            if parts.is_running() {
                receive_trapped(parts, gives, number, linked);
                true
            } else {
                servers::serve(parts, number);
                false
            }
        }
        Some(TaskKind::Destroy(cell)) => {
            going::continue_destruction(parts, method, cell, linked);
            false
        }
        Some(TaskKind::Unwind(_)) => false,
        Some(TaskKind::Dispatched(dispatch)) => {
            deliver_answer(parts, dispatch, gives, number);
            false
        }
        Some(TaskKind::Closing) => unreachable!(),
        None => unreachable!(),
    }
}

pub fn stop(parts: &mut Parts)
    requires { (p : Image) × IsNext p Stop parts.old }
    ensures { (refused : List ℕ) → Does refused Stop parts.old parts.new }
{
    parts.rest.stop();
    parts.next();
}
