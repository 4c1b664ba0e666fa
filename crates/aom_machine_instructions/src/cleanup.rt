//! Instructions on the cleanup stack.
ghost use Rattle.std.specs.Prelude.{◌≡◌, ◌<◌, ◌+◌, ℕ, List, length, true};
ghost use Rattle.aom_frames.specs.Tasks.{TopFrameIs};
ghost use Rattle.aom_frames.specs.Items.{IsAboveMark};
ghost use Rattle.aom_image.specs.Image.{Image};
ghost use Rattle.aom_instructions.specs.declared.instr.Instr.TheVariants.{Push, PushOperation, Pop, PopOperation, PopDelete, NewOrLeave};
ghost use Rattle.aom_machine_instructions.specs.Acts.{Does, DoesIn};
ghost use Rattle.aom_machine_instructions.specs.Cleanup.{TopLives, dealt_with, operating};
ghost use Rattle.aom_machine_instructions.specs.Next.{IsNext};

use crate::going;
use crate::leaving::{self, NO_MEMORY};
use aom_cells::NULL;
use aom_frames::{Frame, Item, Task};
use aom_image::{ClassNumber, MethodNumber, Register};
use aom_linker::Linked;
use aom_machine_state::{LineBuffer, Parts};

/// An object goes from a register to the cleanup stack. Where the request is refused, the method leaves then.
#[inline(always)]
pub fn push(parts: &mut Parts, from: Register, lines: &LineBuffer) -> bool
    requires { (p : Image) × IsNext p (Push from) parts.old }
    ensures does { Does lines.now.refused (Push from) parts.old parts.new }
    ensures runs { result ≡ true → TopFrameIs parts.new.stack.tasks }
{
    let refused = parts.request(lines);
    let object = parts.register(from);
    parts.set_and_advance(from, NULL);
    parts.entries.push_object(object);
    if refused {
        leaving::leave(parts, NO_MEMORY);
        return false;
    }
    true
}

/// A method to be called on a register's word goes to the cleanup stack, in the same way.
pub fn push_operation(parts: &mut Parts, from: Register, method: MethodNumber, lines: &LineBuffer)
    requires { (p : Image) × IsNext p (PushOperation from method) parts.old }
    ensures { Does lines.now.refused (PushOperation from method) parts.old parts.new }
{
    let refused = parts.request(lines);
    let word = parts.register(from);
    parts.entries.push_operation(method, word);
    parts.next();
    if refused {
        leaving::leave(parts, NO_MEMORY);
    }
}

/// The last entry's object goes to a register.
#[inline(always)]
pub fn pop(parts: &mut Parts, to: Register)
    requires { (p : Image) × IsNext p (Pop to) parts.old }
    ensures { (refused : List ℕ) → Does refused (Pop to) parts.old parts.new }
{
    match parts.entries.pop() {
        Some(Item::Object(object)) => parts.set_and_advance(to, object),
        _ => unreachable!(),
    }
}

/// The last entry, an operation, goes and is not run.
pub fn pop_operation(parts: &mut Parts)
    requires { (p : Image) × IsNext p PopOperation parts.old }
    ensures { (refused : List ℕ) → Does refused PopOperation parts.old parts.new }
{
    let _ = parts.entries.pop();
    parts.next();
}

/// The last entry goes: an object is destroyed, and an operation is run. The method goes on after that.
#[inline(always)]
pub fn pop_delete(parts: &mut Parts, linked: &Linked)
    requires { IsNext linked.now PopDelete parts.old }
    ensures { (refused : List ℕ) → DoesIn linked.now refused PopDelete parts.old parts.new }
{
    run_cleanup_entry(parts, linked);
}

/// What is on top of the cleanup stack goes over the tasks at hand: the destruction of an object, or an operation.
#[inline(always)]
pub fn run_cleanup_entry(parts: &mut Parts, linked: &Linked)
    requires entry { IsAboveMark parts.old.entries.items }
    requires lives { TopLives parts.old }
    requires room { length parts.old.stack.tasks + 1 < parts.old.stack.depth }
    ensures { parts.new ≡ dealt_with linked.now parts.old }
{
    let Some(item) = parts.entries.pop() else {
        unreachable!();
    };
    match item {
        Item::Object(object) => going::begin(parts, object, linked),
        Item::Operation(method, word) => operate(parts, method, word),
        Item::Mark => unreachable!(),
    }
}

/// A static method is called on a word.
fn operate(parts: &mut Parts, method: MethodNumber, word: u32)
    requires room { length parts.old.stack.tasks < parts.old.stack.depth }
    ensures { parts.new ≡ operating method word parts.old }
{
    let mut frame = Frame::begin(method, NULL);
    frame.set_register(0, word);
    parts.stack.push(Task::Run(frame));
}

/// A new object comes to a register. Where the request is refused, the method leaves.
#[inline(always)]
pub fn create_or_leave(
    parts: &mut Parts,
    to: Register,
    class: ClassNumber,
    lines: &LineBuffer,
) -> bool
    requires { (p : Image) × IsNext p (NewOrLeave to class) parts.old }
    ensures does { Does lines.now.refused (NewOrLeave to class) parts.old parts.new }
    ensures runs { result ≡ true → TopFrameIs parts.new.stack.tasks }
{
    if parts.request_cell(lines) {
        leaving::leave(parts, NO_MEMORY);
        return false;
    }
    let number = parts.new_cell(class, false);
    parts.set_and_advance(to, number);
    true
}
