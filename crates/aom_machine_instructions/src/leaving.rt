//! Leaves: the methods over the innermost trap end, what was pushed since it was set is dealt with, and the code arrives.
ghost use Rattle.aom_machine_instructions.specs.Ends.{left, left_by};
ghost use Rattle.std.specs.Prelude.{true, ◌≡◌, ◌<◌, ◌≤◌, ◌+◌, ◌^◌, ℕ, suc, List, Some, IsSome, length};
ghost use Rattle.aom_image.specs.Image.{Image};
ghost use Rattle.aom_image.specs.Views.{instr_at};
ghost use Rattle.aom_instructions.specs.declared.instr.Instr.TheVariants.{Leave, LeaveIf};
ghost use Rattle.aom_frames.specs.Items.{IsMarked};
ghost use Rattle.aom_semantics.specs.Calls.{called, result_register};
ghost use Rattle.aom_frames.specs.Tasks.{TopFrameIs, method_here, place_here, below_first};
ghost use Rattle.aom_machine_instructions.specs.Acts.{Does, leaving};
ghost use Rattle.aom_machine_instructions.specs.Cleanup.{Unwinds, lost, reported};
ghost use Rattle.aom_machine_instructions.specs.Next.{IsNext};
ghost use Rattle.aom_machine_state.specs.Places.{IsTrapped, IsUnwinding, code_here, IsEnding, with_tasks};
ghost use Rattle.aom_machine_state.specs.Room.{CalleeThere, CallsThere, ReturnsTo};
ghost use Rattle.aom_machine_instructions.specs.Moves.{Moves};
ghost use Rattle.aom_machine_state.specs.Stands.{Stands};

use crate::calls::{callee_of, result_of};
use crate::{cleanup, servers};
use aom_cells::NULL;
use aom_frames::{Dispatch, Stage, Task, TaskKind};
use aom_image::{Gives, Instr, Register};
use aom_linker::Linked;
use aom_machine_state::{LineBuffer, Parts};
use aom_transcript::Line;

/// The code of a refused request.
pub const NO_MEMORY: i32 = -4;

/// The methods over the innermost trap end, and a leave is at hand in their place.
#[inline(always)]
pub fn leave(parts: &mut Parts, code: i32)
    requires runs { TopFrameIs parts.old.stack.tasks }
    requires room { length parts.old.stack.tasks ≤ parts.old.stack.depth }
    ensures { parts.new ≡ leaving code parts.old }
{
    parts.stack.leave_to_trap();
    parts.stack.push(Task::Unwind(code));
}

/// The method leaves with a register's word.
pub fn leave_with(parts: &mut Parts, from: Register)
    requires { (p : Image) × IsNext p (Leave from) parts.old }
    ensures { (refused : List ℕ) → Does refused (Leave from) parts.old parts.new }
{
    let word = parts.word(from);
    leave(parts, word);
}

/// It leaves so where the word is negative, and goes on otherwise.
pub fn leave_if(parts: &mut Parts, from: Register) -> bool
    requires { (p : Image) × IsNext p (LeaveIf from) parts.old }
    ensures does { (refused : List ℕ) → Does refused (LeaveIf from) parts.old parts.new }
    ensures runs { result ≡ true → TopFrameIs parts.new.stack.tasks }
{
    let code = parts.word(from);
    if code < 0 {
        leave(parts, code);
        return false;
    }
    parts.next();
    true
}

/// One move of the leave that is at hand with that code: the last entry is dealt with, or the code arrives.
#[inline(always)]
pub fn unwind(parts: &mut Parts, code: i32, linked: &Linked, lines: &mut LineBuffer)
    requires unwinding { IsUnwinding parts.old.stack.tasks }
    requires coded { code ≡ code_here parts.old.stack.tasks }
    requires announced { parts.old.rest.announced ≡ true }
    requires stands { Stands (record { image = linked.now; parts = parts.old }) }
    requires room { length lines.old.lines < lines.old.room }
    ensures { Moves linked.now parts.old lines.old lines.new parts.new }
{
    if parts.entries.above_mark() {
        cleanup::run_cleanup_entry(parts, linked);
    } else {
        arrive(parts, code, linked, lines);
    }
}

/// The code arrives at its trap, with its line: at the method that set it, or at the dispatch.
fn arrive(parts: &mut Parts, code: i32, linked: &Linked, lines: &mut LineBuffer)
    requires unwinding { IsUnwinding parts.old.stack.tasks }
    requires coded { code ≡ code_here parts.old.stack.tasks }
    requires marked { IsMarked parts.old.entries.items }
    requires trapped { IsTrapped (below_first parts.old.stack.tasks) }
    requires below { ReturnsTo linked.now (below_first parts.old.stack.tasks) }
    requires calls { CallsThere linked.now (below_first (below_first parts.old.stack.tasks)) }
    requires stack { length parts.old.stack.tasks < parts.old.stack.depth }
    requires room { length lines.old.lines < lines.old.room }
    ensures { Unwinds linked.now parts.old parts.new lines.old lines.new }
{
    parts.end_other();
    parts.end_other();
    parts.entries.unmark();
    lines.push(Line::Leave(code));
    if parts.is_running() {
        receive_code(parts, code, linked);
    } else {
        leave_dispatch(parts, code);
    }
}

/// The dispatch that is at hand is left with that code.
fn leave_dispatch(parts: &mut Parts, code: i32)
    requires ending { IsEnding parts.old.stack.tasks }
    requires room { length parts.old.stack.tasks ≤ parts.old.stack.depth }
    ensures { parts.new ≡ with_tasks (left_by code parts.old.stack.tasks) parts.old }
{
    match parts.stack.top() {
        Some(TaskKind::Dispatched(dispatch)) => servers::redispatch(
            parts,
            left_with(dispatch, code),
        ),
        _ => unreachable!(),
    }
}

/// A result does not come: its register has null, or 0 for a word.
fn lose_result(parts: &mut Parts, to: u8, gives: Gives)
    requires runs { TopFrameIs parts.old.stack.tasks }
    requires within { to < 16 }
    ensures { parts.new ≡ lost gives to parts.old }
{
    match gives {
        Gives::Nothing | Gives::Left(_) => {}
        Gives::Word => parts.stack.set_register(to, 0),
        Gives::Own(_) | Gives::Maybe(_) => parts.stack.set_register(to, NULL),
    }
}

/// A method that called under a trap goes on with the code, and with null or 0 for the result.
fn receive_code(parts: &mut Parts, code: i32, linked: &Linked)
    requires runs { TopFrameIs parts.old.stack.tasks }
    requires there { IsSome (instr_at linked.now (method_here parts.old.stack.tasks) (place_here parts.old.stack.tasks)) }
    requires within { place_here parts.old.stack.tasks + 1 < 2 ^ 64 }
    requires coded { suc (result_register (instr_at linked.now (method_here parts.old.stack.tasks) (place_here parts.old.stack.tasks))) < 16 }
    requires calls { CalleeThere linked.now (instr_at linked.now (method_here parts.old.stack.tasks) (place_here parts.old.stack.tasks)) }
    ensures { parts.new ≡ reported linked.now (instr_at linked.now (method_here parts.old.stack.tasks) (place_here parts.old.stack.tasks)) code parts.old }
{
    let instr = parts.fetch(linked);
    let to = result_of(*instr);
    let gives = called_gives(*instr, linked);
    lose_result(parts, to, gives);
    parts.stack.set_and_advance(to + 1, code.cast_unsigned());
}

/// A dispatch that is left with that code.
fn left_with(dispatch: Dispatch, code: i32) -> Dispatch
    ensures { result ≡ left code dispatch }
{
    match dispatch {
        Dispatch::Main => Dispatch::MainLeft(code),
        Dispatch::Object(subject) => Dispatch::ObjectLeft(subject, code),
        Dispatch::Server(subject, client, Stage::Accepts) => Dispatch::Server(
            subject,
            client,
            Stage::AcceptLeft(code),
        ),
        Dispatch::Server(subject, client, Stage::Serves(_)) => Dispatch::Server(
            subject,
            client,
            Stage::ServiceLeft(code),
        ),
        other => other,
    }
}

/// What the method gives that an instruction calls.
fn called_gives(instr: Instr, linked: &Linked) -> Gives
    requires { CalleeThere linked.now (Some instr) }
    ensures { result ≡ called linked.now (Some instr) }
{
    match callee_of(instr) {
        Some(method) => linked.method(method).gives,
        None => Gives::Nothing,
    }
}
