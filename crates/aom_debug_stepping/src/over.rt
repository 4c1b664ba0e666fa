//! Until a step is over with all that it calls, or the innermost method.
ghost use Rattle.std.specs.Prelude.{◌≡◌, length, nat_le, reverse, slice_get};
ghost use Rattle.aom_image.specs.Image.{Image};
ghost use Rattle.aom_machine_state.specs.Stands.{Refines as PartsStandFor};
ghost use Rattle.aom_semantics.specs.State.{State};
ghost use Rattle.aom_run.specs.Calls.{Stands, RefinesWithNatives};
ghost use Rattle.aom_debug_stepping.specs.RunGoals.{is_next};
ghost use Rattle.aom_debug_stepping.specs.Next.{next_of, spot_of};
ghost use Rattle.aom_debug_stepping.specs.Over.{depth_of, runs_there, under_method};

use crate::spot_at;
use aom_debug_protocol::CodeLocation;
use aom_frames::Task;
use aom_machine_state::Parts;
use aom_run::HostedMachine;

/// What is to be over.
#[derive(Clone, Copy)]
pub enum Awaited {
    /// The step that is next, with all that it calls, traps or destroys.
    Step,
    /// The innermost method at hand.
    Method,
}

/// Whether a method stands over so many tasks.
fn is_method(parts: &Parts, depth: usize) -> bool
    ensures { result ≡ runs_there (slice_get (reverse parts.now.stack.tasks) depth) }
{
    matches!(parts.stack.task(depth), Some(Task::Run(_)))
}

/// How many tasks are at hand beneath the innermost method.
fn under_method(parts: &Parts) -> usize
    ensures { (p : Image) (s : State) → PartsStandFor (record { image = p; parts = parts.now }) s → result ≡ under_method s.tasks }
{
    let mut under = 0;
    for depth in 0..parts.stack.len() {
        if is_method(parts, depth) {
            under = depth;
        }
    }
    under
}

/// How many tasks may be at hand where that is over.
pub(crate) fn depth_of(machine: &HostedMachine, scope: Awaited) -> usize
    ensures { (s : State) → RefinesWithNatives machine.now s → result ≡ depth_of scope s.tasks }
{
    match scope {
        Awaited::Step => machine.core.parts().stack.len(),
        Awaited::Method => under_method(machine.core.parts()),
    }
}

/// Whether no more tasks are at hand.
pub(crate) fn is_shallower(machine: &HostedMachine, depth: usize) -> bool
    ensures { (s : State) → RefinesWithNatives machine.now s → result ≡ nat_le (length s.tasks) depth }
{
    machine.core.parts().stack.len() <= depth
}

/// Whether that instruction is next.
pub(crate) fn is_next(machine: &HostedMachine, spot: CodeLocation) -> bool
    requires { Stands machine.now }
    ensures { (s : State) → RefinesWithNatives machine.now s → result ≡ is_next spot (spot_of (next_of machine.now.core.image s)) }
{
    match spot_at(machine.core.parts(), machine.core.accepted().linked()) {
        Some(next) => next.is(spot),
        None => false,
    }
}
