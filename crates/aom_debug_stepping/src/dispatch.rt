//! How far to go in the dispatch at hand, or in the next.
ghost use Rattle.std.specs.Prelude.{◌≡◌};
ghost use Rattle.aom_machine.specs.Steps.{progress};
ghost use Rattle.aom_machine_state.specs.declared.progress.Progress.TheVariants.{Running};
ghost use Rattle.aom_natives.specs.Slots.{AllAgree};
ghost use Rattle.aom_run.specs.Runs.{Moving};
ghost use Rattle.aom_semantics.specs.World.{Reaches};
ghost use Rattle.aom_static_bounds.specs.Strongest.{IsStrongest};
ghost use Rattle.aom_typing_rules.specs.Typing.{Typing};
ghost use Rattle.aom_debug_stepping.specs.Runners.{IsReady, KeepsRunner, Went, outside_of};
ghost use Rattle.aom_debug_stepping.specs.RunGoals.{InDispatch, dispatch_goal_of};

use crate::over::depth_of;
use crate::walking::{Until, is_there, walk, walk_unless};
use crate::{Awaited, Runner, arrive};
use aom_debug_protocol::Breakpoints;
use aom_machine::Progress;
use aom_natives::Native;
use aom_transcript::Sink;

/// How far to go in a dispatch, if it does not end before.
#[derive(Drop)]
pub enum DispatchGoal<'a> {
    /// To its end.
    Whole,
    /// Until that is over, or an instruction with a breakpoint is next.
    Over(Awaited),
    /// On to a place to stay.
    To(Until<'a>),
    /// On to a place to stay, unless it begins at one.
    OnTo(Until<'a>),
}

/// So far from something at hand.
fn run_to_dispatch_goal<W: Sink>(
    runner: &mut Runner,
    stretch: &DispatchGoal,
    breakpoints: &Breakpoints,
    out: &mut W,
) -> Option<Progress>
    requires agree { AllAgree (λ l. l.ids) (λ l. (⟦<dyn Native as Native>⟧ l.native.vtable).owed l.native.value) runner.old.machine.natives.slots.items }
    requires ready { IsReady runner.old }
    requires running { progress runner.old.machine.core ≡ Running }
    ensures agree { AllAgree (λ l. l.ids) (λ l. (⟦<dyn Native as Native>⟧ l.native.vtable).owed l.native.value) runner.new.machine.natives.slots.items }
    ensures keeps { KeepsRunner runner.old runner.new }
    ensures went { (t : Typing) → IsStrongest runner.old.machine.core.image t → Went (dispatch_goal_of t runner.old.machine.core.image runner.old.lines.refused breakpoints.now stretch.now runner.old.recent runner.new.recent) (Moving runner.old.machine.core.image runner.old.lines.refused) runner.old (W.out out.old) (W.out out.new) (W.failed out.new) result runner.new }
{
    match stretch {
        DispatchGoal::Whole => walk(runner, &Until::EndOfDispatch, breakpoints, out),
        DispatchGoal::Over(scope) => {
            let depth = depth_of(&runner.machine, *scope);
            walk(runner, &Until::Depth(depth), breakpoints, out)
        }
        DispatchGoal::To(until) => walk(runner, until, breakpoints, out),
        DispatchGoal::OnTo(until) => {
            let rests = is_there(&runner.machine, until, breakpoints);
            walk_unless(rests, runner, until, breakpoints, out)
        }
    }
}

/// So far in the dispatch at hand, or in the next; where none comes the run is over.
pub fn run_in_dispatch<W: Sink>(
    runner: &mut Runner,
    stretch: &DispatchGoal,
    breakpoints: &Breakpoints,
    out: &mut W,
) -> Option<Progress>
    requires agree { AllAgree (λ l. l.ids) (λ l. (⟦<dyn Native as Native>⟧ l.native.vtable).owed l.native.value) runner.old.machine.natives.slots.items }
    requires ready { IsReady runner.old }
    ensures agree { AllAgree (λ l. l.ids) (λ l. (⟦<dyn Native as Native>⟧ l.native.vtable).owed l.native.value) runner.new.machine.natives.slots.items }
    ensures keeps { KeepsRunner runner.old runner.new }
    ensures went { (t : Typing) → IsStrongest runner.old.machine.core.image t → Went (InDispatch runner.old.machine.core.image (outside_of runner.old) (dispatch_goal_of t runner.old.machine.core.image runner.old.lines.refused breakpoints.now stretch.now) runner.old.recent runner.new.recent) (Reaches runner.old.machine.core.image (outside_of runner.old)) runner.old (W.out out.old) (W.out out.new) (W.failed out.new) result runner.new }
{
    match arrive(runner, out)? {
        Progress::Running => run_to_dispatch_goal(runner, stretch, breakpoints, out),
        other => Some(other),
    }
}
