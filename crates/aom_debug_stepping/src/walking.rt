//! Steps one after another, as long as something is at hand.
ghost use Rattle.std.specs.Prelude.{◌≡◌, ◌≢◌, true, false};
ghost use Rattle.aom_machine.specs.Steps.{progress};
ghost use Rattle.aom_machine_state.specs.declared.progress.Progress.TheVariants.{Running};
ghost use Rattle.aom_run.specs.Calls.{Stands, RefinesWithNatives};
ghost use Rattle.aom_natives.specs.Slots.{AllAgree};
ghost use Rattle.aom_run.specs.Runs.{Moving};
ghost use Rattle.aom_semantics.specs.State.{State};
ghost use Rattle.aom_static_bounds.specs.Strongest.{IsStrongest};
ghost use Rattle.aom_typing_rules.specs.Typing.{Typing};
ghost use Rattle.aom_debug_stepping.specs.Next.{root_is_due};
ghost use Rattle.aom_debug_stepping.specs.Runners.{IsReady, KeepsRunner, Went};
ghost use Rattle.aom_debug_stepping.specs.RunGoals.{WalksThere, WalksUnless, stays_at};

use crate::breaking::is_broken;
use crate::over::{is_next, is_shallower};
use crate::source_lines::{LineScope, has_left};
use crate::watching::{Watched, has_changed};
use crate::{Runner, debug_step, is_due};
use aom_debug_protocol::{Breakpoints, CodeLocation};
use aom_machine::Progress;
use aom_natives::Native;
use aom_run::HostedMachine;
use aom_transcript::Sink;

/// Where steps end, if not before.
#[derive(Drop)]
pub enum Until<'a> {
    EndOfDispatch,
    Breakpoint,
    /// No more tasks are at hand, or an instruction with a breakpoint is next.
    Depth(usize),
    /// That instruction is next, or one with a breakpoint.
    Place(CodeLocation),
    /// What is watched has changed, or an instruction with a breakpoint is next.
    Change(Watched),
    /// An instruction is next that is no more of that line, or one with a breakpoint.
    Line(LineScope<'a>),
}

/// Whether the root's destruction is due.
fn ends_all(machine: &HostedMachine) -> bool
    ensures { (s : State) → RefinesWithNatives machine.now s → result ≡ root_is_due machine.now.core.image s }
{
    is_due(machine.core.parts(), machine.core.accepted().linked())
}

/// Whether the machine is at a place to stay.
pub fn is_there(machine: &HostedMachine, until: &Until, breakpoints: &Breakpoints) -> bool
    requires { Stands machine.now }
    ensures { (t : Typing) → IsStrongest machine.now.core.image t → (s : State) → RefinesWithNatives machine.now s → result ≡ stays_at t machine.now.core.image until.now breakpoints.now s }
{
    match until {
        Until::EndOfDispatch => ends_all(machine),
        Until::Breakpoint => is_broken(machine, breakpoints),
        Until::Depth(depth) => is_shallower(machine, *depth) || is_broken(machine, breakpoints),
        Until::Place(spot) => is_next(machine, *spot) || is_broken(machine, breakpoints),
        Until::Change(watched) => {
            has_changed(machine, watched) || is_broken(machine, breakpoints)
        }
        Until::Line(scope) => has_left(machine, scope) || is_broken(machine, breakpoints),
    }
}

/// Whether nothing is at hand.
pub fn is_idle(machine: &HostedMachine) -> bool
    ensures rests { result ≡ true → progress machine.now.core ≢ Running }
    ensures goes { result ≡ false → progress machine.now.core ≡ Running }
{
    !matches!(machine.core.progress(), Progress::Running)
}

/// Steps from something at hand until nothing is, or the machine is at a place to stay; one at least.
pub fn walk<W: Sink>(
    runner: &mut Runner,
    until: &Until,
    breakpoints: &Breakpoints,
    out: &mut W,
) -> Option<Progress>
    requires agree { AllAgree (λ l. l.ids) (λ l. (⟦<dyn Native as Native>⟧ l.native.vtable).owed l.native.value) runner.old.machine.natives.slots.items }
    requires ready { IsReady runner.old }
    requires running { progress runner.old.machine.core ≡ Running }
    ensures agree { AllAgree (λ l. l.ids) (λ l. (⟦<dyn Native as Native>⟧ l.native.vtable).owed l.native.value) runner.new.machine.natives.slots.items }
    ensures keeps { KeepsRunner runner.old runner.new }
    ensures went { (t : Typing) → IsStrongest runner.old.machine.core.image t → Went (WalksThere runner.old.machine.core.image runner.old.lines.refused (λ s. stays_at t runner.old.machine.core.image until.now breakpoints.now s) runner.old.recent runner.new.recent) (Moving runner.old.machine.core.image runner.old.lines.refused) runner.old (W.out out.old) (W.out out.new) (W.failed out.new) result runner.new }
{
    loop {
        let progress = debug_step(runner, out)?;
        match progress {
            Progress::Running => {}
            other => return Some(other),
        }
        if is_there(&runner.machine, until, breakpoints) {
            return Some(progress);
        }
    }
}

/// Such steps, unless the machine is to rest where it is.
pub fn walk_unless<W: Sink>(
    rests: bool,
    runner: &mut Runner,
    until: &Until,
    breakpoints: &Breakpoints,
    out: &mut W,
) -> Option<Progress>
    requires agree { AllAgree (λ l. l.ids) (λ l. (⟦<dyn Native as Native>⟧ l.native.vtable).owed l.native.value) runner.old.machine.natives.slots.items }
    requires ready { IsReady runner.old }
    requires running { rests ≡ false → progress runner.old.machine.core ≡ Running }
    ensures agree { AllAgree (λ l. l.ids) (λ l. (⟦<dyn Native as Native>⟧ l.native.vtable).owed l.native.value) runner.new.machine.natives.slots.items }
    ensures keeps { KeepsRunner runner.old runner.new }
    ensures went { (t : Typing) → IsStrongest runner.old.machine.core.image t → Went (WalksUnless rests runner.old.machine.core.image runner.old.lines.refused (λ s. stays_at t runner.old.machine.core.image until.now breakpoints.now s) runner.old.recent runner.new.recent) (Moving runner.old.machine.core.image runner.old.lines.refused) runner.old (W.out out.old) (W.out out.new) (W.failed out.new) result runner.new }
{
    if rests {
        return Some(runner.machine.core.progress());
    }
    walk(runner, until, breakpoints, out)
}
