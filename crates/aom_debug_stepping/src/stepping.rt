//! A step at hand, whose lines go out.
ghost use Rattle.std.specs.Prelude.{◌≡◌, ◌<◌, ◌≤◌, ◌++◌, ◌∷◌, ◌+◌, ℕ, [], Bool, true, false, IfSome, Some, length, take};
ghost use Rattle.aom_transcript.specs.Text.{text_of};
ghost use Rattle.aom_machine.specs.Steps.{progress, rank};
ghost use Rattle.aom_machine_state.specs.declared.progress.Progress.TheVariants.{Running};
ghost use Rattle.aom_semantics.specs.State.{State};
ghost use Rattle.aom_run.specs.Calls.{Stands, RefinesWithNatives};
ghost use Rattle.aom_debug_stepping.specs.Next.{next_of, pauses, root_is_due, spot_of};
ghost use Rattle.aom_natives.specs.Slots.{AllAgree};
ghost use Rattle.aom_run.specs.Runs.{Moving};
ghost use Rattle.aom_transcript.specs.Sinks.{after};
ghost use Rattle.aom_debug_stepping.specs.Runners.{IsReady, KeepsRunner, Went};
ghost use Rattle.aom_debug_stepping.specs.Moves.{StepsOnce, DebugSteps, noted};
ghost use Rattle.aom_debug_stepping.specs.Sends.{IfSo};

use crate::{Runner, is_due, pauses, spot_at};
use aom_debug_protocol::History;
use aom_machine::Progress;
use aom_machine_state::LineBuffer;
use aom_natives::Native;
use aom_run::HostedMachine;
use aom_transcript::{Page, Sink, write_lines};

/// Sends out the lines of the buffer, and clears it. Answers whether all is out.
#[inline(always)]
pub fn send<W: Sink>(lines: &mut LineBuffer, page: &mut Page, out: &mut W) -> bool
    ensures clear { lines.new ≡ record lines.old { lines = [] } }
    ensures prefix { (n : ℕ) × (W.out out.new ≡ after (W.out out.old) (take n (text_of lines.old.lines))) }
    ensures whole { result ≡ true → W.out out.new ≡ after (W.out out.old) (text_of lines.old.lines) }
    ensures fails { result ≡ false → W.failed out.new ≡ true }
{
    // Most steps of a debugger write nothing.
    if lines.lines().is_empty() {
        return !out.has_failed();
    }
    write_lines(out, page, lines.lines());
    lines.clear();
    !out.has_failed()
}

/// One step of the machine, if it is asked for, whose lines go out.
#[inline(always)]
fn step_if<W: Sink>(asked: bool, runner: &mut Runner, out: &mut W) -> Option<Progress>
    requires agree { AllAgree (λ l. l.ids) (λ l. (⟦<dyn Native as Native>⟧ l.native.vtable).owed l.native.value) runner.old.machine.natives.slots.items }
    requires ready { IsReady runner.old }
    ensures agree { AllAgree (λ l. l.ids) (λ l. (⟦<dyn Native as Native>⟧ l.native.vtable).owed l.native.value) runner.new.machine.natives.slots.items }
    ensures keeps { KeepsRunner runner.old runner.new }
    ensures recent { runner.new.recent ≡ runner.old.recent }
    ensures went { Went (IfSo asked (StepsOnce runner.old.machine.core.image runner.old.lines.refused)) (Moving runner.old.machine.core.image runner.old.lines.refused) runner.old (W.out out.old) (W.out out.new) (W.failed out.new) result runner.new }
    ensures was { progress runner.new.machine.core ≡ Running → progress runner.old.machine.core ≡ Running }
    ensures rank { progress runner.new.machine.core ≡ Running → rank runner.new.machine.core ≤ rank runner.old.machine.core }
    ensures falls { asked ≡ true → progress runner.new.machine.core ≡ Running → rank runner.new.machine.core < rank runner.old.machine.core }
{
    if !asked {
        return Some(runner.machine.core.progress());
    }
    let progress = runner.machine.step(&mut runner.lines);
    send(&mut runner.lines, &mut runner.page, out).then_some(progress)
}

/// Notes the instruction that is next, if one is.
fn note_next(machine: &HostedMachine, recent: &mut History)
    requires { Stands machine.now }
    ensures { (s : State) → RefinesWithNatives machine.now s → recent.new ≡ noted (spot_of (next_of machine.now.core.image s)) recent.old }
{
    let parts = machine.core.parts();
    if let Some(spot) = spot_at(parts, machine.core.accepted().linked()) {
        recent.note(spot);
    }
}

/// Whether the root's destruction is due in each state that the machine stands for.
fn starts_end(machine: &HostedMachine) -> bool
    ensures { (s : State) → RefinesWithNatives machine.now s → result ≡ root_is_due machine.now.core.image s }
{
    is_due(machine.core.parts(), machine.core.accepted().linked())
}

/// Whether the machine stays at an end after which that is not due.
fn stays_there(machine: &HostedMachine) -> bool
    ensures { (s : State) → RefinesWithNatives machine.now s → result ≡ pauses machine.now.core.image s }
{
    pauses(machine.core.parts(), machine.core.accepted().linked())
}

/// One step of a debugger: an instruction, which is noted, or the going of a cell. Where the root's destruction is due it begins first.
pub fn debug_step<W: Sink>(runner: &mut Runner, out: &mut W) -> Option<Progress>
    requires agree { AllAgree (λ l. l.ids) (λ l. (⟦<dyn Native as Native>⟧ l.native.vtable).owed l.native.value) runner.old.machine.natives.slots.items }
    requires ready { IsReady runner.old }
    ensures agree { AllAgree (λ l. l.ids) (λ l. (⟦<dyn Native as Native>⟧ l.native.vtable).owed l.native.value) runner.new.machine.natives.slots.items }
    ensures keeps { KeepsRunner runner.old runner.new }
    ensures went { Went (DebugSteps runner.old.machine.core.image runner.old.lines.refused runner.old.recent runner.new.recent) (Moving runner.old.machine.core.image runner.old.lines.refused) runner.old (W.out out.old) (W.out out.new) (W.failed out.new) result runner.new }
    ensures falls { IfSome result (λ _. progress runner.new.machine.core ≡ Running → rank runner.new.machine.core < rank runner.old.machine.core) }
{
    let begins = starts_end(&runner.machine);
    step_if(begins, runner, out)?;
    note_next(&runner.machine, &mut runner.recent);
    step_if(true, runner, out)?;
    let goes_on = stays_there(&runner.machine);
    step_if(goes_on, runner, out)
}
