//! A run, from a fresh machine to its end, with its transcript.
ghost use Rattle.std.specs.Prelude.{ℕ, true, ◌≡◌, ◌+◌, ◌<◌, ◌≤◌, [], All, take, IfNone, IfOk, IfSome};
ghost use Rattle.aom_semantics.specs.Places.{count_cells};
ghost use Rattle.aom_semantics.specs.State.{State};
ghost use Rattle.aom_determinism.specs.Determined.{IsDetermined};
ghost use Rattle.aom_transcript.specs.Text.{ended, end_text, line_text};
ghost use Rattle.aom_machine_state.specs.LineBuffer.{step_lines};
ghost use Rattle.aom_run.specs.Outcomes.{outcome_of};
ghost use Rattle.aom_run.specs.Turns.{observing};
ghost use Rattle.aom_transcript.specs.Naming.{named_by};
ghost use Rattle.aom_run.specs.Runs.{IsFresh, Ran, Ended, CutShort};
ghost use Rattle.aom_transcript.specs.Sinks.{after};
ghost use Rattle.aom_script.specs.Script.{IsTimely};
ghost use Rattle.aom_run.specs.Calls.{EventInRange, RefinesWithNatives, natives_of};
ghost use Rattle.aom_natives.specs.Slots.{AllAgree};

use crate::dispatches::run_dispatch;
use crate::turns::take_turns;
use crate::{HostedMachine, Outcome};
use aom_budget::Accepted;
use aom_machine::Progress;
use aom_machine_state::LineBuffer;
use aom_natives::Native;
use aom_script::Script;
use aom_transcript::{Ending, Page, Sink, TimedEvent, write_text};
use std::alloc::{AllocError, Global};

/// The buffer for the lines of a run of an accepted image, with the requests that a script refuses.
pub fn line_buffer(
    alloc: Global,
    accepted: &Accepted,
    script: &Script,
) -> Result<LineBuffer, AllocError>
    ensures lines { IfOk result (λ b. b.lines ≡ []) }
    ensures refused { IfOk result (λ b. b.refused ≡ script.now.refused) }
    ensures room { IfOk result (λ b. b.room ≡ 64 + step_lines accepted.now.header.messages) }
{
    let refused = Vec::from_slice(alloc, script.refused())?;
    LineBuffer::new(alloc, accepted.linked(), refused)
}

/// Runs a fresh machine to its end and writes the transcript, one step after another. It stops where the sink fails.
/// No other run of its image that hears the same of natives has another transcript.
///
/// The run ends after `limit` dispatches of objects, from 1 to 10^9. It hears the script's events, each at its time, and polls each living
/// native once in each turn.
pub fn run<W: Sink>(
    machine: &mut HostedMachine,
    script: &Script,
    lines: &mut LineBuffer,
    limit: u32,
    out: &mut W,
) -> Outcome
    requires agree { AllAgree (λ l. l.ids) (λ l. (⟦<dyn Native as Native>⟧ l.native.vtable).owed l.native.value) machine.old.natives.slots.items }
    requires fresh { IsFresh machine.old }
    requires room { 64 + step_lines machine.old.core.image.header.messages ≤ lines.old.room }
    requires limit { (1 ≤ limit) × (limit ≤ 1000000000) }
    requires timely { IsTimely script.now.timed }
    ensures agree { AllAgree (λ l. l.ids) (λ l. (⟦<dyn Native as Native>⟧ l.native.vtable).owed l.native.value) machine.new.natives.slots.items }
    ensures image { machine.new.core.image ≡ machine.old.core.image }
    ensures ran { Ran line_text machine.old (observing lines.old.refused limit (natives_of machine.old) script.now.timed) result (W.failed out.new) (W.out out.old) (W.out out.new) machine.new }
    ensures determined { IsDetermined machine.old.core.image (observing lines.old.refused limit (natives_of machine.old) script.now.timed) }
{
    run_named(machine, script, lines, limit, None, out)
}

/// Runs a machine as `run` does, and writes its classes by these names, of which the first is that of class 0. A class without a name, or
/// with one that is longer than a name may be, is written by its number.
pub fn run_named<W: Sink>(
    machine: &mut HostedMachine,
    script: &Script,
    lines: &mut LineBuffer,
    limit: u32,
    names: Option<&[&[u8]]>,
    out: &mut W,
) -> Outcome
    requires agree { AllAgree (λ l. l.ids) (λ l. (⟦<dyn Native as Native>⟧ l.native.vtable).owed l.native.value) machine.old.natives.slots.items }
    requires fresh { IsFresh machine.old }
    requires room { 64 + step_lines machine.old.core.image.header.messages ≤ lines.old.room }
    requires limit { (1 ≤ limit) × (limit ≤ 1000000000) }
    requires timely { IsTimely script.now.timed }
    ensures agree { AllAgree (λ l. l.ids) (λ l. (⟦<dyn Native as Native>⟧ l.native.vtable).owed l.native.value) machine.new.natives.slots.items }
    ensures image { machine.new.core.image ≡ machine.old.core.image }
    ensures ran { Ran (named_by names.entry) machine.old (observing lines.old.refused limit (natives_of machine.old) script.now.timed) result (W.failed out.new) (W.out out.old) (W.out out.new) machine.new }
    ensures determined { IsDetermined machine.old.core.image (observing lines.old.refused limit (natives_of machine.old) script.now.timed) }
{
    aom_determinism::text_is_determined();
    match run_lines(machine, script.events(), lines, limit, names, out) {
        None => Outcome::WriteFault,
        Some(ending) => finish(machine, ending, out),
    }
}

/// Runs a fresh machine to its end and writes its lines, or gives up where the sink fails.
fn run_lines<W: Sink>(
    machine: &mut HostedMachine,
    events: &[TimedEvent],
    lines: &mut LineBuffer,
    limit: u32,
    names: Option<&[&[u8]]>,
    out: &mut W,
) -> Option<Ending>
    requires agree { AllAgree (λ l. l.ids) (λ l. (⟦<dyn Native as Native>⟧ l.native.vtable).owed l.native.value) machine.old.natives.slots.items }
    requires fresh { IsFresh machine.old }
    requires room { 64 + step_lines machine.old.core.image.header.messages ≤ lines.old.room }
    requires ranged { All (λ e. EventInRange e.event) events.now }
    ensures agree { AllAgree (λ l. l.ids) (λ l. (⟦<dyn Native as Native>⟧ l.native.vtable).owed l.native.value) machine.new.natives.slots.items }
    ensures image { machine.new.core.image ≡ machine.old.core.image }
    ensures none { IfNone result ((W.failed out.new ≡ true) × CutShort (named_by names.entry) machine.old.core.image (observing lines.old.refused limit (natives_of machine.old) events.now) (W.out out.old) (W.out out.new)) }
    ensures some { IfSome result (λ ending. Ended (named_by names.entry) machine.old.core.image (observing lines.old.refused limit (natives_of machine.old) events.now) ending (W.out out.old) (W.out out.new) machine.new) }
{
    lines.clear();
    let mut page = Page::new();
    let mut progress = run_dispatch(machine, lines, &mut page, names, out)?;
    loop {
        if let Progress::Ended(ending) = progress {
            return Some(ending);
        }
        if let Some(ending) = take_turns(machine, events, lines, limit) {
            return Some(ending);
        }
        progress = run_dispatch(machine, lines, &mut page, names, out)?;
    }
}

/// Writes the last line.
fn finish<W: Sink>(machine: &HostedMachine, ending: Ending, out: &mut W) -> Outcome
    ensures fault { result ≡ Outcome.WriteFault → W.failed out.new ≡ true }
    ensures outcome { (result ≡ Outcome.WriteFault → ⊥) → result ≡ outcome_of ending }
    ensures prefix { (s : State) → RefinesWithNatives machine.now s → (n : ℕ) × (W.out out.new ≡ after (W.out out.old) (take n (ended (end_text ending (count_cells s.cells))))) }
    ensures whole { (result ≡ Outcome.WriteFault → ⊥) → (s : State) → RefinesWithNatives machine.now s → W.out out.new ≡ after (W.out out.old) (ended (end_text ending (count_cells s.cells))) }
{
    let mut page = Page::new();
    page.add_end(ending, machine.core.count());
    write_text(out, page.as_bytes());
    if out.has_failed() {
        return Outcome::WriteFault;
    }
    Outcome::of(ending)
}
