//! A dispatch, from where it begins until nothing is at hand, and its lines.
ghost use Rattle.std.specs.Prelude.{true, ◌≡◌, ◌<◌, IfNone, IfSome};
ghost use Rattle.aom_transcript.specs.Naming.{named_by};
ghost use Rattle.aom_run.specs.Runs.{CutOff, Filled, HasRoom, KeepsImage, Sent};
ghost use Rattle.aom_machine.specs.Steps.{rank};
ghost use Rattle.aom_run.specs.Beside.{KeepsUnnamed};
ghost use Rattle.aom_run.specs.Calls.{Stands};
ghost use Rattle.aom_natives.specs.Slots.{AllAgree};

use crate::HostedMachine;
use aom_machine::Progress;
use aom_machine_state::LineBuffer;
use aom_natives::Native;
use aom_transcript::{Page, Sink, put_lines};

/// How many lines the machine writes, at least, before they are sent out. A buffer of lines has room for them and for one step more.
const MANY_LINES: usize = 64;

/// Runs what is at hand until nothing is, and writes its lines after those of the buffer, by the names of classes where there are some, or
/// gives up where the sink fails.
pub fn run_dispatch<W: Sink>(
    machine: &mut HostedMachine,
    lines: &mut LineBuffer,
    page: &mut Page,
    names: Option<&[&[u8]]>,
    out: &mut W,
) -> Option<Progress>
    requires agree { AllAgree (λ l. l.ids) (λ l. (⟦<dyn Native as Native>⟧ l.native.vtable).owed l.native.value) machine.old.natives.slots.items }
    requires stands { Stands machine.old }
    requires room { HasRoom machine.old lines.old }
    ensures agree { AllAgree (λ l. l.ids) (λ l. (⟦<dyn Native as Native>⟧ l.native.vtable).owed l.native.value) machine.new.natives.slots.items }
    ensures kept { KeepsImage machine.old machine.new }
    ensures unnamed { KeepsUnnamed machine.old.core.image machine.old.natives.slots.items machine.new.natives.slots.items }
    ensures none { IfNone result ((W.failed out.new ≡ true) × CutOff (named_by names.entry) machine.old lines.old (W.out out.old) (W.out out.new) machine.new) }
    ensures some { IfSome result (λ progress. Sent (named_by names.entry) machine.old progress lines.old lines.new (W.out out.old) (W.out out.new) machine.new) }
{
    loop {
        let progress = fill(machine, lines);
        put_lines(out, page, names, lines.lines());
        if out.has_failed() {
            return None;
        }
        lines.clear();
        match progress {
            Progress::Running => {}
            other => return Some(other),
        }
    }
}

/// Steps on until the buffer has many lines or nothing is at hand.
fn fill(machine: &mut HostedMachine, lines: &mut LineBuffer) -> Progress
    requires agree { AllAgree (λ l. l.ids) (λ l. (⟦<dyn Native as Native>⟧ l.native.vtable).owed l.native.value) machine.old.natives.slots.items }
    requires stands { Stands machine.old }
    requires room { HasRoom machine.old lines.old }
    ensures agree { AllAgree (λ l. l.ids) (λ l. (⟦<dyn Native as Native>⟧ l.native.vtable).owed l.native.value) machine.new.natives.slots.items }
    ensures kept { KeepsImage machine.old machine.new }
    ensures unnamed { KeepsUnnamed machine.old.core.image machine.old.natives.slots.items machine.new.natives.slots.items }
    ensures steps { Filled machine.old result lines.old lines.new machine.new }
    ensures falls { result ≡ Progress.Running → rank machine.new.core < rank machine.old.core }
{
    loop {
        let progress = machine.step_on(lines);
        if lines.lines().len() >= MANY_LINES {
            return progress;
        }
        match progress {
            Progress::Running => {}
            other => return other,
        }
    }
}
