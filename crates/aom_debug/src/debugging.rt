//! A debugger over the bytes of files, as commands come.
ghost use Rattle.std.specs.Prelude.{ℕ, ◌≡◌, Err, IfErr, IfOk, List, Ok, Some, length, map, option_map};
ghost use Rattle.aom_natives.specs.Owed.{OweNothing};
ghost use Rattle.aom_natives.specs.Slots.{AllAgree};
ghost use Rattle.aom_semantics.specs.World.{boot_state};
ghost use Rattle.aom_run.specs.Calls.{RefinesWithNatives, natives_of};
ghost use Rattle.aom_script.specs.Script.{IsTimely, denoted};
ghost use Rattle.aom_debug.specs.Runners.{IsReady};
ghost use Rattle.aom_commands.specs.Acceptable.{IsSerialized};
ghost use Rattle.aom_commands.specs.Headline.{RefusesBoot, over};
ghost use Rattle.aom_commands.specs.declared.faults.Fault.TheVariants.{Memory};
ghost use Rattle.aom_commands.specs.declared.status.ExitStatus.TheVariants.{Done};
ghost use Rattle.aom_commands.specs.Unreported.{Unreported};
ghost use Rattle.aom_debug.specs.Answers.{DebugAnswers, DebugAnswersBy};
ghost use Rattle.aom_debug.specs.Beginning.{IsBegun};
ghost use Rattle.aom_debug.specs.SessionLoop.{reading};

use crate::session_loop::run_session;
use crate::{Debugger, Reader, Sink};
use aom_budget::Accepted;
use aom_commands::{ExitStatus, Fault, accept_bytes, report};
use aom_debug_symbols::SourceNames;
use aom_natives::Native;
use aom_run::{HostedMachine, line_buffer};
use aom_script::{Script, read_script};
use std::alloc::Global;

/// Runs an image under a script beside those natives as commands say, which come from a reader, and writes what they tell. The image is looked
/// at before the script, and the script before the natives. After so many reads that give no end it is a fault.
pub fn debug_bytes<R: Reader, W: Sink, E: Sink>(
    alloc: Global,
    image: &[u8],
    script: &[u8],
    limit: u32,
    boxes: Vec<Box<dyn Native>>,
    reader: &mut R,
    reads: u64,
    out: &mut W,
    errors: &mut E,
) -> ExitStatus
    requires owed { OweNothing (λ b. (⟦<dyn Native as Native>⟧ b.vtable).owed b.value) boxes.items }
    ensures { DebugAnswers image.now script.now limit (length boxes.items) reads (reading R.given R.ended R.failed reader.old reader.new) (over W.out W.failed out.old out.new) (over E.out E.failed errors.old errors.new) result }
{
    match try_debug(
        alloc,
        image,
        script,
        limit,
        SourceNames::none(),
        boxes,
        reader,
        reads,
        out,
    ) {
        Ok(status) => status,
        Err(fault) => report(&fault, errors),
    }
}

/// Debugs an image, tells by these names, and leaves its fault to be told.
pub fn try_debug<R: Reader, W: Sink>(
    alloc: Global,
    image: &[u8],
    script: &[u8],
    limit: u32,
    names: SourceNames,
    boxes: Vec<Box<dyn Native>>,
    reader: &mut R,
    reads: u64,
    out: &mut W,
) -> Result<ExitStatus, Fault>
    requires owed { OweNothing (λ b. (⟦<dyn Native as Native>⟧ b.vtable).owed b.value) boxes.items }
    ensures { Unreported (DebugAnswersBy names.entry image.now script.now limit (length boxes.items) reads (reading R.given R.ended R.failed reader.old reader.new) (over W.out W.failed out.old out.new)) result }
{
    match accept_bytes(alloc, image) {
        Ok(accepted) => debug_text(
            alloc, &accepted, script, limit, names, boxes, reader, reads, out,
        ),
        Err(refusal) => Err(refusal),
    }
}

/// Debugs an accepted image under the script that a text is.
fn debug_text<R: Reader, W: Sink>(
    alloc: Global,
    accepted: &Accepted,
    text: &[u8],
    limit: u32,
    names: SourceNames,
    boxes: Vec<Box<dyn Native>>,
    reader: &mut R,
    reads: u64,
    out: &mut W,
) -> Result<ExitStatus, Fault>
    requires owed { OweNothing (λ b. (⟦<dyn Native as Native>⟧ b.vtable).owed b.value) boxes.items }
    ensures { (bytes : List ℕ) → IsSerialized bytes accepted.now → Unreported (DebugAnswersBy names.entry bytes text.now limit (length boxes.items) reads (reading R.given R.ended R.failed reader.old reader.new) (over W.out W.failed out.old out.new)) result }
{
    accepted.facts();
    match read_script(alloc, text) {
        Ok(script) => debug_script(
            alloc, accepted, script, limit, names, boxes, reader, reads, out,
        ),
        Err(fault) => Err(Fault::from(fault)),
    }
}

/// Debugs an accepted image under a script.
fn debug_script<R: Reader, W: Sink>(
    alloc: Global,
    accepted: &Accepted,
    script: Script,
    limit: u32,
    names: SourceNames,
    boxes: Vec<Box<dyn Native>>,
    reader: &mut R,
    reads: u64,
    out: &mut W,
) -> Result<ExitStatus, Fault>
    requires owed { OweNothing (λ b. (⟦<dyn Native as Native>⟧ b.vtable).owed b.value) boxes.items }
    requires timely { IsTimely script.timed }
    ensures { (bytes text : List ℕ) → IsSerialized bytes accepted.now → denoted text ≡ Ok script → Unreported (DebugAnswersBy names.entry bytes text limit (length boxes.items) reads (reading R.given R.ended R.failed reader.old reader.new) (over W.out W.failed out.old out.new)) result }
{
    accepted.facts();
    match begin(alloc, accepted, script, limit, names, boxes) {
        Ok(mut debugger) => {
            let reported = run_session(&mut debugger, reader, reads, out);
            drop(debugger);
            done(reported)
        }
        Err(fault) => Err(fault),
    }
}

/// The status of a session that was held whole.
fn done(reported: Result<(), Fault>) -> Result<ExitStatus, Fault>
    ensures ok { IfOk reported (λ _. result ≡ Ok Done) }
    ensures err { IfErr reported (λ fault. result ≡ Err fault) }
{
    match reported {
        Ok(()) => Ok(ExitStatus::Done),
        Err(fault) => Err(fault),
    }
}

/// Boots a machine beside those natives, and a debugger of it. All memory is taken before anything is read or written.
fn begin<'a>(
    alloc: Global,
    accepted: &'a Accepted,
    script: Script,
    limit: u32,
    names: SourceNames<'a>,
    boxes: Vec<Box<dyn Native>>,
) -> Result<Debugger<'a>, Fault>
    requires owed { OweNothing (λ b. (⟦<dyn Native as Native>⟧ b.vtable).owed b.value) boxes.items }
    requires timely { IsTimely script.timed }
    ensures agree { IfOk result (λ d. AllAgree (λ l. l.ids) (λ l. (⟦<dyn Native as Native>⟧ l.native.vtable).owed l.native.value) d.runner.machine.natives.slots.items) }
    ensures ready { IfOk result (λ d. IsReady d.runner) }
    ensures begun { IfOk result (λ d. IsBegun names.entry accepted.now script limit (length boxes.items) d) }
    ensures boxes { IfOk result (λ d. map (option_map (λ l. l.native)) d.runner.machine.natives.slots.items ≡ map (λ b. Some b) boxes.items) }
    ensures err { IfErr result (λ fault. RefusesBoot accepted.now (length boxes.items) fault) }
{
    match HostedMachine::boot(alloc, accepted, boxes) {
        Ok(machine) => begun(alloc, accepted, machine, script, limit, names),
        Err((fault, _boxes)) => Err(Fault::from(fault)),
    }
}

/// A debugger of a machine that has booted.
fn begun<'a>(
    alloc: Global,
    accepted: &Accepted,
    machine: HostedMachine<'a>,
    script: Script,
    limit: u32,
    names: SourceNames<'a>,
) -> Result<Debugger<'a>, Fault>
    requires agree { AllAgree (λ l. l.ids) (λ l. (⟦<dyn Native as Native>⟧ l.native.vtable).owed l.native.value) machine.natives.slots.items }
    requires image { machine.core.image ≡ accepted.now }
    requires stands { RefinesWithNatives machine (boot_state accepted.now) }
    requires timely { IsTimely script.timed }
    ensures agree { IfOk result (λ d. AllAgree (λ l. l.ids) (λ l. (⟦<dyn Native as Native>⟧ l.native.vtable).owed l.native.value) d.runner.machine.natives.slots.items) }
    ensures ready { IfOk result (λ d. IsReady d.runner) }
    ensures begun { IfOk result (λ d. IsBegun names.entry accepted.now script limit (natives_of machine.entry) d) }
    ensures machine { IfOk result (λ d. d.runner.machine ≡ machine.entry) }
    ensures err { IfErr result (λ fault. fault ≡ Memory) }
{
    match line_buffer(alloc, accepted, &script) {
        Ok(lines) => match Debugger::new(alloc, machine, script, lines, limit, names) {
            Ok(debugger) => Ok(debugger),
            Err(_) => Err(Fault::Memory),
        },
        Err(_) => {
            drop(machine);
            drop(script);
            drop(names);
            Err(Fault::Memory)
        }
    }
}
