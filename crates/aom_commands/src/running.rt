//! The run of an accepted image.
ghost use Rattle.std.specs.Prelude.{◌≡◌, ◌≤◌, IfOk, IfErr, Some, length, map, option_map};
ghost use Rattle.aom_natives.specs.Owed.{OweNothing};
ghost use Rattle.aom_natives.specs.Slots.{AllAgree};
ghost use Rattle.aom_run.specs.Calls.{natives_of};
ghost use Rattle.aom_transcript.specs.Naming.{named_by};
ghost use Rattle.aom_script.specs.Script.{IsTimely};
ghost use Rattle.aom_commands.specs.Headline.{AllRunWell, HasNatives, IsFreshOf, RefusesBoot, Shows, outside_of, over};
ghost use Rattle.aom_commands.specs.declared.faults.Fault.TheVariants.{Memory};

use crate::Fault;
use aom_budget::Accepted;
use aom_natives::Native;
use aom_run::{HostedMachine, Outcome, line_buffer, run_named};
use aom_script::Script;
use aom_transcript::Sink;
use std::alloc::Global;

/// A machine that has booted beside those natives, or why it does not boot.
pub fn booted<'a>(
    alloc: Global,
    accepted: &'a Accepted,
    boxes: Vec<Box<dyn Native>>,
) -> Result<HostedMachine<'a>, Fault>
    requires owed { OweNothing (λ b. (⟦<dyn Native as Native>⟧ b.vtable).owed b.value) boxes.items }
    ensures fresh { IfOk result (λ m. IsFreshOf accepted.now m) }
    ensures agree { IfOk result (λ m. AllAgree (λ l. l.ids) (λ l. (⟦<dyn Native as Native>⟧ l.native.vtable).owed l.native.value) m.natives.slots.items) }
    ensures natives { IfOk result (λ m. natives_of m ≡ length boxes.items) }
    ensures boxes { IfOk result (λ m. map (option_map (λ l. l.native)) m.natives.slots.items ≡ map (λ b. Some b) boxes.items) }
    ensures enough { IfOk result (λ _. HasNatives accepted.now (length boxes.items)) }
    ensures err { IfErr result (λ fault. RefusesBoot accepted.now (length boxes.items) fault) }
{
    match HostedMachine::boot(alloc, accepted, boxes) {
        Ok(machine) => Ok(machine),
        Err((fault, _boxes)) => Err(Fault::from(fault)),
    }
}

/// Runs a machine that has booted to its end, and writes classes by these names, if there are some. All memory is taken before anything is written.
fn run_booted<W: Sink>(
    alloc: Global,
    accepted: &Accepted,
    machine: &mut HostedMachine,
    script: &Script,
    limit: u32,
    names: Option<&[&[u8]]>,
    out: &mut W,
) -> Result<Outcome, Fault>
    requires limit { (1 ≤ limit) × (limit ≤ 1000000000) }
    requires timely { IsTimely script.now.timed }
    requires agree { AllAgree (λ l. l.ids) (λ l. (⟦<dyn Native as Native>⟧ l.native.vtable).owed l.native.value) machine.old.natives.slots.items }
    requires fresh { IsFreshOf accepted.now machine.old }
    ensures ok { IfOk result (λ outcome. Shows (named_by names.entry) accepted.now (outside_of script.now limit (natives_of machine.old)) outcome (over W.out W.failed out.old out.new)) }
    ensures err { IfErr result (λ fault. (fault ≡ Memory) × (W.out out.new ≡ W.out out.old)) }
{
    let mut lines = line_buffer(alloc, accepted, script)?;
    Ok(run_named(machine, script, &mut lines, limit, names, out))
}

/// Boots a machine beside those natives, runs it to its end, and writes classes by these names, if there are some. All memory is taken before anything is written.
pub fn run_accepted<W: Sink>(
    alloc: Global,
    accepted: &Accepted,
    script: &Script,
    limit: u32,
    boxes: Vec<Box<dyn Native>>,
    names: Option<&[&[u8]]>,
    out: &mut W,
) -> Result<Outcome, Fault>
    requires limit { (1 ≤ limit) × (limit ≤ 1000000000) }
    requires timely { IsTimely script.now.timed }
    requires owed { OweNothing (λ b. (⟦<dyn Native as Native>⟧ b.vtable).owed b.value) boxes.items }
    ensures ok { IfOk result (λ outcome. Shows (named_by names.entry) accepted.now (outside_of script.now limit (length boxes.items)) outcome (over W.out W.failed out.old out.new)) }
    ensures enough { IfOk result (λ _. HasNatives accepted.now (length boxes.items)) }
    ensures err { IfErr result (λ fault. RefusesBoot accepted.now (length boxes.items) fault × (W.out out.new ≡ W.out out.old)) }
{
    let mut machine = booted(alloc, accepted, boxes)?;
    let outcome = run_booted(alloc, accepted, &mut machine, script, limit, names, out);
    drop(machine);
    outcome
}

/// Every run of an accepted image goes well within its declared steps, whatever is refused, and has one text.
pub fn runs_well(accepted: &Accepted)
    ensures { AllRunWell accepted.now }
{
    accepted.facts();
    aom_safety::linked_is_wired();
    aom_termination::typed_runs_well();
    aom_termination::steps_within();
    aom_determinism::text_is_determined();
}
