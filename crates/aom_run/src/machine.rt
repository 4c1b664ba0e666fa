//! A machine and the natives beside it.
ghost use Rattle.std.specs.Prelude.{ℤ, ◌≡◌, ◌<◌, ◌≤◌, ◌+◌, ◌↔◌, IfErr, IfOk, map, option_map, length, Some};
ghost use Rattle.aom_machine.specs.Steps.{rank};
ghost use Rattle.aom_machine_state.specs.LineBuffer.{step_lines};
ghost use Rattle.aom_machine_state.specs.Stands.{Refines as CoreStands};
ghost use Rattle.aom_machine_state.specs.declared.progress.Progress.TheVariants.{Running};
ghost use Rattle.aom_run.specs.Answers.{KeepsUnasked, MayObserve, asked_of};
ghost use Rattle.aom_run.specs.Calls.{StaysIdle, Stands, RefinesWithNatives, SteppedOn, SteppedOnce, natives_of};
ghost use Rattle.aom_natives.specs.Owed.{OweNothing};
ghost use Rattle.aom_natives.specs.Slots.{AllAgree};
ghost use Rattle.aom_semantics.specs.State.{State};
ghost use Rattle.aom_semantics.specs.World.{boot_state};

use aom_budget::Accepted;
use aom_machine::{NativeCall, Progress};
use aom_machine_state::LineBuffer;
use aom_natives::{BootFault, Native, Natives};
use aom_transcript::Event;
use std::alloc::Global;

/// What an accepted image does, and the natives that it talks to.
#[derive(Drop)]
pub struct HostedMachine<'a> {
    pub core: aom_machine::Machine<'a>,
    pub natives: Natives,
}

impl<'a> HostedMachine<'a> {
    /// A machine at time 0, with main at hand, beside those natives, each of which owes nothing. It takes all the memory that the machine
    /// will ever have. Where it does not boot, the natives come back.
    pub fn boot(
        alloc: Global,
        accepted: &'a Accepted,
        boxes: Vec<Box<dyn Native>>,
    ) -> Result<HostedMachine<'a>, (BootFault, Vec<Box<dyn Native>>)>
        requires { OweNothing (λ b. (⟦<dyn Native as Native>⟧ b.vtable).owed b.value) boxes.items }
        ensures image { IfOk result (λ m. m.core.image ≡ accepted.now) }
        ensures stands { IfOk result (λ m. RefinesWithNatives m (boot_state accepted.now)) }
        ensures agree { IfOk result (λ m. AllAgree (λ l. l.ids) (λ l. (⟦<dyn Native as Native>⟧ l.native.vtable).owed l.native.value) m.natives.slots.items) }
        ensures boxes { IfOk result (λ m. map (option_map (λ l. l.native)) m.natives.slots.items ≡ map (λ b. Some b) boxes.items) }
        ensures few { IfErr result (λ e. (e.0 ≡ BootFault.TooFewNatives) ↔ (length boxes.items < accepted.now.header.natives)) }
        ensures back { IfErr result (λ e. e.1.items ≡ boxes.items) }
    {
        if boxes.len() < accepted.linked().image().header().natives as usize {
            return Err((BootFault::TooFewNatives, boxes));
        }
        match aom_machine::Machine::boot(alloc, accepted) {
            Ok(core) => HostedMachine::boot_with_natives(alloc, core, boxes),
            Err(_) => Err((BootFault::OutOfMemory, boxes)),
        }
    }

    /// A machine that has booted, beside those natives. It has as many as its image names.
    fn boot_with_natives(
        alloc: Global,
        core: aom_machine::Machine<'a>,
        boxes: Vec<Box<dyn Native>>,
    ) -> Result<HostedMachine<'a>, (BootFault, Vec<Box<dyn Native>>)>
        requires owed { OweNothing (λ b. (⟦<dyn Native as Native>⟧ b.vtable).owed b.value) boxes.items }
        requires stands { CoreStands core (boot_state core.image) }
        requires enough { core.image.header.natives ≤ length boxes.items }
        ensures image { IfOk result (λ m. m.core.image ≡ core.entry.image) }
        ensures stands { IfOk result (λ m. RefinesWithNatives m (boot_state core.entry.image)) }
        ensures agree { IfOk result (λ m. AllAgree (λ l. l.ids) (λ l. (⟦<dyn Native as Native>⟧ l.native.vtable).owed l.native.value) m.natives.slots.items) }
        ensures boxes { IfOk result (λ m. map (option_map (λ l. l.native)) m.natives.slots.items ≡ map (λ b. Some b) boxes.items) }
        ensures memory { IfErr result (λ e. e.0 ≡ BootFault.OutOfMemory) }
        ensures back { IfErr result (λ e. e.1.items ≡ boxes.items) }
    {
        match Natives::adopt(alloc, boxes) {
            Ok(natives) => Ok(HostedMachine { core, natives }),
            Err((_, boxes)) => {
                drop(core);
                Err((BootFault::OutOfMemory, boxes))
            }
        }
    }

    /// Steps until the buffer has many lines, nothing is at hand, or the next step asks something of a native. What the first step asks is
    /// asked of its native before.
    pub fn step_on(&mut self, lines: &mut LineBuffer) -> Progress
        requires agree { AllAgree (λ l. l.ids) (λ l. (⟦<dyn Native as Native>⟧ l.native.vtable).owed l.native.value) self.old.natives.slots.items }
        requires stands { Stands self.old }
        requires room { length lines.old.lines + step_lines self.old.core.image.header.messages < lines.old.room }
        requires many { 64 + step_lines self.old.core.image.header.messages ≤ lines.old.room }
        ensures agree { AllAgree (λ l. l.ids) (λ l. (⟦<dyn Native as Native>⟧ l.native.vtable).owed l.native.value) self.new.natives.slots.items }
        ensures image { self.new.core.image ≡ self.old.core.image }
        ensures natives { natives_of self.new ≡ natives_of self.old }
        ensures unasked { (s : State) → RefinesWithNatives self.old s → KeepsUnasked self.old.natives.slots.items (asked_of self.old.core.image s) self.new.natives.slots.items }
        ensures idle { StaysIdle self.old lines.old lines.new self.new }
        ensures steps { (s : State) → RefinesWithNatives self.old s → (observed : ℤ) × MayObserve (λ l. (⟦<dyn Native as Native>⟧ l.native.vtable).open_may l.native.value) (λ l. (⟦<dyn Native as Native>⟧ l.native.vtable).start_may l.native.value) (λ l. (⟦<dyn Native as Native>⟧ l.native.vtable).call_may l.native.value) self.old.natives.slots.items (asked_of self.old.core.image s) observed × SteppedOn self.old observed result lines.old lines.new self.new s }
        ensures falls { result ≡ Running → rank self.new.core < rank self.old.core }
    {
        self.ask();
        self.core.step_on(lines)
    }

    /// One step: an instruction, or the going of one cell, with what counts as no step after it. What it asks of a native is asked before.
    pub fn step(&mut self, lines: &mut LineBuffer) -> Progress
        requires agree { AllAgree (λ l. l.ids) (λ l. (⟦<dyn Native as Native>⟧ l.native.vtable).owed l.native.value) self.old.natives.slots.items }
        requires stands { Stands self.old }
        requires room { length lines.old.lines + step_lines self.old.core.image.header.messages < lines.old.room }
        ensures agree { AllAgree (λ l. l.ids) (λ l. (⟦<dyn Native as Native>⟧ l.native.vtable).owed l.native.value) self.new.natives.slots.items }
        ensures image { self.new.core.image ≡ self.old.core.image }
        ensures natives { natives_of self.new ≡ natives_of self.old }
        ensures unasked { (s : State) → RefinesWithNatives self.old s → KeepsUnasked self.old.natives.slots.items (asked_of self.old.core.image s) self.new.natives.slots.items }
        ensures idle { StaysIdle self.old lines.old lines.new self.new }
        ensures steps { (s : State) → RefinesWithNatives self.old s → (observed : ℤ) × MayObserve (λ l. (⟦<dyn Native as Native>⟧ l.native.vtable).open_may l.native.value) (λ l. (⟦<dyn Native as Native>⟧ l.native.vtable).start_may l.native.value) (λ l. (⟦<dyn Native as Native>⟧ l.native.vtable).call_may l.native.value) self.old.natives.slots.items (asked_of self.old.core.image s) observed × SteppedOnce self.old observed result lines.old lines.new self.new s }
        ensures falls { result ≡ Running → rank self.new.core < rank self.old.core }
    {
        self.ask();
        self.core.step(lines)
    }
}
