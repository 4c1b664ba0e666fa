//! A debugger.
ghost use Rattle.std.specs.Prelude.{◌≡◌, ◌+◌, ◌≤◌, ◌||◌, [], false, true, IfErr, IfNone, IfOk, IfSome};
ghost use Rattle.aom_debug_stepping.specs.Calls.{Stands};
ghost use Rattle.aom_debug_protocol.specs.declared.fault.DebugFault.TheVariants.{OutOfMemory};
ghost use Rattle.aom_machine_state.specs.LineBuffer.{step_lines};
ghost use Rattle.aom_script.specs.Script.{IsTimely};
ghost use Rattle.aom_natives.specs.Slots.{AllAgree};
ghost use Rattle.aom_debug_stepping.specs.Runners.{IsReady, KeepsRunner};
ghost use Rattle.aom_debug.specs.Debugging.{GivesUp, Goes, Runs, Sets, SetsAt, Shows, Turns, goes_of, has_ended};

use crate::showing::report_place;
use aom_debug_protocol::{
    Answer, Breakpoint, Breakpoints, CodeLocation, Condition, DebugFault, History,
};
use aom_debug_stepping::{Progress, RunGoal, Runner, Sink, go};
use aom_debug_symbols::SourceNames;
use aom_debug_views::report;
use aom_machine_state::LineBuffer;
use aom_natives::Native;
use aom_run::HostedMachine;
use aom_script::Script;
use aom_text::Number;
use aom_transcript::Page;
use std::alloc::Global;

/// A machine that goes on as it is told.
#[derive(Drop)]
pub struct Debugger<'a> {
    pub runner: Runner<'a>,
    /// The names and the lines by which all is told, where there are some.
    pub names: SourceNames<'a>,
    pub breakpoints: Breakpoints,
    /// Whether what was told could not be written.
    pub has_failed: bool,
}

impl<'a> Debugger<'a> {
    /// A debugger of a machine under a script, with the buffer of its lines, for at most so many dispatches after main's. It tells by these
    /// names. All the memory that any command will ever need is taken here: where there is none for it, no debugger is made.
    pub fn new(
        alloc: Global,
        machine: HostedMachine<'a>,
        script: Script,
        lines: LineBuffer,
        limit: u32,
        names: SourceNames<'a>,
    ) -> Result<Debugger<'a>, DebugFault>
        requires agree { AllAgree (λ l. l.ids) (λ l. (⟦<dyn Native as Native>⟧ l.native.vtable).owed l.native.value) machine.natives.slots.items }
        requires stands { Stands machine }
        requires timely { IsTimely script.timed }
        requires lines { (lines.lines ≡ []) × (64 + step_lines machine.core.image.header.messages ≤ lines.room) }
        ensures agree { IfOk result (λ d. AllAgree (λ l. l.ids) (λ l. (⟦<dyn Native as Native>⟧ l.native.vtable).owed l.native.value) d.runner.machine.natives.slots.items) }
        ensures ready { IfOk result (λ d. IsReady d.runner) }
        ensures machine { IfOk result (λ d. d.runner.machine ≡ machine.entry) }
        ensures given { IfOk result (λ d. (d.runner.script ≡ script) × (d.runner.lines ≡ lines) × (d.runner.limit ≡ limit)) }
        ensures marks { IfOk result (λ d. (d.breakpoints ≡ []) × (d.runner.recent ≡ []) × (d.has_failed ≡ false)) }
        ensures page { IfOk result (λ d. d.runner.page ≡ []) }
        ensures names { IfOk result (λ d. d.names ≡ names.entry) }
        ensures err { IfErr result (λ fault. fault ≡ OutOfMemory) }
    {
        match History::new(alloc) {
            Ok(recent) => {
                let page = Page::new();
                let runner = Runner {
                    machine,
                    script,
                    limit,
                    lines,
                    page,
                    recent,
                };
                Ok(Debugger {
                    runner,
                    names,
                    breakpoints: Breakpoints::new(),
                    has_failed: false,
                })
            }
            Err(_) => {
                drop(machine);
                drop(script);
                drop(lines);
                drop(names);
                Err(DebugFault::OutOfMemory)
            }
        }
    }

    /// Whether the run has ended.
    fn has_ended(&self) -> bool
        ensures { result ≡ has_ended self.now }
    {
        matches!(self.runner.machine.core.progress(), Progress::Ended(_))
    }

    /// Whether no command may go on: the run has ended, or what was told could not be written.
    fn is_done(&self) -> bool
        ensures { result ≡ (self.now.has_failed || has_ended self.now) }
    {
        self.has_failed || self.has_ended()
    }

    /// Keeps that what was told could not be written.
    pub(crate) fn kept(&mut self, reported: Result<(), DebugFault>) -> Result<(), DebugFault>
        ensures answer { result ≡ reported }
        ensures ok { IfOk reported (λ _. self.new ≡ self.old) }
        ensures err { IfErr reported (λ _. self.new ≡ record self.old { has_failed = true }) }
    {
        if reported.is_err() {
            self.has_failed = true;
        }
        reported
    }

    /// Tells where moves have led, if all that they wrote is out.
    fn arrived<W: Sink>(&mut self, went: Option<Progress>, out: &mut W) -> Result<(), DebugFault>
        requires stands { Stands self.old.runner.machine }
        ensures runner { self.new.runner ≡ self.old.runner }
        ensures none { IfNone went (GivesUp self.old self.new (record { before = W.out out.old; now = W.out out.new; failed = W.failed out.new }) result) }
        ensures failed { IfNone went (W.failed out.new ≡ W.failed out.old) }
        ensures some { IfSome went (λ _. Shows self.old self.new (record { before = W.out out.old; now = W.out out.new; failed = W.failed out.new }) result) }
    {
        match went {
            Some(_) => {
                let reported = report_place(&self.runner.machine, &self.names, out);
                self.kept(reported)
            }
            None => self.kept(Err(DebugFault::WriteFault)),
        }
    }

    /// Goes on so far, and tells where that has led.
    pub(crate) fn run_until<W: Sink>(
        &mut self,
        course: RunGoal,
        out: &mut W,
    ) -> Result<(), DebugFault>
        requires agree { AllAgree (λ l. l.ids) (λ l. (⟦<dyn Native as Native>⟧ l.native.vtable).owed l.native.value) self.old.runner.machine.natives.slots.items }
        requires ready { IsReady self.old.runner }
        ensures agree { AllAgree (λ l. l.ids) (λ l. (⟦<dyn Native as Native>⟧ l.native.vtable).owed l.native.value) self.new.runner.machine.natives.slots.items }
        ensures keeps { KeepsRunner self.old.runner self.new.runner }
        ensures answer { Goes (goes_of course.entry) self.old self.new (record { before = W.out out.old; now = W.out out.new; failed = W.failed out.new }) result }
    {
        if self.is_done() {
            return Err(DebugFault::Ended);
        }
        let went = go(&mut self.runner, course, &self.breakpoints, out);
        self.arrived(went, out)
    }

    /// Goes on to the end of the dispatch at hand, or of the next, or to the end of the run.
    pub fn turn<W: Sink>(&mut self, out: &mut W) -> Result<(), DebugFault>
        requires agree { AllAgree (λ l. l.ids) (λ l. (⟦<dyn Native as Native>⟧ l.native.vtable).owed l.native.value) self.old.runner.machine.natives.slots.items }
        requires ready { IsReady self.old.runner }
        ensures agree { AllAgree (λ l. l.ids) (λ l. (⟦<dyn Native as Native>⟧ l.native.vtable).owed l.native.value) self.new.runner.machine.natives.slots.items }
        ensures keeps { KeepsRunner self.old.runner self.new.runner }
        ensures answer { Turns self.old self.new (record { before = W.out out.old; now = W.out out.new; failed = W.failed out.new }) result }
    {
        self.run_until(RunGoal::EndOfDispatch, out)
    }

    /// Goes on until an instruction with a breakpoint is next, but for where it begins, or to the end of the run.
    pub fn go<W: Sink>(&mut self, out: &mut W) -> Result<(), DebugFault>
        requires agree { AllAgree (λ l. l.ids) (λ l. (⟦<dyn Native as Native>⟧ l.native.vtable).owed l.native.value) self.old.runner.machine.natives.slots.items }
        requires ready { IsReady self.old.runner }
        ensures agree { AllAgree (λ l. l.ids) (λ l. (⟦<dyn Native as Native>⟧ l.native.vtable).owed l.native.value) self.new.runner.machine.natives.slots.items }
        ensures keeps { KeepsRunner self.old.runner self.new.runner }
        ensures answer { Runs self.old self.new (record { before = W.out out.old; now = W.out out.new; failed = W.failed out.new }) result }
    {
        self.run_until(RunGoal::Breakpoint, out)
    }

    /// Sets a breakpoint at the place that two numbers name, with a condition. One that is set there already takes that on.
    pub fn break_at<W: Sink>(
        &mut self,
        method: Number,
        place: Number,
        condition: Condition,
        out: &mut W,
    ) -> Result<(), DebugFault>
        requires agree { AllAgree (λ l. l.ids) (λ l. (⟦<dyn Native as Native>⟧ l.native.vtable).owed l.native.value) self.old.runner.machine.natives.slots.items }
        requires ready { IsReady self.old.runner }
        ensures agree { AllAgree (λ l. l.ids) (λ l. (⟦<dyn Native as Native>⟧ l.native.vtable).owed l.native.value) self.new.runner.machine.natives.slots.items }
        ensures keeps { KeepsRunner self.old.runner self.new.runner }
        ensures answer { Sets method place condition self.old self.new (record { before = W.out out.old; now = W.out out.new; failed = W.failed out.new }) result }
    {
        let spot = self.spot(method, place)?;
        self.set(spot, condition, out)
    }

    /// Sets a breakpoint.
    fn set<W: Sink>(
        &mut self,
        spot: CodeLocation,
        condition: Condition,
        out: &mut W,
    ) -> Result<(), DebugFault>
        ensures { SetsAt condition spot self.old self.new (record { before = W.out out.old; now = W.out out.new; failed = W.failed out.new }) result }
    {
        if !self.breakpoints.set(Breakpoint { spot, condition }) {
            return Err(DebugFault::NoSuch);
        }
        let reported = report(Answer::Done, out);
        self.kept(reported)
    }
}
