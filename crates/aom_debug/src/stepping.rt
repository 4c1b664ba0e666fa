//! On by steps: by lines of a source where there is one, and by steps of the machine.
ghost use Rattle.std.specs.Prelude.{◌≡◌};
ghost use Rattle.aom_natives.specs.Slots.{AllAgree};
ghost use Rattle.aom_debug_stepping.specs.Runners.{IsReady, KeepsRunner};
ghost use Rattle.aom_debug.specs.Courses.{next_course, step_course};
ghost use Rattle.aom_debug.specs.Debugging.{Counts, GoesNext, MachineSteps, Steps};

use crate::Debugger;
use aom_debug_protocol::DebugFault;
use aom_debug_stepping::{Awaited, LineSteps, RunGoal, Sink};
use aom_debug_symbols::SourceNames;
use aom_natives::Native;

/// The most steps of one command.
const MAX_STEPS: u32 = 1_000_000;

/// So many steps. The lines of a method that is called count.
fn step_course<'a>(names: &SourceNames<'a>, count: u32) -> RunGoal<'a>
    ensures { result ≡ step_course names.now count }
{
    if !names.has_lines() {
        return RunGoal::Steps(count);
    }
    RunGoal::Lines(LineSteps {
        names: names.copy(),
        enters: true,
        count,
    })
}

/// Over a step, with all that it calls.
fn next_course<'a>(names: &SourceNames<'a>) -> RunGoal<'a>
    ensures { result ≡ next_course names.now }
{
    if !names.has_lines() {
        return RunGoal::Over(Awaited::Step);
    }
    RunGoal::Lines(LineSteps {
        names: names.copy(),
        enters: false,
        count: 1,
    })
}

impl<'a> Debugger<'a> {
    /// Goes on so far, if that is a number of steps.
    fn count_on<W: Sink>(
        &mut self,
        steps: u32,
        course: RunGoal,
        out: &mut W,
    ) -> Result<(), DebugFault>
        requires agree { AllAgree (λ l. l.ids) (λ l. (⟦<dyn Native as Native>⟧ l.native.vtable).owed l.native.value) self.old.runner.machine.natives.slots.items }
        requires ready { IsReady self.old.runner }
        ensures agree { AllAgree (λ l. l.ids) (λ l. (⟦<dyn Native as Native>⟧ l.native.vtable).owed l.native.value) self.new.runner.machine.natives.slots.items }
        ensures keeps { KeepsRunner self.old.runner self.new.runner }
        ensures answer { Counts course.entry steps self.old self.new (record { before = W.out out.old; now = W.out out.new; failed = W.failed out.new }) result }
    {
        if self.has_failed {
            return Err(DebugFault::Ended);
        }
        if steps == 0 || steps > MAX_STEPS {
            return Err(DebugFault::BadCommand);
        }
        self.run_until(course, out)
    }

    /// Goes on by so many steps, from 1 to 1,000,000, or to the end of the run: by lines where there is a source.
    pub fn step<W: Sink>(&mut self, steps: u32, out: &mut W) -> Result<(), DebugFault>
        requires agree { AllAgree (λ l. l.ids) (λ l. (⟦<dyn Native as Native>⟧ l.native.vtable).owed l.native.value) self.old.runner.machine.natives.slots.items }
        requires ready { IsReady self.old.runner }
        ensures agree { AllAgree (λ l. l.ids) (λ l. (⟦<dyn Native as Native>⟧ l.native.vtable).owed l.native.value) self.new.runner.machine.natives.slots.items }
        ensures keeps { KeepsRunner self.old.runner self.new.runner }
        ensures answer { Steps steps self.old self.new (record { before = W.out out.old; now = W.out out.new; failed = W.failed out.new }) result }
    {
        let course = step_course(&self.names, steps);
        self.count_on(steps, course, out)
    }

    /// Goes on by so many steps of the machine, from 1 to 1,000,000, or to the end of the run.
    pub fn machine_step<W: Sink>(&mut self, steps: u32, out: &mut W) -> Result<(), DebugFault>
        requires agree { AllAgree (λ l. l.ids) (λ l. (⟦<dyn Native as Native>⟧ l.native.vtable).owed l.native.value) self.old.runner.machine.natives.slots.items }
        requires ready { IsReady self.old.runner }
        ensures agree { AllAgree (λ l. l.ids) (λ l. (⟦<dyn Native as Native>⟧ l.native.vtable).owed l.native.value) self.new.runner.machine.natives.slots.items }
        ensures keeps { KeepsRunner self.old.runner self.new.runner }
        ensures answer { MachineSteps steps self.old self.new (record { before = W.out out.old; now = W.out out.new; failed = W.failed out.new }) result }
    {
        self.count_on(steps, RunGoal::Steps(steps), out)
    }

    /// Goes on until the line is over with all that it calls, or the machine's step where there is no source, or to the end of the run.
    pub fn next<W: Sink>(&mut self, out: &mut W) -> Result<(), DebugFault>
        requires agree { AllAgree (λ l. l.ids) (λ l. (⟦<dyn Native as Native>⟧ l.native.vtable).owed l.native.value) self.old.runner.machine.natives.slots.items }
        requires ready { IsReady self.old.runner }
        ensures agree { AllAgree (λ l. l.ids) (λ l. (⟦<dyn Native as Native>⟧ l.native.vtable).owed l.native.value) self.new.runner.machine.natives.slots.items }
        ensures keeps { KeepsRunner self.old.runner self.new.runner }
        ensures answer { GoesNext self.old self.new (record { before = W.out out.old; now = W.out out.new; failed = W.failed out.new }) result }
    {
        let course = next_course(&self.names);
        self.run_until(course, out)
    }
}
