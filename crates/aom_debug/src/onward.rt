//! On until something is over, or to a place.
ghost use Rattle.std.specs.Prelude.{◌≡◌};
ghost use Rattle.aom_natives.specs.Slots.{AllAgree};
ghost use Rattle.aom_debug_stepping.specs.Runners.{IsReady, KeepsRunner};
ghost use Rattle.aom_debug.specs.Debugging.{GoesOver, UntilCommands};

use crate::Debugger;
use aom_debug_protocol::DebugFault;
use aom_debug_stepping::{Awaited, RunGoal, Sink};
use aom_natives::Native;
use aom_text::Number;

impl<'a> Debugger<'a> {
    /// Goes on until that is over, or an instruction with a breakpoint is next, or to the end of the run.
    pub fn over<W: Sink>(&mut self, scope: Awaited, out: &mut W) -> Result<(), DebugFault>
        requires agree { AllAgree (λ l. l.ids) (λ l. (⟦<dyn Native as Native>⟧ l.native.vtable).owed l.native.value) self.old.runner.machine.natives.slots.items }
        requires ready { IsReady self.old.runner }
        ensures agree { AllAgree (λ l. l.ids) (λ l. (⟦<dyn Native as Native>⟧ l.native.vtable).owed l.native.value) self.new.runner.machine.natives.slots.items }
        ensures keeps { KeepsRunner self.old.runner self.new.runner }
        ensures answer { GoesOver scope self.old self.new (record { before = W.out out.old; now = W.out out.new; failed = W.failed out.new }) result }
    {
        self.run_until(RunGoal::Over(scope), out)
    }

    /// Goes on until the instruction at the place that two numbers name is next, or one with a breakpoint, but for where it begins, or to the end of the run.
    pub fn until<W: Sink>(
        &mut self,
        method: Number,
        place: Number,
        out: &mut W,
    ) -> Result<(), DebugFault>
        requires agree { AllAgree (λ l. l.ids) (λ l. (⟦<dyn Native as Native>⟧ l.native.vtable).owed l.native.value) self.old.runner.machine.natives.slots.items }
        requires ready { IsReady self.old.runner }
        ensures agree { AllAgree (λ l. l.ids) (λ l. (⟦<dyn Native as Native>⟧ l.native.vtable).owed l.native.value) self.new.runner.machine.natives.slots.items }
        ensures keeps { KeepsRunner self.old.runner self.new.runner }
        ensures answer { UntilCommands method place self.old self.new (record { before = W.out out.old; now = W.out out.new; failed = W.failed out.new }) result }
    {
        let spot = self.spot(method, place)?;
        self.run_until(RunGoal::Place(spot), out)
    }
}
