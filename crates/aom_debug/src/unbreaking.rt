//! A breakpoint that is taken away.
ghost use Rattle.std.specs.Prelude.{◌≡◌};
ghost use Rattle.aom_natives.specs.Slots.{AllAgree};
ghost use Rattle.aom_debug_stepping.specs.Runners.{IsReady, KeepsRunner};
ghost use Rattle.aom_debug.specs.Debugging.{Unsets, UnsetsAt};

use crate::Debugger;
use aom_debug_protocol::{Answer, CodeLocation, DebugFault};
use aom_debug_stepping::Sink;
use aom_debug_views::report;
use aom_natives::Native;
use aom_text::Number;

impl<'a> Debugger<'a> {
    /// Takes away the breakpoint at the place that two numbers name.
    pub fn unbreak_at<W: Sink>(
        &mut self,
        method: Number,
        place: Number,
        out: &mut W,
    ) -> Result<(), DebugFault>
        requires agree { AllAgree (λ l. l.ids) (λ l. (⟦<dyn Native as Native>⟧ l.native.vtable).owed l.native.value) self.old.runner.machine.natives.slots.items }
        requires ready { IsReady self.old.runner }
        ensures agree { AllAgree (λ l. l.ids) (λ l. (⟦<dyn Native as Native>⟧ l.native.vtable).owed l.native.value) self.new.runner.machine.natives.slots.items }
        ensures keeps { KeepsRunner self.old.runner self.new.runner }
        ensures answer { Unsets method place self.old self.new (record { before = W.out out.old; now = W.out out.new; failed = W.failed out.new }) result }
    {
        let spot = self.spot(method, place)?;
        self.clear_breakpoint(spot, out)
    }

    /// Takes it away.
    fn clear_breakpoint<W: Sink>(
        &mut self,
        spot: CodeLocation,
        out: &mut W,
    ) -> Result<(), DebugFault>
        ensures { UnsetsAt spot self.old self.new (record { before = W.out out.old; now = W.out out.new; failed = W.failed out.new }) result }
    {
        if !self.breakpoints.clear_breakpoint(spot) {
            return Err(DebugFault::NoSuch);
        }
        let reported = report(Answer::Done, out);
        self.kept(reported)
    }
}
