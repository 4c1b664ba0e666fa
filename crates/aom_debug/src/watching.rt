//! On until a register or a word has something else.
ghost use Rattle.std.specs.Prelude.{◌≡◌};
ghost use Rattle.aom_natives.specs.Slots.{AllAgree};
ghost use Rattle.aom_debug_stepping.specs.Runners.{IsReady, KeepsRunner};
ghost use Rattle.aom_debug.specs.Watching.{Watches};

use crate::Debugger;
use aom_debug_protocol::{DebugFault, Variable};
use aom_debug_stepping::{RunGoal, Sink, Watched};
use aom_natives::Native;

impl<'a> Debugger<'a> {
    /// Goes on until a variable has something else than now, or is not there any more, or an instruction with a breakpoint is next, but for
    /// where it begins, or to the end of the run. A variable of the innermost method is watched until that method is over.
    pub fn watch<W: Sink>(&mut self, variable: Variable, out: &mut W) -> Result<(), DebugFault>
        requires agree { AllAgree (λ l. l.ids) (λ l. (⟦<dyn Native as Native>⟧ l.native.vtable).owed l.native.value) self.old.runner.machine.natives.slots.items }
        requires ready { IsReady self.old.runner }
        ensures agree { AllAgree (λ l. l.ids) (λ l. (⟦<dyn Native as Native>⟧ l.native.vtable).owed l.native.value) self.new.runner.machine.natives.slots.items }
        ensures keeps { KeepsRunner self.old.runner self.new.runner }
        ensures answer { Watches variable self.old self.new (record { before = W.out out.old; now = W.out out.new; failed = W.failed out.new }) result }
    {
        let answer = self.value_of(&variable)?;
        let depth = self.runner.machine.core.parts().stack.len();
        let watched = Watched {
            variable,
            answer,
            depth,
        };
        self.run_until(RunGoal::Change(watched), out)
    }
}
