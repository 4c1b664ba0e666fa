//! What a register or a word has.
ghost use Rattle.std.specs.Prelude.{◌≡◌, false, IfErr, IfOk, None, Some};
ghost use Rattle.aom_natives.specs.Slots.{AllAgree};
ghost use Rattle.aom_debug_stepping.specs.Runners.{IsReady, KeepsRunner};
ghost use Rattle.aom_debug.specs.Printing.{HasNone, HasValue, Prints};

use crate::Debugger;
use aom_debug_paths::variable_at;
use aom_debug_protocol::{Answer, DebugFault, Variable};
use aom_debug_stepping::Sink;
use aom_debug_views::report_by;
use aom_natives::Native;

impl<'a> Debugger<'a> {
    /// What a variable has, as it is told, where all that was told before is out.
    pub(crate) fn value_of(&self, variable: &Variable) -> Result<Answer, DebugFault>
        ensures ok { IfOk result (λ a. (self.now.has_failed ≡ false) × HasValue variable.now self.now (Some a)) }
        ensures err { IfErr result (λ fault. HasNone variable.now self.now fault) }
    {
        if self.has_failed {
            return Err(DebugFault::Ended);
        }
        let core = &self.runner.machine.core;
        match variable_at(core.parts(), core.accepted(), variable) {
            Some(answer) => Ok(answer),
            None => Err(DebugFault::NotThere),
        }
    }

    /// What a register of the innermost method has, a word of the object that it works on, or a word of the object that is owned at a path.
    pub fn print<W: Sink>(&mut self, variable: Variable, out: &mut W) -> Result<(), DebugFault>
        requires agree { AllAgree (λ l. l.ids) (λ l. (⟦<dyn Native as Native>⟧ l.native.vtable).owed l.native.value) self.old.runner.machine.natives.slots.items }
        requires ready { IsReady self.old.runner }
        ensures agree { AllAgree (λ l. l.ids) (λ l. (⟦<dyn Native as Native>⟧ l.native.vtable).owed l.native.value) self.new.runner.machine.natives.slots.items }
        ensures keeps { KeepsRunner self.old.runner self.new.runner }
        ensures answer { Prints variable self.old self.new (record { before = W.out out.old; now = W.out out.new; failed = W.failed out.new }) result }
    {
        let answer = self.value_of(&variable)?;
        let reported = report_by(&self.names, answer, out);
        self.kept(reported)
    }
}
