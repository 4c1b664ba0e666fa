//! The end of a run by its limit, which comes with the end of the dispatch that reaches it.
ghost use Rattle.std.specs.Prelude.{◌≡◌, List, Option, nat_le, ℕ};
ghost use Rattle.aom_machine.specs.Steps.{progress};
ghost use Rattle.aom_natives.specs.Slots.{AllAgree};
ghost use Rattle.aom_debug_stepping.specs.Runners.{IsReady, KeepsRunner, outside_of};
ghost use Rattle.aom_debug_stepping.specs.Moves.{EndsByLimit, is_at_limit, is_cut};
ghost use Rattle.aom_debug_stepping.specs.Sends.{Sends, Where};

use crate::Runner;
use aom_machine::Progress;
use aom_natives::Native;

/// Whether nothing is at hand, and as many dispatches are over as there may be.
fn is_at_limit(runner: &Runner) -> bool
    ensures { result ≡ is_cut (progress runner.now.machine.core) (nat_le runner.now.limit runner.now.machine.core.parts.rest.dispatches) }
{
    match runner.machine.core.progress() {
        Progress::Turned => runner.machine.core.rest().dispatches() >= u64::from(runner.limit),
        _ => false,
    }
}

/// Ends the run where that is so. Answers how far it has come.
pub fn cut_at_limit(runner: &mut Runner) -> Progress
    requires agree { AllAgree (λ l. l.ids) (λ l. (⟦<dyn Native as Native>⟧ l.native.vtable).owed l.native.value) runner.old.machine.natives.slots.items }
    requires ready { IsReady runner.old }
    ensures agree { AllAgree (λ l. l.ids) (λ l. (⟦<dyn Native as Native>⟧ l.native.vtable).owed l.native.value) runner.new.machine.natives.slots.items }
    ensures keeps { KeepsRunner runner.old runner.new }
    ensures recent { runner.new.recent ≡ runner.old.recent }
    ensures ends { (out : Option (List ℕ)) → Sends (Where (is_at_limit (outside_of runner.old)) (EndsByLimit runner.old.machine.core.image (outside_of runner.old))) runner.old.machine out out runner.new.machine }
    ensures far { result ≡ progress runner.new.machine.core }
{
    if is_at_limit(runner) {
        runner.machine.core.cut();
    }
    runner.machine.core.progress()
}
