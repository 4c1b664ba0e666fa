//! What a step asks of a native.
ghost use Rattle.std.specs.Prelude.{◌≡◌, ◌≢◌, ◌<◌, Some};
ghost use Rattle.aom_machine_state.specs.Agrees.{observed_by};
ghost use Rattle.aom_machine_state.specs.Stands.{Refines as CoreStandsFor};
ghost use Rattle.aom_machine_state.specs.declared.progress.Progress.TheVariants.{Running};
ghost use Rattle.aom_run.specs.Answers.{Asked, MayAsk, MayObserve, asked_of};
ghost use Rattle.aom_run.specs.Calls.{Stands, RefinesWithNatives};
ghost use Rattle.aom_machine.specs.Steps.{progress};
ghost use Rattle.aom_natives.specs.Slots.{AllAgree};
ghost use Rattle.aom_semantics.specs.State.{State};
ghost use Rattle.aom_semantics.specs.NativeCall.{wanted};
ghost use Rattle.aom_machine.specs.NativeCall.{as_wanted};

use crate::HostedMachine;
use aom_machine::{NativeCall, Progress};
use aom_natives::{Native, Natives};

/// Makes the call that a step asks for at a living native, and answers what that does; 0 where there is no answer.
#[inline(never)]
fn call(natives: &mut Natives, wanted: NativeCall) -> i32
    requires agree { AllAgree (λ l. l.ids) (λ l. (⟦<dyn Native as Native>⟧ l.native.vtable).owed l.native.value) natives.old.slots.items }
    requires fits { MayAsk (λ l. l.ids) natives.old.slots.items (as_wanted wanted) }
    ensures agree { AllAgree (λ l. l.ids) (λ l. (⟦<dyn Native as Native>⟧ l.native.vtable).owed l.native.value) natives.new.slots.items }
    ensures answer { MayObserve (λ l. (⟦<dyn Native as Native>⟧ l.native.vtable).open_may l.native.value) (λ l. (⟦<dyn Native as Native>⟧ l.native.vtable).start_may l.native.value) (λ l. (⟦<dyn Native as Native>⟧ l.native.vtable).call_may l.native.value) natives.old.slots.items (Some (as_wanted wanted)) result }
    ensures after { Asked (λ l. l.ids) natives.old.slots.items (Some (as_wanted wanted)) result natives.new.slots.items }
{
    match wanted {
        NativeCall::Open { native, id } => natives.open(native, id),
        NativeCall::Start {
            native,
            id,
            function,
            word,
        } => natives.start(native, id, function, word),
        NativeCall::Ask {
            native,
            id,
            function,
            word,
        } => natives.call(native, id, function, word),
        NativeCall::Cancel { native, id } => {
            natives.cancel(native, id);
            0
        }
        NativeCall::Close { native, id } => {
            natives.close(native, id);
            0
        }
    }
}

impl<'a> HostedMachine<'a> {
    /// Asks of a native what the next step asks, which then hears the answer.
    #[inline(always)]
    pub(crate) fn ask(&mut self)
        requires agree { AllAgree (λ l. l.ids) (λ l. (⟦<dyn Native as Native>⟧ l.native.vtable).owed l.native.value) self.old.natives.slots.items }
        requires stands { Stands self.old }
        ensures agree { AllAgree (λ l. l.ids) (λ l. (⟦<dyn Native as Native>⟧ l.native.vtable).owed l.native.value) self.new.natives.slots.items }
        ensures idle { progress self.old.core ≢ Running → self.new ≡ self.old }
        ensures core { self.new.core ≡ record self.old.core { parts = record self.old.core.parts { observed = self.new.core.parts.observed } } }
        ensures stands { (s : State) → CoreStandsFor self.old.core s → CoreStandsFor self.new.core s }
        ensures asked { (s : State) → RefinesWithNatives self.old s → MayObserve (λ l. (⟦<dyn Native as Native>⟧ l.native.vtable).open_may l.native.value) (λ l. (⟦<dyn Native as Native>⟧ l.native.vtable).start_may l.native.value) (λ l. (⟦<dyn Native as Native>⟧ l.native.vtable).call_may l.native.value) self.old.natives.slots.items (asked_of self.old.core.image s) (observed_by self.new.core.parts) × Asked (λ l. l.ids) self.old.natives.slots.items (asked_of self.old.core.image s) (observed_by self.new.core.parts) self.new.natives.slots.items }
    {
        let Progress::Running = self.core.progress() else {
            return;
        };
        if let Some(wanted) = self.core.wanted() {
            let answer = call(&mut self.natives, wanted);
            self.core.observe(answer);
        }
    }
}
