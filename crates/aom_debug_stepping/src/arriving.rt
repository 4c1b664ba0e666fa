//! What comes between dispatches, whose lines go out.
ghost use Rattle.std.specs.Prelude.{◌≡◌, ◌≢◌, IfSome, Option};
ghost use Rattle.aom_machine.specs.Steps.{progress};
ghost use Rattle.aom_machine_state.specs.LineBuffer.{LineBuffer as LineBufferRecord};
ghost use Rattle.aom_machine_state.specs.declared.progress.Progress.TheVariants.{Turned};
ghost use Rattle.aom_natives.specs.Slots.{AllAgree};
ghost use Rattle.aom_semantics.specs.World.{Reaches};
ghost use Rattle.aom_transcript.specs.declared.line.Ending.{Ending as EndingRecord};
ghost use Rattle.aom_run.specs.Turns.{TakesTurns};
ghost use Rattle.aom_debug_stepping.specs.Runners.{IsReady, KeepsRunner, Went, outside_of};
ghost use Rattle.aom_debug_stepping.specs.Moves.{Arrives, TurnsOnce};

use crate::Runner;
use crate::stepping::send;
use aom_machine::Progress;
use aom_natives::Native;
use aom_run::take_turns;
use aom_transcript::Sink;

/// Between dispatches: turns, until an object or a server is dispatched, an event is told by a line, or the run ends; the line goes out.
pub fn turn_until_dispatch<W: Sink>(runner: &mut Runner, out: &mut W) -> Option<Progress>
    requires agree { AllAgree (λ l. l.ids) (λ l. (⟦<dyn Native as Native>⟧ l.native.vtable).owed l.native.value) runner.old.machine.natives.slots.items }
    requires ready { IsReady runner.old }
    requires between { progress runner.old.machine.core ≡ Turned }
    ensures agree { AllAgree (λ l. l.ids) (λ l. (⟦<dyn Native as Native>⟧ l.native.vtable).owed l.native.value) runner.new.machine.natives.slots.items }
    ensures keeps { KeepsRunner runner.old runner.new }
    ensures recent { runner.new.recent ≡ runner.old.recent }
    ensures takes { (ending : Option EndingRecord) × (now : LineBufferRecord) × TakesTurns runner.old.machine (outside_of runner.old) ending runner.old.lines now runner.new.machine }
    ensures went { Went (TurnsOnce runner.old.machine.core.image (outside_of runner.old)) (Reaches runner.old.machine.core.image (outside_of runner.old)) runner.old (W.out out.old) (W.out out.new) (W.failed out.new) result runner.new }
{
    let events = runner.script.events();
    let _ = take_turns(&mut runner.machine, events, &mut runner.lines, runner.limit);
    let progress = runner.machine.core.progress();
    send(&mut runner.lines, &mut runner.page, out).then_some(progress)
}

/// Such turns, until something is at hand or the run is over.
pub fn arrive<W: Sink>(runner: &mut Runner, out: &mut W) -> Option<Progress>
    requires agree { AllAgree (λ l. l.ids) (λ l. (⟦<dyn Native as Native>⟧ l.native.vtable).owed l.native.value) runner.old.machine.natives.slots.items }
    requires ready { IsReady runner.old }
    ensures agree { AllAgree (λ l. l.ids) (λ l. (⟦<dyn Native as Native>⟧ l.native.vtable).owed l.native.value) runner.new.machine.natives.slots.items }
    ensures keeps { KeepsRunner runner.old runner.new }
    ensures recent { runner.new.recent ≡ runner.old.recent }
    ensures went { Went (Arrives runner.old.machine.core.image (outside_of runner.old)) (Reaches runner.old.machine.core.image (outside_of runner.old)) runner.old (W.out out.old) (W.out out.new) (W.failed out.new) result runner.new }
    ensures goes { IfSome result (λ far. far ≢ Turned) }
{
    loop {
        match runner.machine.core.progress() {
            Progress::Turned => {
                turn_until_dispatch(runner, out)?;
            }
            other => return Some(other),
        }
    }
}
