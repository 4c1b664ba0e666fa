//! Looks at the object that is owned at a path.
ghost use Rattle.std.specs.Prelude.{◌≡◌, false, IfErr, IfOk, None, Some};
ghost use Rattle.aom_cells.specs.Heap.{Lives};
ghost use Rattle.aom_natives.specs.Slots.{AllAgree};
ghost use Rattle.aom_roles.specs.Things.{words_of};
ghost use Rattle.aom_semantics.specs.Places.{service_of};
ghost use Rattle.aom_debug_stepping.specs.Runners.{IsReady, KeepsRunner};
ghost use Rattle.aom_debug_paths.specs.Paths.{waiting_lines, word_lines};
ghost use Rattle.aom_debug_views.specs.Reporting.{Reports, ReportsPart, answers_text};
ghost use Rattle.aom_debug.specs.Debugging.{Finds, FindsNone, LacksQueue, LacksWords, LooksAt, SeesQueue, SeesWords};

use crate::Debugger;
use aom_debug_paths::{Found, object_at, report_queue, report_words};
use aom_debug_protocol::{DebugFault, Path};
use aom_debug_stepping::{HostedMachine, Sink};
use aom_natives::Native;

/// Writes its words.
fn show_words<W: Sink>(machine: &HostedMachine, found: Found, out: &mut W) -> Result<(), DebugFault>
    requires { Lives machine.now.core.parts.cells found.cell }
    ensures ok { IfOk result (λ _. Reports machine.now.core (λ s. answers_text (word_lines s.cells found.cell (words_of machine.now.core.image found.class))) (W.out out.old) (W.out out.new)) }
    ensures err { IfErr result (λ fault. ReportsPart machine.now.core (λ s. answers_text (word_lines s.cells found.cell (words_of machine.now.core.image found.class))) fault (W.failed out.new) (W.out out.old) (W.out out.new)) }
{
    report_words(
        machine.core.parts(),
        machine.core.accepted().linked(),
        found,
        out,
    )
}

/// Writes what waits at it.
fn show_queue<W: Sink>(machine: &HostedMachine, found: Found, out: &mut W) -> Result<(), DebugFault>
    requires { Lives machine.now.core.parts.cells found.cell }
    ensures ok { IfOk result (λ _. Reports machine.now.core (λ s. answers_text (waiting_lines (service_of s.cells found.cell).queue)) (W.out out.old) (W.out out.new)) }
    ensures err { IfErr result (λ fault. ReportsPart machine.now.core (λ s. answers_text (waiting_lines (service_of s.cells found.cell).queue)) fault (W.failed out.new) (W.out out.old) (W.out out.new)) }
{
    report_queue(machine.core.parts(), found, out)
}

impl<'a> Debugger<'a> {
    /// The object that is owned at a path, where all that was told before is out.
    fn found(&self, path: &Path) -> Result<Found, DebugFault>
        ensures ok { IfOk result (λ f. (self.now.has_failed ≡ false) × Lives self.now.runner.machine.core.parts.cells f.cell × Finds path.now self.now (Some f)) }
        ensures err { IfErr result (λ fault. FindsNone (Finds path.now self.now None) self.now fault) }
    {
        if self.has_failed {
            return Err(DebugFault::Ended);
        }
        let core = &self.runner.machine.core;
        match object_at(core.parts(), core.accepted(), path) {
            Some(found) => Ok(found),
            None => Err(DebugFault::NoSuch),
        }
    }

    /// The words of the object that is owned at a path.
    pub fn words_at<W: Sink>(&mut self, path: Path, out: &mut W) -> Result<(), DebugFault>
        requires agree { AllAgree (λ l. l.ids) (λ l. (⟦<dyn Native as Native>⟧ l.native.vtable).owed l.native.value) self.old.runner.machine.natives.slots.items }
        requires ready { IsReady self.old.runner }
        ensures agree { AllAgree (λ l. l.ids) (λ l. (⟦<dyn Native as Native>⟧ l.native.vtable).owed l.native.value) self.new.runner.machine.natives.slots.items }
        ensures keeps { KeepsRunner self.old.runner self.new.runner }
        ensures answer { LooksAt (SeesWords path) (LacksWords path) self.old self.new (record { before = W.out out.old; now = W.out out.new; failed = W.failed out.new }) result }
    {
        let found = self.found(&path)?;
        let reported = show_words(&self.runner.machine, found, out);
        self.kept(reported)
    }

    /// What waits at the object that is owned at a path, the first first.
    pub fn queue_at<W: Sink>(&mut self, path: Path, out: &mut W) -> Result<(), DebugFault>
        requires agree { AllAgree (λ l. l.ids) (λ l. (⟦<dyn Native as Native>⟧ l.native.vtable).owed l.native.value) self.old.runner.machine.natives.slots.items }
        requires ready { IsReady self.old.runner }
        ensures agree { AllAgree (λ l. l.ids) (λ l. (⟦<dyn Native as Native>⟧ l.native.vtable).owed l.native.value) self.new.runner.machine.natives.slots.items }
        ensures keeps { KeepsRunner self.old.runner self.new.runner }
        ensures answer { LooksAt (SeesQueue path) (LacksQueue path) self.old self.new (record { before = W.out out.old; now = W.out out.new; failed = W.failed out.new }) result }
    {
        let found = self.found(&path)?;
        let reported = show_queue(&self.runner.machine, found, out);
        self.kept(reported)
    }
}
