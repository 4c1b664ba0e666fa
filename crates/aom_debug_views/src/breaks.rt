//! The breakpoints.
ghost use Rattle.std.specs.Prelude.{◌≡◌, IfErr, IfOk, option_map, slice_get};
ghost use Rattle.aom_transcript.specs.Sinks.{after};
ghost use Rattle.aom_debug_protocol.specs.declared.answer.Answer.TheVariants.{Break};
ghost use Rattle.aom_debug_views.specs.CellViews.{breaks_answers};
ghost use Rattle.aom_debug_views.specs.Reporting.{IsCut, answers_by};

use crate::sending::report_any_by;
use aom_debug_protocol::{Answer, Breakpoints, DebugFault};
use aom_debug_symbols::SourceNames;
use aom_transcript::Sink;

/// The breakpoint at an index, in the order in which they were set, as it is told.
fn break_answer(breakpoints: &Breakpoints, index: usize) -> Option<Answer>
    ensures { result ≡ option_map (λ b. Break b) (slice_get breakpoints.now index) }
{
    match breakpoints.at(index) {
        Some(breakpoint) => Some(Answer::Break(breakpoint)),
        None => None,
    }
}

/// Tells the breakpoints, in the order in which they were set, each as the command that sets it.
pub fn report_breaks<W: Sink>(
    breakpoints: &Breakpoints,
    names: &SourceNames,
    out: &mut W,
) -> Result<(), DebugFault>
    ensures ok { IfOk result (λ _. W.out out.new ≡ after (W.out out.old) (answers_by names.now (breaks_answers breakpoints.now))) }
    ensures err { IfErr result (λ fault. IsCut (answers_by names.now (breaks_answers breakpoints.now)) fault (W.failed out.new) (W.out out.old) (W.out out.new)) }
{
    for index in 0..breakpoints.count() {
        report_any_by(names, break_answer(breakpoints, index), out)?;
    }
    Ok(())
}
