//! The latest instructions.
ghost use Rattle.std.specs.Prelude.{◌≡◌, IfErr, IfOk, option_map, slice_get};
ghost use Rattle.aom_transcript.specs.Sinks.{after};
ghost use Rattle.aom_debug_protocol.specs.declared.answer.Answer.TheVariants.{Ran};
ghost use Rattle.aom_debug_views.specs.CellViews.{recent_answers};
ghost use Rattle.aom_debug_views.specs.Reporting.{IsCut, answers_by};

use crate::sending::report_any_by;
use aom_debug_protocol::{Answer, DebugFault, History};
use aom_debug_symbols::SourceNames;
use aom_transcript::Sink;

/// The place at an index, from the oldest, as it is told.
fn recent_answer(recent: &History, index: usize) -> Option<Answer>
    ensures { result ≡ option_map (λ spot. Ran spot) (slice_get recent.now index) }
{
    match recent.at(index) {
        Some(spot) => Some(Answer::Ran(spot)),
        None => None,
    }
}

/// Tells the latest instructions, the oldest first.
pub fn report_recent<W: Sink>(
    recent: &History,
    names: &SourceNames,
    out: &mut W,
) -> Result<(), DebugFault>
    ensures ok { IfOk result (λ _. W.out out.new ≡ after (W.out out.old) (answers_by names.now (recent_answers recent.now))) }
    ensures err { IfErr result (λ fault. IsCut (answers_by names.now (recent_answers recent.now)) fault (W.failed out.new) (W.out out.old) (W.out out.new)) }
{
    for index in 0..recent.count() {
        report_any_by(names, recent_answer(recent, index), out)?;
    }
    Ok(())
}
