//! The time.
ghost use Rattle.std.specs.Prelude.{IfErr, IfOk};
ghost use Rattle.aom_image.specs.Image.{Image};
ghost use Rattle.aom_debug_views.specs.CellViews.{clock_text};
ghost use Rattle.aom_debug_views.specs.Reporting.{Reports, ReportsPart};

use crate::sending::report;
use aom_debug_protocol::{Answer, DebugFault};
use aom_machine_state::Parts;
use aom_transcript::Sink;

/// Tells what time it is.
pub fn report_clock<W: Sink>(parts: &Parts, out: &mut W) -> Result<(), DebugFault>
    ensures ok { IfOk result (λ _. (p : Image) → Reports (record { image = p; parts = parts.now }) (λ s. clock_text s) (W.out out.old) (W.out out.new)) }
    ensures err { IfErr result (λ fault. (p : Image) → ReportsPart (record { image = p; parts = parts.now }) (λ s. clock_text s) fault (W.failed out.new) (W.out out.old) (W.out out.new)) }
{
    report(Answer::Clock(parts.rest.clock()), out)
}
