//! A fault's line, and its explanation behind it.
ghost use Rattle.std.specs.Prelude.{IfErr, IfOk};
ghost use Rattle.aom_commands.specs.Headline.{Says, Sent, ReportsFault, Reported, over};
ghost use Rattle.aom_commands.specs.declared.faults.Fault.TheVariants.{Memory};
ghost use Rattle.aom_diagnostic_commands.specs.Explained.{Explains};
ghost use Rattle.aom_diagnostic_commands.specs.Explaining.{ReportedAndExplained};

use crate::explaining::explanation;
use aom_commands::{ExitStatus, Fault, report};
use aom_transcript::{Sink, write_text};
use std::alloc::{AllocError, Global};

/// Says what explains a fault that has been told. That there was no memory for this is told.
pub fn explain<E: Sink>(said: Result<Vec<u8>, AllocError>, errors: &mut E)
    ensures ok { IfOk said (λ text. Says text.items (over E.out E.failed errors.old errors.new)) }
    ensures err { IfErr said (λ _. ReportsFault Memory (over E.out E.failed errors.old errors.new)) }
{
    match said {
        Ok(said) => write_text(errors, &said),
        Err(_) => {
            report(&Fault::Memory, errors);
        }
    }
}

/// Tells a fault, explains it behind its line, and answers its status.
pub fn report_explained<E: Sink>(
    alloc: Global,
    fault: &Fault,
    image: &[u8],
    text: &[u8],
    errors: &mut E,
) -> ExitStatus
    ensures { ReportedAndExplained (Reported fault.now result) (Explains image.now text.now fault.now) (over E.out E.failed errors.old errors.new) }
{
    let status = report(fault, errors);
    explain(explanation(alloc, fault, image, text), errors);
    status
}
