//! A fault's line, and its explanation by the text that the image is of.
ghost use Rattle.std.specs.Prelude.{◌≡◌, codes};
ghost use Rattle.aom_commands.specs.Headline.{Says, Sent, Reported, over};
ghost use Rattle.aom_transcript.specs.Text.{ended};
ghost use Rattle.aom_diagnostics.specs.Entries.{entry_text};
ghost use Rattle.aom_diagnostics.specs.Table.{word_texts};
ghost use Rattle.aom_diagnostics.specs.declared.word.Unnumbered.TheVariants.{Text};
ghost use Rattle.aom_diagnostic_commands.specs.Explained.{ExplainsByText};
ghost use Rattle.aom_diagnostic_commands.specs.Explaining.{ReportsText, ReportedAndExplained};

use crate::explaining::{explanation_by_text, other_explanation};
use crate::reporting::{explain, report_explained};
use crate::with_text::{ImageText, TextFault};
use aom_commands::{ExitStatus, Fault, report};
use aom_transcript::{Sink, write_text};
use std::alloc::Global;

/// Tells a fault, explains it by the text that the image is of, and answers its status.
pub fn report_by_text<E: Sink>(
    alloc: Global,
    fault: &Fault,
    image: &[u8],
    text: &ImageText,
    script: &[u8],
    errors: &mut E,
) -> ExitStatus
    ensures { ReportedAndExplained (Reported fault.now result) (ExplainsByText image.now text.now script.now fault.now) (over E.out E.failed errors.old errors.new) }
{
    let status = report(fault, errors);
    explain(
        explanation_by_text(alloc, fault, image, text, script),
        errors,
    );
    status
}

/// Tells why a text is refused beside an image, and explains it.
pub fn report_text_refusal<E: Sink>(
    alloc: Global,
    fault: &TextFault,
    text: &[u8],
    errors: &mut E,
) -> ExitStatus
    ensures { ReportsText text.now fault.now result (over E.out E.failed errors.old errors.new) }
{
    match *fault {
        TextFault::Asm(fault) => {
            report_explained(alloc, &Fault::Asm(fault), b"", text, errors);
            ExitStatus::CallRefused
        }
        TextFault::Other => {
            report_other(alloc, errors);
            ExitStatus::CallRefused
        }
        TextFault::Memory => report_explained(alloc, &Fault::Memory, b"", b"", errors),
    }
}

/// Tells that a text denotes another image, and explains it.
fn report_other<E: Sink>(alloc: Global, errors: &mut E)
    ensures { ReportedAndExplained (Says (ended (codes "text"))) (λ said. said ≡ entry_text (word_texts Text)) (over E.out E.failed errors.old errors.new) }
{
    write_text(errors, b"text\n");
    explain(other_explanation(alloc), errors);
}
