//! A fault in one line with its place, as compilers write it.
ghost use Rattle.std.specs.Prelude.{ℕ, ◌≡◌, IfOk, List, None, codes};
ghost use Rattle.aom_image.specs.Image.{Image as ImageRecord};
ghost use Rattle.aom_diagnostics.specs.Lines.{as_line_text};
ghost use Rattle.aom_diagnostics.specs.Table.{word_texts};
ghost use Rattle.aom_diagnostics.specs.declared.word.Unnumbered.TheVariants.{Text};
ghost use Rattle.aom_commands.specs.Acceptable.{IsSerialized};
ghost use Rattle.aom_commands.specs.Headline.{Says, ReportsFault, over};
ghost use Rattle.aom_commands.specs.Status.{status_of};
ghost use Rattle.aom_transcript.specs.Text.{ended};
ghost use Rattle.aom_diagnostic_commands.specs.AsLine.{IsLineOf, LinesFault, LinesLink, LinesText, ReportedPlainly, ReportsAsLine, fault_place, line_at, refusal_place};

use crate::explaining::entry_of;
use crate::with_text::{ImageText, TextFault};
use aom_codec::decode;
use aom_commands::{ExitStatus, Fault, report};
use aom_cost_report::FigureWriter;
use aom_diagnostics::{
    Explanation, Unnumbered, budget_line, link_line, refusal_line, word_entry, write_as_line,
};
use aom_image::Image;
use aom_link_conditions::{LinkFault, link_place};
use aom_transcript::{Sink, write_text};
use aom_verify::Refusal;
use std::alloc::{AllocError, Global};

fn refusal_place(text: &ImageText, refusal: Refusal) -> Option<u32>
    ensures { result ≡ refusal_place text.now refusal }
{
    match refusal {
        Refusal::OutOfMemory => None,
        Refusal::Refused { method, place, .. } => refusal_line(text.bytes(), method, place),
    }
}

fn link_place_line(image: &Image, text: &ImageText, fault: LinkFault) -> Option<u32>
    ensures { LinesLink image.now text.now fault result }
{
    match link_place(image, fault) {
        Some(place) => link_line(text.bytes(), place),
        None => None,
    }
}

/// The line of a text in which its image fails a link condition.
fn link_fault_line(
    alloc: Global,
    image: &[u8],
    text: &ImageText,
    fault: LinkFault,
) -> Result<Option<u32>, AllocError>
    ensures { IfOk result (λ line. (p : ImageRecord) → IsSerialized image.now p → LinesLink p text.now fault line) }
{
    match decode(alloc, image) {
        Ok(image) => Ok(link_place_line(&image, text, fault)),
        Err(_) => Err(AllocError),
    }
}

/// The line of a text in which a fault of it or of its image is.
fn line_of_fault(
    alloc: Global,
    image: &[u8],
    text: &ImageText,
    fault: &Fault,
) -> Result<Option<u32>, AllocError>
    ensures { IfOk result (IsLineOf image.now text.now fault.now) }
{
    match fault {
        Fault::Asm(fault) => Ok(Some(fault.line)),
        Fault::Link(fault) => link_fault_line(alloc, image, text, *fault),
        Fault::Verify(refusal) => Ok(refusal_place(text, *refusal)),
        Fault::Budget(fault) => Ok(budget_line(text.bytes(), fault)),
        _ => Ok(None),
    }
}

/// One line: the file, that line of it, how a fault is told and what it is called.
fn line_of(
    alloc: Global,
    file: &[u8],
    place: Option<u32>,
    reported: &[u8],
    entry: &Explanation,
) -> Result<Vec<u8>, AllocError>
    ensures { IfOk result (λ line. line.items ≡ as_line_text file.now place reported.now entry.now.name) }
{
    let mut out = FigureWriter::new(alloc);
    write_as_line(&mut out, file, place, reported, entry)?;
    Ok(out.into_text())
}

/// Tells a fault by its own line, and behind it that there was no memory for another. Answers the fault's status.
fn report_plainly<E: Sink>(fault: &Fault, errors: &mut E) -> ExitStatus
    ensures status { result ≡ status_of fault.now }
    ensures reported { ReportedPlainly (ReportsFault fault.now) (over E.out E.failed errors.old errors.new) }
{
    let status = report(fault, errors);
    report(&Fault::Memory, errors);
    status
}

/// Tells a fault in one line of a file, and answers its status. Where there is no memory for that line, the fault's own and `memory` are told.
pub fn report_as_line<E: Sink>(
    alloc: Global,
    file: &[u8],
    place: Option<u32>,
    fault: &Fault,
    errors: &mut E,
) -> ExitStatus
    ensures status { result ≡ status_of fault.now }
    ensures reported { ReportsAsLine (line_at file.now place fault.now) (ReportsFault fault.now) (over E.out E.failed errors.old errors.new) }
{
    let reported = fault.line();
    match line_of(alloc, file, place, reported.as_bytes(), &entry_of(fault)) {
        Ok(line) => {
            write_text(errors, &line);
            fault.status()
        }
        Err(_) => report_plainly(fault, errors),
    }
}

/// Tells a fault in one line of the text that the image is of, and answers its status. Where there is no memory to find the line, the
/// fault's own and `memory` are told.
pub fn report_placed<E: Sink>(
    alloc: Global,
    fault: &Fault,
    image: &[u8],
    file: &[u8],
    text: &ImageText,
    errors: &mut E,
) -> ExitStatus
    ensures status { result ≡ status_of fault.now }
    ensures reported { LinesFault file.now (IsLineOf image.now text.now fault.now) fault.now (over E.out E.failed errors.old errors.new) }
{
    match line_of_fault(alloc, image, text, fault) {
        Ok(line) => report_as_line(alloc, file, line, fault, errors),
        Err(_) => report_plainly(fault, errors),
    }
}

/// Tells that a text denotes another image by the word alone, and behind it that there was no memory for a line.
fn report_other_plainly<E: Sink>(errors: &mut E)
    ensures { ReportedPlainly (Says (ended (codes "text"))) (over E.out E.failed errors.old errors.new) }
{
    write_text(errors, b"text\n");
    report(&Fault::Memory, errors);
}

/// Tells that a text denotes another image.
fn line_other<E: Sink>(alloc: Global, file: &[u8], errors: &mut E)
    ensures { ReportsAsLine (as_line_text file.now None (codes "text") (word_texts Text).name) (Says (ended (codes "text"))) (over E.out E.failed errors.old errors.new) }
{
    match line_of(alloc, file, None, b"text", &word_entry(Unnumbered::Text)) {
        Ok(line) => write_text(errors, &line),
        Err(_) => report_other_plainly(errors),
    }
}

/// Tells why a text is refused beside an image.
pub fn line_text<E: Sink>(
    alloc: Global,
    fault: &TextFault,
    file: &[u8],
    errors: &mut E,
) -> ExitStatus
    ensures { (text : List ℕ) → LinesText file.now text fault.now result (over E.out E.failed errors.old errors.new) }
{
    match *fault {
        TextFault::Asm(fault) => {
            report_as_line(alloc, file, Some(fault.line), &Fault::Asm(fault), errors);
            ExitStatus::CallRefused
        }
        TextFault::Other => {
            line_other(alloc, file, errors);
            ExitStatus::CallRefused
        }
        TextFault::Memory => report(&Fault::Memory, errors),
    }
}
