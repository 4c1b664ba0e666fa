//! How a call tells its fault.
ghost use Rattle.std.specs.Prelude.{◌≡◌};
ghost use Rattle.aom_commands.specs.Headline.{over};
ghost use Rattle.aom_diagnostic_commands.specs.Tellings.{AnsweredSo, ExplainsIn, IsLineIn, RefusedSo, ReportedSo, TextRefusedSo, ToldSo, UnreadSo, own_line};
ghost use Rattle.aom_commands.specs.Headline.{Reported};
ghost use Rattle.aom_commands.specs.Status.{status_of};
ghost use Rattle.aom_diagnostic_commands.specs.AsLine.{LinesFault};
ghost use Rattle.aom_diagnostic_commands.specs.Explaining.{ReportedAndExplained};

use crate::naming::report_text_fault;
use crate::one_line::{line_text, report_as_line, report_placed};
use crate::program::{LoadedProgram, ProgramFault};
use crate::reporting::report_explained;
use crate::reporting_by_text::{report_by_text, report_text_refusal};
use crate::unread::report_unread;
use crate::with_text::TextFault;
use aom_commands::{ExitStatus, Fault, report};
use aom_transcript::Sink;
use std::alloc::Global;

/// How a fault is told.
#[derive(Clone, Copy)]
pub enum Telling<'a> {
    /// By its line alone.
    Plain,
    /// By its line, with what it means behind it.
    Explained,
    /// In one line of the text's file, which has that name. Figures are told so too.
    AsLine(&'a [u8]),
}

/// The line of a file that a fault names itself.
fn own_line(fault: &Fault) -> Option<u32>
    ensures { result ≡ own_line fault.now }
{
    match fault {
        Fault::Asm(fault) => Some(fault.line),
        _ => None,
    }
}

impl<'a> Telling<'a> {
    /// Tells a fault where no image is known, and answers its status. Lines are counted in the text.
    pub fn report<E: Sink>(
        self,
        alloc: Global,
        fault: &Fault,
        text: &[u8],
        errors: &mut E,
    ) -> ExitStatus
        ensures { ReportedSo self.entry text.now fault.now result (over E.out E.failed errors.old errors.new) }
    {
        match self {
            Telling::Plain => report(fault, errors),
            Telling::Explained => report_explained(alloc, fault, b"", text, errors),
            Telling::AsLine(file) => report_as_line(alloc, file, own_line(fault), fault, errors),
        }
    }

    /// Tells that the file of that name cannot be read and, where that is to be explained, why.
    pub fn report_unread<E: Sink>(
        self,
        alloc: Global,
        name: &[u8],
        why: &[u8],
        errors: &mut E,
    ) -> ExitStatus
        ensures { UnreadSo self.entry name.now why.now result (over E.out E.failed errors.old errors.new) }
    {
        match self {
            Telling::Plain => report(&Fault::File, errors),
            Telling::Explained => report_unread(alloc, name, why, errors),
            Telling::AsLine(_) => report_as_line(alloc, name, None, &Fault::File, errors),
        }
    }

    /// Tells why a program has no image. Lines are counted in its text.
    pub(crate) fn refuse<E: Sink>(
        self,
        alloc: Global,
        fault: &ProgramFault,
        text: &[u8],
        errors: &mut E,
    ) -> ExitStatus
        ensures { RefusedSo self.entry text.now fault.now result (over E.out E.failed errors.old errors.new) }
    {
        match fault {
            ProgramFault::NoImage(fault) => self.report(alloc, fault, text, errors),
            ProgramFault::Beside(fault) => self.refuse_text(alloc, fault, text, errors),
        }
    }

    /// Tells why a text is refused beside an image.
    fn refuse_text<E: Sink>(
        self,
        alloc: Global,
        fault: &TextFault,
        text: &[u8],
        errors: &mut E,
    ) -> ExitStatus
        ensures { TextRefusedSo self.entry text.now fault.now result (over E.out E.failed errors.old errors.new) }
    {
        match self {
            Telling::Plain => report_text_fault(fault, errors),
            Telling::Explained => report_text_refusal(alloc, fault, text, errors),
            Telling::AsLine(file) => line_text(alloc, fault, file, errors),
        }
    }

    /// Answers the status that a call has come to, or tells its fault. Lines are counted in the script, or in the text that the image is of.
    pub(crate) fn answer<E: Sink>(
        self,
        alloc: Global,
        found: Result<ExitStatus, Fault>,
        program: &LoadedProgram<'_>,
        script: &[u8],
        errors: &mut E,
    ) -> ExitStatus
        ensures { AnsweredSo self.entry program.now.image program.now.text script.now found (over E.out E.failed errors.old errors.new) result }
    {
        match found {
            Ok(status) => status,
            Err(fault) => self.tell(alloc, &fault, program, script, errors),
        }
    }

    /// Tells a fault of an image or of its script.
    pub(crate) fn tell<E: Sink>(
        self,
        alloc: Global,
        fault: &Fault,
        program: &LoadedProgram<'_>,
        script: &[u8],
        errors: &mut E,
    ) -> ExitStatus
        ensures { ToldSo self.entry program.now.image program.now.text script.now fault.now (over E.out E.failed errors.old errors.new) result }
    {
        match self {
            Telling::Plain => report(fault, errors),
            Telling::Explained => explain_fault(alloc, fault, program, script, errors),
            Telling::AsLine(file) => line_fault(alloc, fault, program, file, errors),
        }
    }
}

/// Tells a fault and explains it behind its line, by the text that the image is of, where there is one.
fn explain_fault<E: Sink>(
    alloc: Global,
    fault: &Fault,
    program: &LoadedProgram<'_>,
    script: &[u8],
    errors: &mut E,
) -> ExitStatus
    ensures { ReportedAndExplained (Reported fault.now result) (ExplainsIn program.now.image program.now.text script.now fault.now) (over E.out E.failed errors.old errors.new) }
{
    match program.text() {
        Some(text) => report_by_text(alloc, fault, program.image(), text, script, errors),
        None => report_explained(alloc, fault, program.image(), script, errors),
    }
}

/// Tells a fault in one line of a file, by the text that the image is of, where there is one.
fn line_fault<E: Sink>(
    alloc: Global,
    fault: &Fault,
    program: &LoadedProgram<'_>,
    file: &[u8],
    errors: &mut E,
) -> ExitStatus
    ensures status { result ≡ status_of fault.now }
    ensures told { LinesFault file.now (IsLineIn program.now.image program.now.text fault.now) fault.now (over E.out E.failed errors.old errors.new) }
{
    match program.text() {
        Some(text) => report_placed(alloc, fault, program.image(), file, text, errors),
        None => report_as_line(alloc, file, own_line(fault), fault, errors),
    }
}
