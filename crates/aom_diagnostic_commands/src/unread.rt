//! A file that cannot be read.
ghost use Rattle.std.specs.Prelude.{◌≡◌, ◌++◌, IfOk, OnOk};
ghost use Rattle.aom_commands.specs.Headline.{Reported, over};
ghost use Rattle.aom_commands.specs.declared.faults.Fault.TheVariants.{File};
ghost use Rattle.aom_diagnostic_commands.specs.Explaining.{ReportedAndExplained};
ghost use Rattle.aom_diagnostic_commands.specs.Unread.{file_line, reason_words, unread_text};

use crate::reporting::explain;
use aom_commands::{ExitStatus, Fault, report};
use aom_cost_report::FigureWriter;
use aom_diagnostics::{Unnumbered, word_entry, write_entry};
use aom_transcript::Sink;
use std::alloc::{AllocError, Global};

/// Writes why, to the end of the line.
fn write_reason(out: &mut FigureWriter, why: &[u8]) -> Result<(), AllocError>
    ensures { OnOk result (out.new ≡ out.old ++ reason_words why.now) }
{
    out.words(b": ")?;
    out.words(why)?;
    out.words(b"\n")
}

/// Writes which file it is, and why.
fn write_file(out: &mut FigureWriter, name: &[u8], why: &[u8]) -> Result<(), AllocError>
    ensures { OnOk result (out.new ≡ out.old ++ file_line name.now why.now) }
{
    out.words(b"Not read: ")?;
    out.words(name)?;
    write_reason(out, why)
}

/// What explains it.
fn unread_text(alloc: Global, name: &[u8], why: &[u8]) -> Result<Vec<u8>, AllocError>
    ensures { IfOk result (λ said. said.items ≡ unread_text name.now why.now) }
{
    let mut out = FigureWriter::new(alloc);
    write_entry(&mut out, &word_entry(Unnumbered::File))?;
    write_file(&mut out, name, why)?;
    Ok(out.into_text())
}

/// Tells that the file of that name cannot be read, explains it with its name and why, and answers its status.
pub fn report_unread<E: Sink>(alloc: Global, name: &[u8], why: &[u8], errors: &mut E) -> ExitStatus
    ensures { ReportedAndExplained (Reported File result) (λ said. said ≡ unread_text name.now why.now) (over E.out E.failed errors.old errors.new) }
{
    let status = report(&Fault::File, errors);
    explain(unread_text(alloc, name, why), errors);
    status
}
