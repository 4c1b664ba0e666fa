//! The command `compile`, over bytes and sinks.
ghost use Rattle.aom_commands.specs.Headline.{over};
ghost use Rattle.aom_source_commands.specs.Sending.{Compiles, SendsText};

use crate::compiling::{Compiled, Emit, compile};
use aom_commands::{ExitStatus, Fault};
use aom_transcript::{Sink, write_text};
use std::alloc::Global;

/// Compiles a source that has a name: its assembly text, or the map of that, goes to the output, and what its author is told to the errors. A fault is left to be told.
pub fn compile_source<W: Sink, E: Sink>(
    alloc: Global,
    name: &[u8],
    source: &[u8],
    emit: Emit,
    out: &mut W,
    errors: &mut E,
) -> Result<ExitStatus, Fault>
    ensures { Compiles emit name.now source.now (over W.out W.failed out.old out.new) (over E.out E.failed errors.old errors.new) result }
{
    match compile(alloc, name, source, emit) {
        Ok(Compiled::Text(text)) => send(&text, out),
        Ok(Compiled::Refused(told)) => {
            write_text(errors, &told);
            Ok(ExitStatus::ImageRefused)
        }
        Err(_) => Err(Fault::Memory),
    }
}

/// A text goes to the output, or a beginning of it.
pub(crate) fn send<W: Sink>(text: &[u8], out: &mut W) -> Result<ExitStatus, Fault>
    ensures { SendsText text.now (over W.out W.failed out.old out.new) result }
{
    write_text(out, text);
    if out.has_failed() {
        return Err(Fault::Write);
    }
    Ok(ExitStatus::Done)
}
