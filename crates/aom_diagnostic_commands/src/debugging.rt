//! A debugger that tells by the names and the lines of its image's text.
ghost use Rattle.std.specs.Prelude.{length};
ghost use Rattle.aom_natives.specs.Owed.{OweNothing};
ghost use Rattle.aom_commands.specs.Headline.{over};
ghost use Rattle.aom_commands.specs.Unreported.{Unreported};
ghost use Rattle.aom_debug.specs.Answers.{DebugAnswersBy};
ghost use Rattle.aom_debug_symbols.specs.NameLists.{names_in};
ghost use Rattle.aom_diagnostic_commands.specs.Debugged.{debug_names};
ghost use Rattle.aom_debug.specs.SessionLoop.{reading};

use crate::program::LoadedProgram;
use crate::with_text::ImageText;
use aom_commands::{ExitStatus, Fault};
use aom_debug::{Reader, SourceNames, try_debug};
use aom_debug_symbols::TextFile;
use aom_diagnostics::{class_names, method_names};
use aom_natives::Native;
use aom_transcript::Sink;
use std::alloc::Global;

/// Debugs an image by the names and the lines of its text, which is told to be in that file, and leaves its fault to be told. The names are looked up before anything is read.
fn try_debug_by_names<R: Reader, W: Sink>(
    alloc: Global,
    image: &[u8],
    text: &ImageText,
    file: TextFile<'_>,
    script: &[u8],
    limit: u32,
    boxes: Vec<Box<dyn Native>>,
    reader: &mut R,
    reads: u64,
    out: &mut W,
) -> Result<ExitStatus, Fault>
    requires owed { OweNothing (λ b. (⟦<dyn Native as Native>⟧ b.vtable).owed b.value) boxes.items }
    ensures { Unreported (DebugAnswersBy (names_in file.entry text.now) image.now script.now limit (length boxes.items) reads (reading R.given R.ended R.failed reader.old reader.new) (over W.out W.failed out.old out.new)) result }
{
    let classes = class_names(alloc, text.bytes())?;
    let methods = method_names(alloc, text.bytes())?;
    let names = SourceNames::new(&classes, &methods, text.bytes(), file);
    try_debug(
        alloc, image, script, limit, names, boxes, reader, reads, out,
    )
}

/// Debugs an image, by its text where there is one, and leaves its fault to be told.
pub fn try_debug_told<R: Reader, W: Sink>(
    alloc: Global,
    program: &LoadedProgram,
    file: TextFile<'_>,
    script: &[u8],
    limit: u32,
    boxes: Vec<Box<dyn Native>>,
    reader: &mut R,
    reads: u64,
    out: &mut W,
) -> Result<ExitStatus, Fault>
    requires owed { OweNothing (λ b. (⟦<dyn Native as Native>⟧ b.vtable).owed b.value) boxes.items }
    ensures { Unreported (DebugAnswersBy (debug_names file.entry program.now.text) program.now.image script.now limit (length boxes.items) reads (reading R.given R.ended R.failed reader.old reader.new) (over W.out W.failed out.old out.new)) result }
{
    match program.text() {
        Some(text) => try_debug_by_names(
            alloc,
            program.image(),
            text,
            file,
            script,
            limit,
            boxes,
            reader,
            reads,
            out,
        ),
        None => try_debug(
            alloc,
            program.image(),
            script,
            limit,
            SourceNames::none(),
            boxes,
            reader,
            reads,
            out,
        ),
    }
}
