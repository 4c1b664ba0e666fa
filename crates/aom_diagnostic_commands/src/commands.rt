//! One call for each command, over a program and a way to tell what it has to tell.
ghost use Rattle.std.specs.Prelude.{◌≡◌, ◌≤◌, [], length};
ghost use Rattle.aom_natives.specs.Owed.{OweNothing};
ghost use Rattle.aom_commands.specs.Explored.{ExploreAnswers, ExploreAnswersOf};
ghost use Rattle.aom_commands.specs.Headline.{IsSilent, RunAnswersBy, Sends, over};
ghost use Rattle.aom_commands.specs.Prices.{ChecksBy};
ghost use Rattle.aom_commands.specs.Translations.{DrawsBy};
ghost use Rattle.aom_commands.specs.Unreported.{Unreported};
ghost use Rattle.aom_debug.specs.Answers.{DebugAnswersBy};
ghost use Rattle.aom_debug.specs.SessionLoop.{IsUnread, reading};
ghost use Rattle.aom_fault_injection.specs.Expected.{exploration_of};
ghost use Rattle.aom_diagnostic_commands.specs.Debugged.{debug_names};
ghost use Rattle.aom_diagnostic_commands.specs.EachMethod.{AnswersAll};
ghost use Rattle.aom_diagnostic_commands.specs.Naming.{line_in};
ghost use Rattle.aom_diagnostic_commands.specs.Programs.{Answers};
ghost use Rattle.aom_diagnostic_commands.specs.Tellings.{names_in};
ghost use Rattle.aom_diagnostic_commands.specs.Warned.{WarnsBy, warning_line};
ghost use Rattle.aom_diagnostic_commands.specs.declared.telling.Telling.TheVariants.{Plain};

use crate::debugging::try_debug_told;
use crate::each_method::answer_all;
use crate::naming::{try_check_told, try_draw_told, try_run_told};
use crate::program::{LoadedProgram, Program};
use crate::telling::Telling;
use crate::warned::warned_text;
use aom_commands::{ExitStatus, Fault, explore_bytes_with};
use aom_debug::Reader;
use aom_debug_symbols::TextFile;
use aom_fault_injection::{ExploreOptions, Tries};
use aom_natives::{Native, NativeKind};
use aom_transcript::{Sink, write_text};
use std::alloc::Global;

/// Tells whether an image is accepted, with its figures where they are asked, by the names of its text. Those of one that its budgets or
/// its limits alone refuse are told too.
pub fn check<W: Sink, E: Sink>(
    alloc: Global,
    program: Program<'_>,
    telling: Telling<'_>,
    prices: bool,
    out: &mut W,
    errors: &mut E,
) -> ExitStatus
    ensures { Answers telling.entry program.entry [] (W.out out.new ≡ W.out out.old) (λ image text. ChecksBy (names_in telling.entry text) prices image (over W.out W.failed out.old out.new)) (over E.out E.failed errors.old errors.new) result }
{
    match program.load(alloc) {
        Ok(loaded) => {
            let found = try_check_told(alloc, &loaded, telling, prices, out);
            telling.answer(alloc, found, &loaded, b"", errors)
        }
        Err(fault) => telling.refuse(alloc, &fault, program.text(), errors),
    }
}

/// Tells whether an image is accepted as `check` does; of one that the verifier refuses it tells the first fault of each method.
pub fn check_all<W: Sink, E: Sink>(
    alloc: Global,
    program: Program<'_>,
    telling: Telling<'_>,
    prices: bool,
    out: &mut W,
    errors: &mut E,
) -> ExitStatus
    ensures { AnswersAll telling.entry program.entry (W.out out.new ≡ W.out out.old) (λ image text. ChecksBy (names_in telling.entry text) prices image (over W.out W.failed out.old out.new)) (over E.out E.failed errors.old errors.new) result }
{
    match program.load(alloc) {
        Ok(loaded) => {
            let found = try_check_told(alloc, &loaded, telling, prices, out);
            answer_all(alloc, telling, found, &loaded, errors)
        }
        Err(fault) => telling.refuse(alloc, &fault, program.text(), errors),
    }
}

/// Writes the warnings of a program's image, one in a line, by its text where there is one. It asks not whether the image is accepted.
pub fn warn<W: Sink, E: Sink>(
    alloc: Global,
    program: Program<'_>,
    telling: Telling<'_>,
    out: &mut W,
    errors: &mut E,
) -> ExitStatus
    ensures { Answers telling.entry program.entry [] (W.out out.new ≡ W.out out.old) (λ image text. WarnsBy (warning_line telling.entry text) image (over W.out W.failed out.old out.new)) (over E.out E.failed errors.old errors.new) result }
{
    match program.load(alloc) {
        Ok(loaded) => {
            let found = try_warn(alloc, &loaded, telling, out);
            telling.answer(alloc, found, &loaded, b"", errors)
        }
        Err(fault) => telling.refuse(alloc, &fault, program.text(), errors),
    }
}

/// Writes the warnings of an image, and leaves its fault to be told.
fn try_warn<W: Sink>(
    alloc: Global,
    program: &LoadedProgram,
    telling: Telling,
    out: &mut W,
) -> Result<ExitStatus, Fault>
    ensures { Unreported (WarnsBy (warning_line telling.entry program.now.text) program.now.image (over W.out W.failed out.old out.new)) result }
{
    match warned_text(alloc, program, telling) {
        Ok(text) => try_send(&text, out),
        Err(fault) => Err(fault),
    }
}

/// Runs an image under a script beside those natives, and writes the transcript, with the names of its text in place of the numbers of classes
/// where that is asked.
pub fn run<W: Sink, E: Sink>(
    alloc: Global,
    program: Program<'_>,
    telling: Telling<'_>,
    names: bool,
    script: &[u8],
    limit: u32,
    boxes: Vec<Box<dyn Native>>,
    out: &mut W,
    errors: &mut E,
) -> ExitStatus
    requires limit { (1 ≤ limit) × (limit ≤ 1000000000) }
    requires owed { OweNothing (λ b. (⟦<dyn Native as Native>⟧ b.vtable).owed b.value) boxes.items }
    ensures { Answers telling.entry program.entry script.now (W.out out.new ≡ W.out out.old) (λ image text. RunAnswersBy (line_in names text) image script.now limit (length boxes.items) (over W.out W.failed out.old out.new)) (over E.out E.failed errors.old errors.new) result }
{
    match program.load(alloc) {
        Ok(loaded) => {
            let found = try_run_told(alloc, &loaded, names, script, limit, boxes, out);
            telling.answer(alloc, found, &loaded, script, errors)
        }
        Err(fault) => telling.refuse(alloc, &fault, program.text(), errors),
    }
}

/// Runs an image again and again, each time with a fault injected, beside natives of those kinds. No line of that has a name of a text.
pub fn explore<W: Sink, E: Sink>(
    alloc: Global,
    program: Program<'_>,
    script: &[u8],
    limit: u32,
    kinds: &[NativeKind],
    tries: Tries,
    out: &mut W,
    errors: &mut E,
) -> ExitStatus
    requires limit { (1 ≤ limit) × (limit ≤ 1000000000) }
    ensures { Answers Plain program.entry [] (W.out out.new ≡ W.out out.old) (λ image text. ExploreAnswers image script.now limit (length kinds.now) tries (over W.out W.failed out.old out.new)) (over E.out E.failed errors.old errors.new) result }
{
    let options = ExploreOptions::of_tries(tries);
    explore_with(alloc, program, script, limit, kinds, options, out, errors)
}

/// Explores as `explore` does, tells the run as it is too where that is asked, and judges how the runs that are told ended where some ends are expected.
/// The status is `Unfinished` where one has ended otherwise.
pub fn explore_with<W: Sink, E: Sink>(
    alloc: Global,
    program: Program<'_>,
    script: &[u8],
    limit: u32,
    kinds: &[NativeKind],
    options: ExploreOptions<'_>,
    out: &mut W,
    errors: &mut E,
) -> ExitStatus
    requires limit { (1 ≤ limit) × (limit ≤ 1000000000) }
    ensures { Answers Plain program.entry [] (W.out out.new ≡ W.out out.old) (λ image text. ExploreAnswersOf image script.now limit (length kinds.now) (exploration_of options.entry) (over W.out W.failed out.old out.new)) (over E.out E.failed errors.old errors.new) result }
{
    match program.load(alloc) {
        Ok(loaded) => explore_bytes_with(
            alloc,
            loaded.image(),
            script,
            limit,
            kinds,
            options,
            out,
            errors,
        ),
        Err(fault) => Telling::Plain.refuse(alloc, &fault, program.text(), errors),
    }
}

/// Runs an image under a script beside those natives as commands say, which come from a reader, and writes what they tell, by the names and the
/// lines of its text, or the lines of the source that this comes of. After so many reads that give no end it is a fault. Of a program without an image nothing is read.
pub fn debug<R: Reader, W: Sink, E: Sink>(
    alloc: Global,
    program: Program<'_>,
    file: TextFile<'_>,
    script: &[u8],
    limit: u32,
    boxes: Vec<Box<dyn Native>>,
    reader: &mut R,
    reads: u64,
    out: &mut W,
    errors: &mut E,
) -> ExitStatus
    requires owed { OweNothing (λ b. (⟦<dyn Native as Native>⟧ b.vtable).owed b.value) boxes.items }
    ensures { let given = reading R.given R.ended R.failed reader.old reader.new in Answers Plain program.entry script.now ((W.out out.new ≡ W.out out.old) × IsUnread given) (λ image text. DebugAnswersBy (debug_names file.entry text) image script.now limit (length boxes.items) reads given (over W.out W.failed out.old out.new)) (over E.out E.failed errors.old errors.new) result }
{
    match program.load(alloc) {
        Ok(loaded) => {
            let found = try_debug_told(
                alloc, &loaded, file, script, limit, boxes, reader, reads, out,
            );
            Telling::Plain.answer(alloc, found, &loaded, script, errors)
        }
        Err(fault) => Telling::Plain.refuse(alloc, &fault, program.text(), errors),
    }
}

/// Writes the bytes of a program's image.
pub fn asm<W: Sink, E: Sink>(
    alloc: Global,
    program: Program<'_>,
    telling: Telling<'_>,
    out: &mut W,
    errors: &mut E,
) -> ExitStatus
    ensures { Answers telling.entry program.entry [] (W.out out.new ≡ W.out out.old) (λ image text errors status. Sends image status (over W.out W.failed out.old out.new) errors) (over E.out E.failed errors.old errors.new) result }
{
    match program.load(alloc) {
        Ok(loaded) => {
            let found = try_send(loaded.image(), out);
            telling.answer(alloc, found, &loaded, b"", errors)
        }
        Err(fault) => telling.refuse(alloc, &fault, program.text(), errors),
    }
}

/// Writes bytes to the output. That this fails is left to be told.
fn try_send<W: Sink>(bytes: &[u8], out: &mut W) -> Result<ExitStatus, Fault>
    ensures { Unreported (λ errors status. Sends bytes.now status (over W.out W.failed out.old out.new) errors) result }
{
    write_text(out, bytes);
    if out.has_failed() {
        return Err(Fault::Write);
    }
    Ok(ExitStatus::Done)
}

/// Writes the graph of an image, with the names of its text. One that its budgets or its limits alone refuse is drawn too.
pub fn dot<W: Sink, E: Sink>(
    alloc: Global,
    program: Program<'_>,
    out: &mut W,
    errors: &mut E,
) -> ExitStatus
    ensures { Answers Plain program.entry [] (W.out out.new ≡ W.out out.old) (λ image text. DrawsBy (names_in Plain text) image (over W.out W.failed out.old out.new)) (over E.out E.failed errors.old errors.new) result }
{
    match program.load(alloc) {
        Ok(loaded) => {
            let found = try_draw_told(alloc, &loaded, out);
            Telling::Plain.answer(alloc, found, &loaded, b"", errors)
        }
        Err(fault) => Telling::Plain.refuse(alloc, &fault, program.text(), errors),
    }
}
