//! The commands, over the bytes of files.
ghost use Rattle.std.specs.Prelude.{ℕ, ◌≤◌, IfErr, IfOk, List, length};
ghost use Rattle.aom_natives.specs.Owed.{OweNothing};
ghost use Rattle.aom_commands.specs.Acceptable.{IsSerialized};
ghost use Rattle.aom_transcript.specs.Naming.{named_by};
ghost use Rattle.aom_commands.specs.Headline.{AcceptedAnswers, EndsOrFails, RunAnswers, RunAnswersBy, CheckAnswers, Sends, over};
ghost use Rattle.aom_commands.specs.Prices.{Checks, ChecksBy, PricesAnswers};
ghost use Rattle.aom_commands.specs.Translations.{DrawsBy, IsTranslation, RefusesFile, Translates};
ghost use Rattle.aom_commands.specs.Unreported.{Unreported};

use crate::accepting::accept_bytes;
use crate::assembling::{assemble_bytes, disassemble_bytes};
use crate::drawing::draw_bytes;
use crate::faults::answer;
use crate::pricing::try_prices;
use crate::running::{run_accepted, runs_well};
use crate::{ExitStatus, Fault};
use aom_budget::Accepted;
use aom_cost_report::Names;
use aom_natives::Native;
use aom_run::Outcome;
use aom_script::read_script;
use aom_transcript::{Sink, write_text};
use std::alloc::Global;

/// Runs an image under a script beside those natives, and writes the transcript. The image is looked at before the script, and
/// the script before the natives.
pub fn run_bytes<W: Sink, E: Sink>(
    alloc: Global,
    image: &[u8],
    script: &[u8],
    limit: u32,
    boxes: Vec<Box<dyn Native>>,
    out: &mut W,
    errors: &mut E,
) -> ExitStatus
    requires limit { (1 ≤ limit) × (limit ≤ 1000000000) }
    requires owed { OweNothing (λ b. (⟦<dyn Native as Native>⟧ b.vtable).owed b.value) boxes.items }
    ensures { RunAnswers image.now script.now limit (length boxes.items) (over W.out W.failed out.old out.new) (over E.out E.failed errors.old errors.new) result }
{
    answer(
        try_run(alloc, image, script, limit, boxes, None, out),
        errors,
    )
}

/// Runs an image as `run_bytes` does, writes classes by these names, if there are some, and leaves its fault to be told. The first name
/// is that of class 0; a class that has none is written by its number.
pub fn try_run<W: Sink>(
    alloc: Global,
    image: &[u8],
    script: &[u8],
    limit: u32,
    boxes: Vec<Box<dyn Native>>,
    names: Option<&[&[u8]]>,
    out: &mut W,
) -> Result<ExitStatus, Fault>
    requires limit { (1 ≤ limit) × (limit ≤ 1000000000) }
    requires owed { OweNothing (λ b. (⟦<dyn Native as Native>⟧ b.vtable).owed b.value) boxes.items }
    ensures { Unreported (RunAnswersBy (named_by names.entry) image.now script.now limit (length boxes.items) (over W.out W.failed out.old out.new)) result }
{
    match accept_bytes(alloc, image) {
        Ok(accepted) => {
            let ended = run_text(alloc, &accepted, script, limit, boxes, names, out);
            drop(accepted);
            ended
        }
        Err(refusal) => Err(refusal),
    }
}

/// Runs an accepted image under the script that a text is.
fn run_text<W: Sink>(
    alloc: Global,
    accepted: &Accepted,
    text: &[u8],
    limit: u32,
    boxes: Vec<Box<dyn Native>>,
    names: Option<&[&[u8]]>,
    out: &mut W,
) -> Result<ExitStatus, Fault>
    requires limit { (1 ≤ limit) × (limit ≤ 1000000000) }
    requires owed { OweNothing (λ b. (⟦<dyn Native as Native>⟧ b.vtable).owed b.value) boxes.items }
    ensures { (bytes : List ℕ) → IsSerialized bytes accepted.now → Unreported (AcceptedAnswers (named_by names.entry) bytes text.now limit (length boxes.items) (over W.out W.failed out.old out.new)) result }
{
    accepted.facts();
    runs_well(accepted);
    match read_script(alloc, text) {
        Ok(script) => end(run_accepted(alloc, accepted, &script, limit, boxes, names, out)),
        Err(fault) => Err(Fault::from(fault)),
    }
}

/// The status of a run that ended so, or that its output has failed, or why it was not made.
fn end(outcome: Result<Outcome, Fault>) -> Result<ExitStatus, Fault>
    ensures { Unreported (λ errors status. EndsOrFails outcome status errors) result }
{
    match outcome? {
        Outcome::Stopped => Ok(ExitStatus::Done),
        Outcome::Waiting => Ok(ExitStatus::Unfinished),
        Outcome::MainLeft(_) => Ok(ExitStatus::Broken),
        Outcome::Limit => Ok(ExitStatus::Unfinished),
        Outcome::Error(_) => Ok(ExitStatus::Broken),
        Outcome::WriteFault => Err(Fault::Write),
    }
}

/// Tells whether an image is accepted.
pub fn check_bytes<W: Sink, E: Sink>(
    alloc: Global,
    image: &[u8],
    out: &mut W,
    errors: &mut E,
) -> ExitStatus
    ensures { CheckAnswers image.now (over W.out W.failed out.old out.new) (over E.out E.failed errors.old errors.new) result }
{
    reported(alloc, image, false, out, errors)
}

/// Tells whether an image is accepted, with its figures. Those of one that its budgets or its limits alone refuse are told too.
pub fn prices_bytes<W: Sink, E: Sink>(
    alloc: Global,
    image: &[u8],
    out: &mut W,
    errors: &mut E,
) -> ExitStatus
    ensures { PricesAnswers image.now (over W.out W.failed out.old out.new) (over E.out E.failed errors.old errors.new) result }
{
    reported(alloc, image, true, out, errors)
}

/// Tells whether an image is accepted, with its figures where they are asked.
fn reported<W: Sink, E: Sink>(
    alloc: Global,
    image: &[u8],
    prices: bool,
    out: &mut W,
    errors: &mut E,
) -> ExitStatus
    ensures { Checks prices image.now (over W.out W.failed out.old out.new) (over E.out E.failed errors.old errors.new) result }
{
    let found = try_check(alloc, image, &Names::none(), prices, out);
    answer(found, errors)
}

/// Checks an image as `check_bytes` or `prices_bytes` does, tells its figures by those names, and leaves its fault to be told.
pub fn try_check<W: Sink>(
    alloc: Global,
    image: &[u8],
    names: &Names,
    prices: bool,
    out: &mut W,
) -> Result<ExitStatus, Fault>
    ensures { Unreported (ChecksBy names.now prices image.now (over W.out W.failed out.old out.new)) result }
{
    if prices {
        return try_prices(alloc, image, names, out);
    }
    try_verdict(alloc, image, out)
}

/// Tells whether an image is accepted, and no more.
fn try_verdict<W: Sink>(alloc: Global, image: &[u8], out: &mut W) -> Result<ExitStatus, Fault>
    ensures { Unreported (CheckAnswers image.now (over W.out W.failed out.old out.new)) result }
{
    match accept_bytes(alloc, image) {
        Ok(_accepted) => try_send(b"accepted\n", out),
        Err(refused) => Err(refused),
    }
}

/// What a file is translated to.
#[derive(Clone, Copy)]
pub enum Translation {
    /// The bytes of the image that an assembly text denotes.
    Asm,
    /// The listing of an image, which need not be accepted.
    Dis,
    /// The graph of an image in Graphviz's language. One that its budgets or its limits alone refuse is drawn too.
    Dot,
}

/// Writes what a file is translated to.
pub fn translate_bytes<W: Sink, E: Sink>(
    alloc: Global,
    to: Translation,
    file: &[u8],
    out: &mut W,
    errors: &mut E,
) -> ExitStatus
    ensures { Translates to file.now (over W.out W.failed out.old out.new) (over E.out E.failed errors.old errors.new) result }
{
    answer(try_translate(alloc, to, file, out), errors)
}

/// Translates a file, and leaves its fault to be told.
fn try_translate<W: Sink>(
    alloc: Global,
    to: Translation,
    file: &[u8],
    out: &mut W,
) -> Result<ExitStatus, Fault>
    ensures { Unreported (Translates to file.now (over W.out W.failed out.old out.new)) result }
{
    match translated(alloc, to, file) {
        Ok(text) => try_send(&text, out),
        Err(fault) => Err(fault),
    }
}

/// Writes the graph of an image with those names, and leaves its fault to be told.
pub fn try_draw<W: Sink>(
    alloc: Global,
    image: &[u8],
    names: &Names,
    out: &mut W,
) -> Result<ExitStatus, Fault>
    ensures { Unreported (DrawsBy names.now image.now (over W.out W.failed out.old out.new)) result }
{
    match draw_bytes(alloc, names, image) {
        Ok(graph) => try_send(&graph, out),
        Err(fault) => Err(fault),
    }
}

/// What a file is translated to, or its first fault.
fn translated(alloc: Global, to: Translation, file: &[u8]) -> Result<Vec<u8>, Fault>
    ensures ok { IfOk result (λ text. IsTranslation to file.now text.items) }
    ensures err { IfErr result (λ fault. RefusesFile to file.now fault) }
{
    match to {
        Translation::Asm => assemble_bytes(alloc, file),
        Translation::Dis => disassemble_bytes(alloc, file),
        Translation::Dot => draw_bytes(alloc, &Names::none(), file),
    }
}

/// Writes a text to the output. That this fails is left to be told.
fn try_send<W: Sink>(text: &[u8], out: &mut W) -> Result<ExitStatus, Fault>
    ensures { Unreported (λ errors status. Sends text.now status (over W.out W.failed out.old out.new) errors) result }
{
    write_text(out, text);
    if out.has_failed() {
        return Err(Fault::Write);
    }
    Ok(ExitStatus::Done)
}
