//! The command `show`: a source with comments that say what was added to its lines, and what its methods cost.
ghost use Rattle.std.specs.Prelude.{◌≡◌, ◌++◌, IfOk};
ghost use Rattle.aom_commands.specs.Headline.{over};
ghost use Rattle.aom_source_commands.specs.Showing.{IsShown, IsShownOrTold, ShowsSource, shown_byte};

use crate::compiling::Compiled;
use crate::judging::tell_fault;
use crate::notes::LineNotes;
use crate::sending::send;
use crate::telling::tell_refusals;
use aom_budget::Figures;
use aom_commands::{ExitStatus, Fault};
use aom_image::{Image, MethodNumber};
use aom_linker::link;
use aom_source::{Refusal, Translation, Written, translate};
use aom_source_tokens::Tokens;
use aom_transcript::{Sink, write_text};
use aom_verify::check;
use std::alloc::{AllocError, Global};

/// Writes a source that has a name with what was added to its lines to the output, or what its author is told to the errors. A fault is left to be told.
pub fn show_source<W: Sink, E: Sink>(
    alloc: Global,
    name: &[u8],
    source: &[u8],
    out: &mut W,
    errors: &mut E,
) -> Result<ExitStatus, Fault>
    ensures { ShowsSource name.now source.now (over W.out W.failed out.old out.new) (over E.out E.failed errors.old errors.new) result }
{
    match show(alloc, name, source) {
        Ok(Compiled::Text(text)) => send(&text, out),
        Ok(Compiled::Refused(told)) => {
            write_text(errors, &told);
            Ok(ExitStatus::ImageRefused)
        }
        Err(_) => Err(Fault::Memory),
    }
}

/// A source with what was added to its lines, or what its author is told.
fn show(alloc: Global, name: &[u8], source: &[u8]) -> Result<Compiled, AllocError>
    ensures { IfOk result (IsShownOrTold name.now source.now) }
{
    let tokens = match Tokens::of(alloc, source) {
        Ok(tokens) => tokens,
        Err(fault) => {
            let refusals = [Refusal::of_token(fault)];
            let told = tell_refusals(alloc, name, source, &refusals)?;
            return Ok(Compiled::Refused(told));
        }
    };
    match translate(alloc, &tokens) {
        Ok(translation) => show_translation(alloc, name, &tokens, translation),
        Err(refusals) => {
            let told = tell_refusals(alloc, name, source, &refusals)?;
            Ok(Compiled::Refused(told))
        }
    }
}

fn show_translation(
    alloc: Global,
    name: &[u8],
    tokens: &Tokens<'_>,
    translation: Translation<'_>,
) -> Result<Compiled, AllocError>
    ensures { IfOk result (IsShownOrTold name.now tokens.now.bytes) }
{
    let Translation { written, image } = translation;
    match prices_of(alloc, image) {
        Ok(prices) => {
            let notes = LineNotes::of(alloc, tokens, &written, &prices)?;
            Ok(Compiled::Text(interleaved(alloc, tokens.source(), &notes)?))
        }
        Err(Fault::Memory) => Err(AllocError),
        Err(fault) => {
            let told = tell_fault(alloc, name, tokens, &written, &fault)?;
            Ok(Compiled::Refused(told))
        }
    }
}

/// What each method of an image costs, by its number.
pub fn prices_of(alloc: Global, image: Image) -> Result<Vec<u64>, Fault> {
    let checked = check(alloc, link(alloc, image)?)?;
    let figures = Figures::of_image(alloc, &checked)?;
    let mut prices: Vec<u64> = Vec::new(alloc);
    for number in 0..checked.linked().image().methods().len() {
        prices.push(match MethodNumber::new(number as u16) {
            Some(method) => figures.price(method),
            None => 0,
        })?;
    }
    Ok(prices)
}

/// A text with something behind each of its lines.
fn interleaved(alloc: Global, source: &[u8], notes: &LineNotes) -> Result<Vec<u8>, AllocError>
    ensures { IfOk result (λ text. IsShown source.now text.items) }
{
    notes.facts();
    let mut text: Vec<u8> = Vec::new(alloc);
    let mut line = 0;
    for byte in source {
        add_byte(&mut text, notes, line, *byte)?;
        if *byte == b'\n' {
            line += 1;
        }
    }
    text.extend_from_slice(notes.behind(line))?;
    Ok(text)
}

/// Adds a byte of a line, and before the line's end what stands behind it.
fn add_byte(text: &mut Vec<u8>, notes: &LineNotes, line: usize, byte: u8) -> Result<(), AllocError>
    ensures { IfOk result (λ _. text.new.items ≡ text.old.items ++ shown_byte notes.now line byte) }
{
    if byte == b'\n' {
        text.extend_from_slice(notes.behind(line))?;
    }
    text.push(byte)?;
    Ok(())
}
