//! Which word of a text is wrong: the first one behind which the text may end and is refused so already. Of a wrong shape the form is told.
ghost use Rattle.std.specs.Prelude.{◌≡◌, ◌≢◌, ◌≤◌, ◌<◌, ◌↔◌, ◌++◌, IfOk, IsTrue, OnOk, Err, length, slice_index_or};
ghost use Rattle.aom_asm.specs.Denoted.{denoted};
ghost use Rattle.aom_text.specs.declared.fault.AsmFaultKind.TheVariants.{OutOfMemory};
ghost use Rattle.aom_diagnostics.specs.Places.{line_text};
ghost use Rattle.aom_diagnostic_commands.specs.Wrong.{AddsWord, IsWrongEnd, ReportsWord, ends_word, has_word, line_start, parts_words, word_start};

use aom_asm::assemble;
use aom_cost_report::FigureWriter;
use aom_diagnostics::{write_form, write_line, write_word};
use aom_text::{AsmFault, AsmFaultKind};
use std::alloc::{AllocError, Global};

/// No more bytes of a line are looked at.
const MAX_SHOWN: usize = 200;

/// Whether a byte stands in no word.
fn parts_words(byte: u8) -> bool
    ensures { result ≡ parts_words byte }
{
    matches!(byte, b' ' | b'\t' | b'\r' | b'\n' | b';' | b'#')
}

/// The byte at a place of a text, and behind its end a line feed.
fn byte_at(text: &[u8], place: usize) -> u8
    ensures { result ≡ slice_index_or text.now place 10 }
{
    match text.get(place) {
        Some(byte) => *byte,
        None => b'\n',
    }
}

/// Where a line of a text begins that has so many before it.
fn line_start(text: &[u8], before: u32) -> usize
    ensures start { result ≡ line_start text.now before }
    ensures within { result ≤ length text.now }
{
    let mut before = before;
    let mut start = 0;
    while before > 0 && start < text.len() {
        if byte_at(text, start) == b'\n' {
            before -= 1;
        }
        start += 1;
    }
    start
}

/// Where the word begins that ends at a place of a text.
fn word_start(text: &[u8], end: usize) -> usize
    ensures start { result ≡ word_start text.now end }
    ensures within { result ≤ end }
{
    let mut start = end;
    while start > 0 && !parts_words(byte_at(text, start - 1)) {
        start -= 1;
    }
    start
}

/// Whether a word ends at a place of a text.
fn ends_word(text: &[u8], end: usize) -> bool
    requires { 0 < end }
    ensures { result ≡ ends_word text.now end }
{
    !parts_words(byte_at(text, end - 1)) && parts_words(byte_at(text, end))
}

/// Whether a text is refused by that very fault.
fn is_refused_by(alloc: Global, text: &[u8], fault: AsmFault) -> Result<bool, AllocError>
    requires { fault.kind ≢ OutOfMemory }
    ensures { IfOk result (λ so. IsTrue so ↔ (denoted text.now ≡ Err fault)) }
{
    match assemble(alloc, text) {
        Ok(_) => Ok(false),
        Err(reported) => match reported.kind {
            AsmFaultKind::OutOfMemory => Err(AllocError),
            _ => Ok(reported == fault),
        },
    }
}

/// The end of the first word of the fault's line, in what is shown of it, behind which the text may end and is refused so.
fn wrong_end(alloc: Global, text: &[u8], fault: AsmFault) -> Result<Option<usize>, AllocError>
    requires { fault.kind ≢ OutOfMemory }
    ensures { IfOk result (IsWrongEnd text.now fault) }
{
    let start = line_start(text, fault.line.saturating_sub(1));
    let mut end = start;
    while end < text.len() && end - start < MAX_SHOWN && byte_at(text, end) != b'\n' {
        end += 1;
        if ends_word(text, end) && is_refused_by(alloc, &text[..end], fault)? {
            return Ok(Some(end));
        }
    }
    Ok(None)
}

/// Writes that word, where there is one.
fn write_wrong(
    alloc: Global,
    out: &mut FigureWriter,
    text: &[u8],
    fault: AsmFault,
) -> Result<(), AllocError>
    requires { fault.kind ≢ OutOfMemory }
    ensures { OnOk result (ReportsWord text.now fault out.old out.new) }
{
    match wrong_end(alloc, text, fault)? {
        Some(end) => {
            let start = word_start(text, end);
            let before = &text[..end];
            write_word(out, &before[start..])
        }
        None => Ok(()),
    }
}

/// Writes the line of a text in which it has a fault; then the word that is wrong, where it is one, or the form of an instruction
/// that has another one.
pub fn write_asm(
    alloc: Global,
    out: &mut FigureWriter,
    text: &[u8],
    fault: AsmFault,
) -> Result<(), AllocError>
    ensures { OnOk result (AddsWord (has_word fault.kind) text.now fault (out.old ++ line_text text.now fault.line) out.new) }
{
    write_line(out, text, fault.line)?;
    match fault.kind {
        AsmFaultKind::UnknownWord | AsmFaultKind::BadNumber | AsmFaultKind::DoubleName => {
            write_wrong(alloc, out, text, fault)
        }
        AsmFaultKind::BadShape => write_form(alloc, out, text, fault.line),
        _ => Ok(()),
    }
}
