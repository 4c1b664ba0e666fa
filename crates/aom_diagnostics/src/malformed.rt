//! Which instruction of a text has words of another form.
ghost use Rattle.std.specs.Prelude.{◌≡◌, ◌++◌, OnOk};
ghost use Rattle.aom_diagnostics.specs.Malformed.{first_mnemonic, form_text, is_malformed, malformed, malformed_in, unlabelled};

use crate::form::write_form_line;
use aom_cost_report::FigureWriter;
use aom_image::{Items, Mnemonic, Version};
use aom_syntax::{NameList, Scope, WordReader, label_of};
use aom_text::{AsmFaultKind, StatementCursor, WordCursor};
use std::alloc::{AllocError, Global};

/// No text is longer.
const MAX_BYTES: usize = 1 << 20;

/// Whether words are no instruction of any version, by their shape alone.
fn is_malformed(alloc: Global, words: WordCursor) -> bool
    ensures { result ≡ is_malformed words.entry }
{
    let names = Scope {
        is_strict: false,
        classes: NameList::none(alloc),
        methods: NameList::none(alloc),
        kinds: Items::from_vec(Vec::new(alloc)),
    };
    let labels = NameList::none(alloc);
    let mut reader = WordReader::of(words);
    match reader.instruction(&names, Version::Two, &labels, 0) {
        Ok(_) => false,
        Err(kind) => matches!(kind, AsmFaultKind::BadShape),
    }
}

/// Words without their label.
fn unlabelled(mut words: WordCursor) -> WordCursor
    ensures { result ≡ unlabelled words.entry }
{
    if let Some(first) = words.peek() {
        if label_of(first).is_some() {
            words.next();
        }
    }
    words
}

/// The mnemonic that words begin with.
fn first_mnemonic(words: &WordCursor) -> Option<Mnemonic>
    ensures { result ≡ first_mnemonic words.now }
{
    match words.peek() {
        Some(first) => Mnemonic::of(first),
        None => None,
    }
}

/// The mnemonic of misshapen words.
fn malformed(alloc: Global, words: WordCursor) -> Option<Mnemonic>
    ensures { result ≡ malformed words.entry }
{
    let mnemonic = first_mnemonic(&words);
    if is_malformed(alloc, words) {
        mnemonic
    } else {
        None
    }
}

/// The first mnemonic of misshapen words among the statements in a line.
fn malformed_in(alloc: Global, mut text: StatementCursor, line: u32) -> Option<Mnemonic>
    ensures { result ≡ malformed_in line text.entry }
{
    while let Some(statement) = text.next() {
        if statement.line == line {
            if let Some(mnemonic) = malformed(alloc, unlabelled(statement.words)) {
                return Some(mnemonic);
            }
        }
    }
    None
}

/// Writes the form of the instruction of a line that has another one, where there is such.
pub fn write_form(
    alloc: Global,
    out: &mut FigureWriter,
    text: &[u8],
    line: u32,
) -> Result<(), AllocError>
    ensures { OnOk result (out.new ≡ out.old ++ form_text text.now line) }
{
    if text.len() > MAX_BYTES {
        return Ok(());
    }
    match malformed_in(alloc, StatementCursor::of(text), line) {
        Some(mnemonic) => write_form_line(out, mnemonic),
        None => Ok(()),
    }
}
