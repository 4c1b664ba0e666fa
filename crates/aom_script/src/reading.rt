//! The numbers of a line, before any is looked at for its range.
ghost use Rattle.std.specs.Prelude.{◌≡◌, ◌∷◌};
ghost use Rattle.std.specs.List.{list_all};
ghost use Rattle.aom_text.specs.Numbers.{number_of};
ghost use Rattle.aom_text.specs.Words.{is_plain};
ghost use Rattle.aom_script.specs.Script.{event_says, is_back, is_refusal, kill_numbers, kill_says, reading_of, refusal_says, report_numbers, timed_says, words_say};

use crate::ScriptFaultKind;
use crate::clients::read_client;
use aom_text::{Number, WordCursor};

/// The numbers of what a client does.
#[derive(Clone, Copy)]
pub enum CommandNumbers {
    /// A class, and slots.
    ToConnect(Number, Number),
    /// The words of a message, its function first.
    ToSend(Number, Number, Number, Number, Number),
    ToClose,
    ToDie,
}

/// The numbers of an event, without its time.
#[derive(Clone, Copy)]
pub enum EventNumbers {
    /// A native, and the word that it is told.
    ToReport(Number, Number),
    /// A native.
    ToKill(Number),
    /// A client, and what it does.
    OfClient(Number, CommandNumbers),
}

/// The numbers of a line.
#[derive(Clone, Copy)]
pub enum Reading {
    Blank,
    /// A request.
    Refusal(Number),
    /// A time, and what comes then.
    At(Number, EventNumbers),
}

impl Reading {
    /// Reads a line, which is given without its line feed, and of which it is known whether it has no byte that a text may not have.
    pub fn of(line: &[u8], is_text: bool) -> Result<Reading, ScriptFaultKind>
        requires { is_text ≡ list_all is_plain line.now }
        ensures { result ≡ reading_of line.now }
    {
        if is_text {
            read_words(WordCursor::of(line))
        } else {
            Err(ScriptFaultKind::NotAscii)
        }
    }

    /// Whether it has a time, and that is below the last one.
    pub fn is_back(self, last: u64) -> bool
        ensures { result ≡ is_back last self }
    {
        match self {
            Reading::At(time, _) => time.is_below(last),
            _ => false,
        }
    }
}

/// Reads the words of a line.
fn read_words(mut words: WordCursor) -> Result<Reading, ScriptFaultKind>
    ensures { result ≡ words_say words.entry }
{
    let Some(first) = words.next() else {
        return Ok(Reading::Blank);
    };
    let Some(second) = words.next() else {
        return Err(ScriptFaultKind::BadLine);
    };
    if is_refusal(first, &words) {
        read_refusal(second)
    } else {
        read_timed(second, first, words)
    }
}

/// Whether the first word is `refuse`, with one word behind it that is read.
fn is_refusal(first: &[u8], others: &WordCursor) -> bool
    ensures { result ≡ is_refusal first.now others.now }
{
    first == b"refuse".as_slice() && others.is_empty()
}

fn read_refusal(request: &[u8]) -> Result<Reading, ScriptFaultKind>
    ensures { result ≡ refusal_says (number_of request.now) }
{
    match Number::of(request) {
        Some(request) => Ok(Reading::Refusal(request)),
        None => Err(ScriptFaultKind::BadNumber),
    }
}

/// Reads a timed line by its kind, its time and the words after them.
fn read_timed(kind: &[u8], time: &[u8], words: WordCursor) -> Result<Reading, ScriptFaultKind>
    ensures { result ≡ timed_says kind.now (time.now ∷ words.entry) }
{
    if kind == b"event".as_slice() {
        read_event(time, words)
    } else if kind == b"kill".as_slice() {
        read_kill(time, words)
    } else {
        read_client(kind, time, words)
    }
}

fn read_event(time: &[u8], mut words: WordCursor) -> Result<Reading, ScriptFaultKind>
    ensures { result ≡ event_says (time.now ∷ words.entry) }
{
    match (words.next(), words.next()) {
        (Some(native), Some(word)) if words.is_empty() => read_report(time, native, word),
        _ => Err(ScriptFaultKind::BadLine),
    }
}

fn read_report(time: &[u8], native: &[u8], word: &[u8]) -> Result<Reading, ScriptFaultKind>
    ensures { result ≡ report_numbers (number_of time.now) (number_of native.now) (number_of word.now) }
{
    match (Number::of(time), Number::of(native), Number::of(word)) {
        (Some(time), Some(native), Some(word)) => Ok(Reading::At(
            time,
            EventNumbers::ToReport(native, word),
        )),
        _ => Err(ScriptFaultKind::BadNumber),
    }
}

fn read_kill(time: &[u8], mut words: WordCursor) -> Result<Reading, ScriptFaultKind>
    ensures { result ≡ kill_says (time.now ∷ words.entry) }
{
    match words.next() {
        Some(native) if words.is_empty() => read_killed(time, native),
        _ => Err(ScriptFaultKind::BadLine),
    }
}

fn read_killed(time: &[u8], native: &[u8]) -> Result<Reading, ScriptFaultKind>
    ensures { result ≡ kill_numbers (number_of time.now) (number_of native.now) }
{
    match (Number::of(time), Number::of(native)) {
        (Some(time), Some(native)) => Ok(Reading::At(time, EventNumbers::ToKill(native))),
        _ => Err(ScriptFaultKind::BadNumber),
    }
}
