//! Which ends of runs are expected.
ghost use Rattle.std.specs.Prelude.{◌≡◌};
ghost use Rattle.std.specs.List.{list_any};
ghost use Rattle.aom_text.specs.Numbers.{number_of};
ghost use Rattle.aom_fault_injection.specs.Expected.{cells_said, code_said, each_named, ending_coded, ending_named, expected_by, expected_said, fits, is_same, is_unexpected, last_line, mark_text};

use aom_text::{Number, WordCursor};
use aom_transcript::Ending;

/// No image has more cells.
const MAX_CELLS: u32 = 4096;

/// How a run may end, as it is expected.
#[derive(Clone, Copy)]
pub enum ExpectedEnding {
    Stopped,
    Waiting,
    /// Main left, with any code.
    Left,
    Limit,
    /// A dispatch was left and answered with an error, any one.
    Error,
    /// The last line says just this: how the run ended, and how many cells are left.
    LastLine(Ending, u32),
}

impl ExpectedEnding {
    /// The ending that words say: one word of the closing line, or those of a last line behind its `end`. A code has 32 bits with its sign, and there are
    /// at most 4,096 cells.
    pub fn of_words(text: &[u8]) -> Option<ExpectedEnding>
        ensures { result ≡ expected_said text.now }
    {
        expected_by(WordCursor::of(text))
    }

    /// Whether it expects a run that ended so, with so many cells left.
    pub fn fits(self, ending: Ending, cells: usize) -> bool
        ensures { result ≡ fits self ending cells }
    {
        match (self, ending) {
            (ExpectedEnding::LastLine(other, count), _) => {
                is_same(other, ending) && count as usize == cells
            }
            (ExpectedEnding::Stopped, Ending::Stopped)
            | (ExpectedEnding::Waiting, Ending::Waiting)
            | (ExpectedEnding::Left, Ending::MainLeft(_))
            | (ExpectedEnding::Limit, Ending::Limit)
            | (ExpectedEnding::Error, Ending::Error(_)) => true,
            _ => false,
        }
    }
}

/// Whether some ends are expected, and that of a run is none of them.
pub fn is_unexpected(expected: &[ExpectedEnding], ending: Ending, cells: usize) -> bool
    ensures { result ≡ is_unexpected expected.now ending cells }
{
    !expected.is_empty() && !is_expected(expected, ending, cells)
}

/// Whether one of these expects a run that ended so.
fn is_expected(expected: &[ExpectedEnding], ending: Ending, cells: usize) -> bool
    ensures { result ≡ list_any (λ one. fits one ending cells) expected.now }
{
    expected.iter().any(|one| one.fits(ending, cells))
}

/// What stands at the end of the line of a run that ended so, with so many cells left.
pub fn mark_of(expected: &[ExpectedEnding], ending: Ending, cells: usize) -> &'static [u8]
    ensures { result.now ≡ mark_text expected.now ending cells }
{
    if is_unexpected(expected, ending, cells) {
        b" unexpected"
    } else {
        b""
    }
}

fn is_same(one: Ending, other: Ending) -> bool
    ensures { result ≡ is_same one other }
{
    match (one, other) {
        (Ending::MainLeft(code), Ending::MainLeft(other)) => code == other,
        (Ending::Error(answer), Ending::Error(other)) => answer == other,
        (Ending::Stopped, Ending::Stopped)
        | (Ending::Waiting, Ending::Waiting)
        | (Ending::Limit, Ending::Limit) => true,
        _ => false,
    }
}

/// The ending that words say.
fn expected_by(mut words: WordCursor) -> Option<ExpectedEnding>
    ensures { result ≡ expected_by words.entry }
{
    let word = words.next()?;
    match (words.next(), words.next(), words.next()) {
        (None, _, _) => each_named(word),
        (Some(cells), Some(count), None) => {
            last_line(ending_named(word), cells, cells_said(count))
        }
        (Some(code), Some(cells), Some(count)) if words.is_empty() => last_line(
            ending_coded(word, code_said(code)),
            cells,
            cells_said(count),
        ),
        _ => None,
    }
}

/// Each run that ended so as the closing line counts it.
fn each_named(word: &[u8]) -> Option<ExpectedEnding>
    ensures { result ≡ each_named word.now }
{
    if word == b"stopped".as_slice() {
        Some(ExpectedEnding::Stopped)
    } else if word == b"waiting".as_slice() {
        Some(ExpectedEnding::Waiting)
    } else if word == b"left".as_slice() {
        Some(ExpectedEnding::Left)
    } else if word == b"limit".as_slice() {
        Some(ExpectedEnding::Limit)
    } else if word == b"error".as_slice() {
        Some(ExpectedEnding::Error)
    } else {
        None
    }
}

/// The ending that one word says.
fn ending_named(word: &[u8]) -> Option<Ending>
    ensures { result ≡ ending_named word.now }
{
    if word == b"stopped".as_slice() {
        Some(Ending::Stopped)
    } else if word == b"waiting".as_slice() {
        Some(Ending::Waiting)
    } else if word == b"limit".as_slice() {
        Some(Ending::Limit)
    } else {
        None
    }
}

/// The ending that a word and a code say. No error is 0.
fn ending_coded(word: &[u8], code: Option<i32>) -> Option<Ending>
    ensures { result ≡ ending_coded word.now code }
{
    let code = code?;
    if word == b"left".as_slice() {
        Some(Ending::MainLeft(code))
    } else if word == b"error".as_slice() && code != 0 {
        Some(Ending::Error(code))
    } else {
        None
    }
}

fn code_said(word: &[u8]) -> Option<i32>
    ensures { result ≡ code_said (number_of word.now) }
{
    Number::of(word)?.signed()
}

fn cells_said(word: &[u8]) -> Option<u32>
    ensures { result ≡ cells_said (number_of word.now) }
{
    Number::of(word)?.within(0, MAX_CELLS)
}

/// An ending with the cells that are left.
fn last_line(ending: Option<Ending>, word: &[u8], count: Option<u32>) -> Option<ExpectedEnding>
    ensures { result ≡ last_line ending word.now count }
{
    match (ending, count) {
        (Some(ending), Some(count)) if word == b"cells".as_slice() => {
            Some(ExpectedEnding::LastLine(ending, count))
        }
        _ => None,
    }
}
