//! When a run does something.
ghost use Rattle.std.specs.Prelude.{◌≡◌, IfOk, Some};
ghost use Rattle.aom_fault_injection.specs.Planned.{AreTimes, is_last, marked, time_of_line, time_of_word, times_in};

use aom_text::{Number, WordCursor, split_line};
use std::alloc::{AllocError, Global};

/// The latest time that a script may have.
const LATEST: u64 = 1_000_000_000_000_000;

/// The times of the dispatches of a transcript, each once.
pub fn times_of(alloc: Global, transcript: &[u8]) -> Result<Vec<u64>, AllocError>
    ensures times { IfOk result (λ times. times.items ≡ times_in transcript.now) }
    ensures known { IfOk result (λ times. AreTimes times.items) }
{
    let mut times = Vec::new(alloc);
    let mut rest = transcript;
    while !rest.is_empty() {
        let (line, after) = split_line(rest);
        if let Some(time) = time_of(line) {
            mark(&mut times, time)?;
        }
        rest = after;
    }
    Ok(times)
}

/// Adds a time, unless it is the last one.
fn mark(times: &mut Vec<u64>, time: u64) -> Result<(), AllocError>
    ensures { IfOk result (λ _. times.new.items ≡ marked times.old.items (Some time)) }
{
    if !is_last(times.as_slice(), time) {
        times.push(time)?;
    }
    Ok(())
}

/// Whether the last of some times is that one.
fn is_last(times: &[u64], time: u64) -> bool
    ensures { result ≡ is_last time times.now }
{
    match times.last() {
        Some(last) => *last == time,
        None => false,
    }
}

/// The time of a dispatch, where the line tells of one.
fn time_of(line: &[u8]) -> Option<u64>
    ensures { result ≡ time_of_line line.now }
{
    time_of_word(WordCursor::of(line).next()?)
}

/// The time behind a dispatch's mark.
fn time_of_word(word: &[u8]) -> Option<u64>
    ensures { result ≡ time_of_word word.now }
{
    match word {
        [b'@', digits @ ..] => Number::of(digits)?.up_to(LATEST),
        _ => None,
    }
}
