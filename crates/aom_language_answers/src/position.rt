//! Positions of the protocol: lines, and units of UTF-16 in them.
ghost use Rattle.std.specs.Prelude.{◌≡◌, ◌+◌, ◌≤◌, ◌<◌, ◌^◌, IfOk, length, min, take};
ghost use Rattle.serde_json.specs.View.{view};
ghost use Rattle.aom_language_answers.specs.Positions.{position_data, position_in, range_data, range_in, units, walked_behind};

use serde_json::{Value, json};
use std::alloc::{AllocError, Global};
use std::marker::Model;

/// The most bytes of a text in which positions are told.
const MOST_BYTES: usize = 1 << 20;

/// A place between two characters: the number of its line and the units of UTF-16 before it there, both from 0.
#[derive(Clone, Copy, PartialEq, Eq, Debug)]
pub struct Position {
    pub line: u64,
    pub character: u64,
}

impl Position {
    pub fn to_value(self, alloc: Global) -> Result<Value, AllocError>
        ensures { IfOk result (λ v. view v ≡ position_data self) }
    {
        json!(in alloc; {"line": self.line, "character": self.character})
    }
}

/// What stands from one position to another.
#[derive(Clone, Copy, PartialEq, Eq, Debug)]
pub struct Range {
    pub start: Position,
    pub end: Position,
}

impl Range {
    pub fn to_value(self, alloc: Global) -> Result<Value, AllocError>
        ensures { IfOk result (λ v. view v ≡ range_data self) }
    {
        let start = self.start.to_value(alloc)?;
        let end = self.end.to_value(alloc)?;
        json!(in alloc; {"start": start, "end": end})
    }
}

/// A position that was reached byte by byte, and whether the last byte was a carriage return.
#[derive(Clone, Copy)]
pub struct Walk {
    pub position: Position,
    pub is_return: bool,
}

impl Walk {
    pub const FIRST: Walk = Walk {
        position: Position {
            line: 0,
            character: 0,
        },
        is_return: false,
    };

    /// Behind one byte more. A line ends with a line feed, a carriage return, or both.
    fn behind(self, byte: u8) -> Walk
        requires { self.position.line + self.position.character < 2 ^ 62 }
        ensures is { result ≡ walked_behind self byte }
        ensures small { result.position.line + result.position.character ≤ self.position.line + self.position.character + 2 }
    {
        let Position { line, character } = self.position;
        match byte {
            b'\n' if self.is_return => Walk {
                position: Position { line, character: 0 },
                is_return: false,
            },
            b'\n' | b'\r' => Walk {
                position: Position {
                    line: line + 1,
                    character: 0,
                },
                is_return: byte == b'\r',
            },
            _ => Walk {
                position: Position {
                    line,
                    character: character + units(byte),
                },
                is_return: false,
            },
        }
    }
}

/// The units of UTF-16 that begin with a byte of UTF-8.
fn units(byte: u8) -> u64
    ensures is { result ≡ units byte }
    ensures few { result ≤ 2 }
{
    match byte {
        0x00..=0x7f | 0xc0..=0xef => 1,
        0x80..=0xbf => 0,
        _ => 2,
    }
}

/// Tells the positions of bytes in a text. Quickest where it is asked for one behind the other.
#[derive(Drop)]
pub struct Ruler<'a> {
    text: &'a [u8],
    at: usize,
    walk: Walk,
}

impl<'a> Model for Ruler<'a> {
    ghost use Rattle.std.specs.Prelude.{◌≡◌, ◌≤◌, ◌+◌, ◌*◌, ◌^◌, List, ℕ, length, take};
    ghost use Rattle.aom_language_answers.specs.Positions.{walked};

    ghost Value = { List ℕ };

    ghost view = { λ r. r.text.now };

    ghost invariant = { λ r. (length r.text.now ≤ 2 ^ 20) × (r.at ≤ length r.text.now) × (r.walk ≡ walked (take r.at r.text.now)) × (r.walk.position.line + r.walk.position.character ≤ 2 * r.at) };
}

impl<'a> Ruler<'a> {
    /// Of a text, of which no more than the first MiB is looked at.
    pub fn of(text: &'a [u8]) -> Ruler<'a>
        ensures { result ≡ take (min (length text.now) (2 ^ 20)) text.now }
    {
        Ruler {
            text: &text[..text.len().min(MOST_BYTES)],
            at: 0,
            walk: Walk::FIRST,
        }
    }

    /// The position before the byte of a number, or at the end.
    pub fn position(&mut self, at: usize) -> Position
        ensures same { self.new ≡ self.old }
        ensures is { result ≡ position_in self.old at }
    {
        let text = self.text;
        let end = at.min(text.len());
        if end < self.at {
            self.at = 0;
            self.walk = Walk::FIRST;
        }
        while self.at < end {
            self.walk = self.walk.behind(text[self.at]);
            self.at += 1;
        }
        self.walk.position
    }

    /// From one byte to so many behind it.
    pub fn range(&mut self, at: usize, count: usize) -> Range
        requires small { at + count < 2 ^ 64 }
        ensures same { self.new ≡ self.old }
        ensures is { result ≡ range_in self.old at count }
    {
        let start = self.position(at);
        let end = self.position(at + count);
        Range { start, end }
    }
}
