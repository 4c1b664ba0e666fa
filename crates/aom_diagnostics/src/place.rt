//! Where a fault is: a line of a text, or an instruction of a method.
ghost use Rattle.std.specs.Prelude.{◌≡◌, ◌≤◌, ◌++◌, OnOk, length, map, take};
ghost use Rattle.aom_diagnostics.specs.Places.{heading_text, instruction_text, line_text, method_text, numbered_line, shown_byte, word_text};

use aom_cost_report::FigureWriter;
use aom_disassembler::{heading_line, line_at};
use aom_image::{Image, Method, MethodNumber};
use aom_text::split_line;
use std::alloc::{AllocError, Global};

/// No more bytes of a line are shown.
const MAX_SHOWN: usize = 200;

/// The line of a text that has that number, counted from 1. Behind the last line there is nothing.
fn numbered_line(text: &[u8], number: u32) -> &[u8]
    ensures { result.now ≡ numbered_line text.now number }
{
    let mut rest = text;
    let mut before = number.saturating_sub(1);
    while before > 0 && !rest.is_empty() {
        rest = split_line(rest).1;
        before -= 1;
    }
    if rest.is_empty() {
        return rest;
    }
    split_line(rest).0
}

/// How a byte is shown: a blank as a space, and what a line may not have as a question mark.
fn shown_byte(byte: u8) -> u8
    ensures { result ≡ shown_byte byte }
{
    match byte {
        b'\t' | b'\r' => b' ',
        b' '..=b'~' => byte,
        _ => b'?',
    }
}

fn write_shown(out: &mut FigureWriter, bytes: &[u8]) -> Result<(), AllocError>
    ensures { OnOk result (out.new ≡ out.old ++ map shown_byte bytes.now) }
{
    for byte in bytes {
        out.words(&[shown_byte(*byte)])?;
    }
    Ok(())
}

/// What is shown of a line.
fn beginning(line: &[u8]) -> &[u8]
    ensures { result.now ≡ take 200 line.now }
{
    &line[..MAX_SHOWN.min(line.len())]
}

/// Writes a line of a text, of a long one its beginning.
pub fn write_line(out: &mut FigureWriter, text: &[u8], number: u32) -> Result<(), AllocError>
    ensures { OnOk result (out.new ≡ out.old ++ line_text text.now number) }
{
    out.count(b"Line ", u64::from(number))?;
    out.words(b": ")?;
    write_shown(out, beginning(numbered_line(text, number)))?;
    out.words(b"\n")
}

/// Writes a word of a text.
pub fn write_word(out: &mut FigureWriter, word: &[u8]) -> Result<(), AllocError>
    ensures { OnOk result (out.new ≡ out.old ++ word_text word.now) }
{
    out.words(b"Word: ")?;
    write_shown(out, word)?;
    out.words(b"\n")
}

/// Writes the line of a listing that declares a method.
pub(crate) fn write_heading(
    alloc: Global,
    out: &mut FigureWriter,
    number: MethodNumber,
    method: &Method,
) -> Result<(), AllocError>
    ensures { OnOk result (out.new ≡ out.old ++ heading_text number method.now) }
{
    let line = heading_line(alloc, u32::from(number.number()), method)?;
    out.words(b"In: ")?;
    out.words(&line)
}

/// Writes the line of a listing that has the instruction at a place.
fn write_instruction(
    alloc: Global,
    out: &mut FigureWriter,
    method: &Method,
    place: usize,
) -> Result<(), AllocError>
    requires { length method.now.code ≤ 1024 }
    ensures { OnOk result (out.new ≡ out.old ++ instruction_text place method.now) }
{
    let line = line_at(alloc, method.code.as_slice(), place)?;
    out.count(b"At ", place as u64)?;
    out.words(b": ")?;
    out.words(&line)
}

/// Writes what a listing says of a method and of one of its places.
pub fn write_method(
    alloc: Global,
    out: &mut FigureWriter,
    image: &Image,
    number: MethodNumber,
    place: usize,
) -> Result<(), AllocError>
    ensures { OnOk result (out.new ≡ out.old ++ method_text image.now number place) }
{
    match image.methods().as_slice().get(number.number() as usize) {
        None => Ok(()),
        Some(method) => {
            write_heading(alloc, out, number, method)?;
            write_instruction(alloc, out, method, place)
        }
    }
}
