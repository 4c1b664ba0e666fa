//! Heads: where one ends, and the length that it says.
ghost use Rattle.std.specs.Prelude.{◌≡◌};
ghost use Rattle.aom_text.specs.Text.{lines_of};
ghost use Rattle.aom_message_framing.specs.Frames.{first_length, is_whole, length_in, size_of, without_return};

use aom_text::{Number, split_line};

/// The name of the field with the length.
const FIELD: &[u8] = b"Content-Length: ";

/// The greatest length that is told.
const GREATEST: u64 = (1 << 50) - 1;

/// Whether a head is whole: an empty line is its last.
pub fn is_whole(head: &[u8]) -> bool
    ensures { result ≡ is_whole head.now }
{
    let from = head.len().saturating_sub(4);
    &head[from..] == b"\r\n\r\n".as_slice()
}

/// The length that a head says.
pub fn announced(head: &[u8]) -> Option<u64>
    ensures { result ≡ first_length (lines_of head.now) }
{
    let mut rest = head;
    while !rest.is_empty() {
        let (line, behind) = split_line(rest);
        if let Some(length) = length_in(line) {
            return Some(length);
        }
        rest = behind;
    }
    None
}

/// The length that a line of a head says, if it is the field of that.
fn length_in(line: &[u8]) -> Option<u64>
    ensures { result ≡ length_in line.now }
{
    let size = line.len().min(FIELD.len());
    if &line[..size] != FIELD {
        return None;
    }
    size_of(Number::of(without_return(&line[size..])))
}

fn without_return(value: &[u8]) -> &[u8]
    ensures { result.now ≡ without_return value.now }
{
    let digits = value.len().saturating_sub(1);
    if &value[digits..] == b"\r".as_slice() {
        return &value[..digits];
    }
    value
}

/// A number without a minus.
fn size_of(number: Option<Number>) -> Option<u64>
    ensures { result ≡ size_of number }
{
    let number = number?;
    if number.is_negative {
        return None;
    }
    number.up_to(GREATEST)
}
