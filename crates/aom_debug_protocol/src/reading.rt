//! Paths, as the map of owners spells them.
ghost use Rattle.std.specs.Prelude.{◌≡◌, ◌≤◌, ◌<◌, ◌∷◌, IfSome, Some, length, option_map};
ghost use Rattle.std.specs.List.{position, slice_split};
ghost use Rattle.aom_text.specs.Numbers.{number_of};
ghost use Rattle.aom_debug_protocol.specs.Ways.{branch_said, branches_said, field_said, is_dot, numbered_outer, parts_in, path_by, path_from, path_said, plain_outer, register_by, register_outer, session_said, up_to};

use crate::path::Path;
use crate::way::{Branch, ClientNumber, Outer};
use aom_instructions::{FieldIndex, Register};
use aom_text::{Number, WordCursor};

/// The way that words spell.
pub fn read_path(mut words: WordCursor) -> Option<Path>
    ensures { result ≡ path_said words.entry }
{
    match (words.next(), words.next(), words.next()) {
        (Some(place), None, _) => read_plain(place),
        (Some(place), Some(number), None) => read_numbered(place, number),
        (Some(place), Some(number), Some(register)) if words.is_empty() => {
            read_register(place, number, register)
        }
        _ => None,
    }
}

/// The way from a place that has no number.
pub(crate) fn read_plain(word: &[u8]) -> Option<Path>
    ensures { result ≡ path_by plain_outer (slice_split is_dot word.now) }
{
    let (place, rest) = first_part(word);
    read_branches(plain_outer(place)?, rest)
}

/// The way from a place with a number.
pub(crate) fn read_numbered(place: &[u8], word: &[u8]) -> Option<Path>
    ensures { result ≡ path_by (numbered_outer place.now) (slice_split is_dot word.now) }
{
    let (number, rest) = first_part(word);
    read_branches(numbered_outer(place, number)?, rest)
}

/// The way from a register of a method.
pub(crate) fn read_register(place: &[u8], frame: &[u8], word: &[u8]) -> Option<Path>
    ensures { result ≡ path_by (register_outer place.now frame.now) (slice_split is_dot word.now) }
{
    let (register, rest) = first_part(word);
    read_branches(register_outer(place, frame, register)?, rest)
}

fn plain_outer(place: &[u8]) -> Option<Outer>
    ensures { result ≡ plain_outer place.now }
{
    if place == b"root".as_slice() {
        Some(Outer::Root)
    } else if place == b"service".as_slice() {
        Some(Outer::Service)
    } else {
        None
    }
}

fn numbered_outer(place: &[u8], number: &[u8]) -> Option<Outer>
    ensures { result ≡ numbered_outer place.now number.now }
{
    if place == b"clean".as_slice() {
        Some(Outer::Entry(up_to(number, 65_535)? as u16))
    } else if place == b"going".as_slice() {
        Some(Outer::Going(up_to(number, 65_535)? as u16))
    } else {
        None
    }
}

fn register_outer(place: &[u8], frame: &[u8], register: &[u8]) -> Option<Outer>
    ensures { result ≡ register_outer place.now frame.now register.now }
{
    match register {
        [b'r', digits @ ..] if place == b"reg".as_slice() => register_by(frame, digits),
        _ => None,
    }
}

fn register_by(frame: &[u8], digits: &[u8]) -> Option<Outer>
    ensures { result ≡ register_by (up_to 65535 (number_of frame.now)) (up_to 15 (number_of digits.now)) }
{
    match (up_to(frame, 65_535), up_to(digits, 15)) {
        (Some(frame), Some(register)) => Some(Outer::Register(
            frame as u16,
            Register::new(register as u8).unwrap(),
        )),
        _ => None,
    }
}

/// The number that a word spells, from 0 to high.
pub(crate) fn up_to(word: &[u8], high: u32) -> Option<u32>
    ensures value { result ≡ up_to high (number_of word.now) }
    ensures within { IfSome result (λ n. n ≤ high) }
{
    Number::of(word)?.within(0, high)
}

/// Where the first dot is.
fn find_dot(bytes: &[u8]) -> Option<usize>
    ensures value { result ≡ position is_dot bytes.now }
    ensures within { IfSome result (λ at. at < length bytes.now) }
{
    bytes.iter().position(|byte| *byte == b'.')
}

/// What stands before the first dot, and behind it, if there is one.
fn first_part(bytes: &[u8]) -> (&[u8], Option<&[u8]>)
    ensures parts { slice_split is_dot bytes.now ≡ result.0.now ∷ parts_in (option_map (λ r. r.now) result.1) }
    ensures shorter { IfSome result.1 (λ r. length r.now < length bytes.now) }
{
    match find_dot(bytes) {
        Some(at) => (&bytes[..at], Some(&bytes[at + 1..])),
        None => (bytes, None),
    }
}

/// The way from a place on by what stands between dots.
fn read_branches(outer: Outer, mut rest: Option<&[u8]>) -> Option<Path>
    ensures { result ≡ path_from (Some outer) (branches_said (parts_in (option_map (λ r. r.now) rest.entry))) }
{
    let mut path = Path::to(outer);
    while let Some(bytes) = rest {
        let (part, later) = first_part(bytes);
        let branch = read_branch(part)?;
        path = path.further(branch)?;
        rest = later;
    }
    Some(path)
}

fn read_branch(part: &[u8]) -> Option<Branch>
    ensures { result ≡ branch_said part.now }
{
    match part {
        [b'f', digits @ ..] => read_field(digits),
        [b's', digits @ ..] => read_session(digits),
        _ => None,
    }
}

fn read_field(digits: &[u8]) -> Option<Branch>
    ensures { result ≡ field_said (up_to 7 (number_of digits.now)) }
{
    let number = up_to(digits, 7)?;
    Some(Branch::Field(FieldIndex::new(number as u8).unwrap()))
}

fn read_session(digits: &[u8]) -> Option<Branch>
    ensures { result ≡ session_said (up_to 63 (number_of digits.now)) }
{
    let number = up_to(digits, 63)?;
    Some(Branch::Session(ClientNumber::new(number as u8).unwrap()))
}
