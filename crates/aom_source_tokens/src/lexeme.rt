//! The token at the head of bytes.
ghost use Rattle.std.specs.Prelude.{◌≡◌, ◌+◌, ◌<◌, ◌≤◌, ◌^◌, length, MatchResult, IfOk, if◌then◌else◌, nat_lt, Ok, Err};
ghost use Rattle.aom_source_tokens.specs.Numbers.{decimal_value, hexadecimal_value, hexadecimal_digit};
ghost use Rattle.aom_source_tokens.specs.Tokens.{sized, word_of, lexed, lexed_mark, lexed_number, lexed_word, begins_hexadecimal};

use crate::bytes::{
    hexadecimal_length, is_digit, is_hexadecimal, is_letter, name_length, number_length,
};
use crate::{Keyword, Kind, Mark, TokenFaultKind};

/// What the first token of bytes is, and how many bytes it has. They begin with no blank and no comment.
pub fn lexeme(bytes: &[u8]) -> Result<(Kind<'_>, usize), TokenFaultKind>
    ensures lexed { MatchResult result (λ p. lexed bytes.now ≡ Ok (word_of p.0, p.1)) (λ e. lexed bytes.now ≡ Err e) }
    ensures within { IfOk result (λ p. p.1 ≤ length bytes.now) }
{
    if bytes.is_empty() {
        return Ok((Kind::End, 0));
    }
    let first = bytes[0];
    if is_digit(first) {
        number(bytes)
    } else if is_letter(first) {
        Ok(word(bytes))
    } else {
        mark(bytes)
    }
}

/// The keyword or name that comes first.
fn word(bytes: &[u8]) -> (Kind<'_>, usize)
    ensures lexed { (word_of result.0, result.1) ≡ lexed_word bytes.now }
    ensures within { result.1 ≤ length bytes.now }
{
    let length = name_length(bytes);
    let word = &bytes[..length];
    match Keyword::of(word) {
        Some(keyword) => (Kind::Keyword(keyword), length),
        None => (Kind::Name(word), length),
    }
}

/// The mark that comes first, of two bytes where it can be.
fn mark(bytes: &[u8]) -> Result<(Kind<'_>, usize), TokenFaultKind>
    requires { 0 < length bytes.now }
    ensures lexed { MatchResult result (λ p. lexed_mark bytes.now ≡ Ok (word_of p.0, p.1)) (λ e. lexed_mark bytes.now ≡ Err e) }
    ensures within { IfOk result (λ p. p.1 ≤ length bytes.now) }
{
    if bytes.len() >= 2 {
        if let Some(mark) = Mark::of_two(bytes[0], bytes[1]) {
            return Ok((Kind::Mark(mark), 2));
        }
    }
    match Mark::of_one(bytes[0]) {
        Some(mark) => Ok((Kind::Mark(mark), 1)),
        None => Err(TokenFaultKind::BadByte),
    }
}

/// The number that comes first.
fn number(bytes: &[u8]) -> Result<(Kind<'_>, usize), TokenFaultKind>
    ensures lexed { MatchResult result (λ p. lexed_number bytes.now ≡ Ok (word_of p.0, p.1)) (λ e. lexed_number bytes.now ≡ Err e) }
    ensures within { IfOk result (λ p. p.1 ≤ length bytes.now) }
{
    if is_hexadecimal_number(bytes) {
        let length = 2 + hexadecimal_length(&bytes[2..]);
        let value = hexadecimal_value(&bytes[2..length])?;
        return Ok((Kind::Number(value), length));
    }
    let length = number_length(bytes);
    let value = decimal_value(&bytes[..length])?;
    Ok((Kind::Number(value), length))
}

fn is_hexadecimal_number(bytes: &[u8]) -> bool
    ensures { result ≡ begins_hexadecimal bytes.now }
{
    bytes.len() >= 3 && bytes[0] == b'0' && bytes[1] == b'x' && is_hexadecimal(bytes[2])
}

/// What digits say, with `_` between them.
fn decimal_value(digits: &[u8]) -> Result<u32, TokenFaultKind>
    ensures { result ≡ sized (decimal_value digits.now) }
{
    let mut value: u64 = 0;
    for byte in digits {
        if *byte != b'_' {
            value = 10 * value + u64::from(byte.saturating_sub(b'0'));
            if value >= 1 << 32 {
                return Err(TokenFaultKind::NumberRange);
            }
        }
    }
    Ok(value as u32)
}

/// What hexadecimal digits say.
fn hexadecimal_value(digits: &[u8]) -> Result<u32, TokenFaultKind>
    ensures { result ≡ sized (hexadecimal_value digits.now) }
{
    let mut value: u64 = 0;
    for byte in digits {
        value = 16 * value + u64::from(hexadecimal_digit(*byte));
        if value >= 1 << 32 {
            return Err(TokenFaultKind::NumberRange);
        }
    }
    Ok(value as u32)
}

fn hexadecimal_digit(byte: u8) -> u8
    ensures { result ≡ hexadecimal_digit byte }
{
    if byte >= b'a' {
        byte - 87
    } else if byte >= b'A' {
        byte - 55
    } else {
        byte.saturating_sub(b'0')
    }
}
