//! A fault, as the protocol has it.
ghost use Rattle.std.specs.Prelude.{◌≡◌, ◌≤◌, ◌+◌, ◌<◌, ◌^◌, IfOk, drop, length};
ghost use Rattle.serde_json.specs.View.{view};
ghost use Rattle.aom_language_answers.specs.Diagnostics.{diagnostic_data, is_word_byte, word_length, word_bytes};

use crate::position::Ruler;
use serde_json::{Value, json};
use std::alloc::{AllocError, Global};

/// A fault of a text: at the word that begins at a byte, with its name and what is said of it.
pub fn diagnostic(
    alloc: Global,
    ruler: &mut Ruler<'_>,
    text: &[u8],
    at: u32,
    fault: &str,
    message: &str,
) -> Result<Value, AllocError>
    requires { length text.now < 2 ^ 32 }
    ensures same { ruler.new ≡ ruler.old }
    ensures is { IfOk result (λ v. view v ≡ diagnostic_data ruler.old text.now at fault.now message.now) }
{
    let range = ruler
        .range(at as usize, word_length(text, at as usize))
        .to_value(alloc)?;
    json!(in alloc; {"range": range, "severity": 1, "source": "aom", "code": fault, "message": message})
}

/// How many bytes the word has that begins at a byte: letters, digits and underscores, or one byte of another kind, or none at the end.
fn word_length(text: &[u8], at: usize) -> usize
    ensures is { result ≡ word_length (drop at text.now) }
    ensures within { result ≤ length text.now }
{
    if text.len() <= at {
        return 0;
    }
    let rest = &text[at..];
    let count = word_bytes(rest);
    if count == 0 { 1 } else { count }
}

fn word_bytes(rest: &[u8]) -> usize
    ensures is { result ≡ word_bytes rest.now }
    ensures within { result ≤ length rest.now }
{
    let mut count = 0;
    while count < rest.len() && is_word_byte(rest[count]) {
        count += 1;
    }
    count
}

fn is_word_byte(byte: u8) -> bool
    ensures { result ≡ is_word_byte byte }
{
    matches!(byte, b'a'..=b'z' | b'A'..=b'Z' | b'0'..=b'9' | b'_')
}
