//! Sets of request states.
ghost use Rattle.std.specs.Prelude.{◌≡◌, ◌<◌, ◌≤◌};
ghost use Rattle.aom_syntax.specs.Methods.{cut_letter, letters_of, states_of};

use aom_image::States;
use aom_text::AsmFaultKind;

/// The set of these bits.
pub fn set_of(bits: u8) -> States
    requires { bits < 64 }
    ensures { result.0 ≡ bits }
{
    match States::of_byte(bits) {
        Some(states) => states,
        None => States::NONE,
    }
}

/// A letter in front, as its bit, and what comes after it.
fn cut_letter(word: &[u8], letter: u8, bit: u8) -> (u8, &[u8])
    ensures cut { (result.0, result.1.now) ≡ cut_letter letter bit word.now }
    ensures bit { result.0 ≤ bit }
{
    match word {
        [first, rest @ ..] if *first == letter => (bit, rest),
        _ => (0, word),
    }
}

/// Letters of `uisaod` in this order, and what comes after them.
fn letters_of(word: &[u8]) -> (u8, &[u8])
    ensures letters { (result.0, result.1.now) ≡ letters_of word.now }
    ensures few { result.0 < 64 }
{
    let (unlisted, word) = cut_letter(word, b'u', 1);
    let (idle, word) = cut_letter(word, b'i', 2);
    let (issued, word) = cut_letter(word, b's', 4);
    let (active, word) = cut_letter(word, b'a', 8);
    let (open, word) = cut_letter(word, b'o', 16);
    let (done, word) = cut_letter(word, b'd', 32);
    (unlisted + idle + issued + active + open + done, word)
}

/// The set that a word spells, where `-` is the empty one.
pub fn states_of(word: &[u8]) -> Result<States, AsmFaultKind>
    ensures { result ≡ states_of word.now }
{
    if word == b"-".as_slice() {
        return Ok(States::NONE);
    }
    let (bits, rest) = letters_of(word);
    if rest.is_empty() {
        Ok(set_of(bits))
    } else {
        Err(AsmFaultKind::BadShape)
    }
}
