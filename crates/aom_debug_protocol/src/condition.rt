//! Under what condition a run stops at a breakpoint.
ghost use Rattle.std.specs.Prelude.{◌≡◌, ◌≤◌, length};
ghost use Rattle.aom_text.specs.Numbers.{number_of};
ghost use Rattle.aom_debug_protocol.specs.Conditions.{comparison_named, comparison_said, comparison_text, condition_by, condition_said, holds, one_condition, register_said, word_said};

use crate::DebugFault;
use crate::reading::up_to;
use aom_instructions::Register;
use aom_text::{Number, WordCursor};

/// How two words are compared.
#[derive(Clone, Copy, PartialEq, Eq)]
pub enum Comparison {
    Equal,
    Unequal,
    Less,
}

impl Comparison {
    /// The sign of it, with a space on each side.
    pub fn words(self) -> &'static [u8]
        ensures text { result.now ≡ comparison_text self }
        ensures short { length result.now ≤ 4 }
    {
        match self {
            Comparison::Equal => b" == ",
            Comparison::Unequal => b" != ",
            Comparison::Less => b" < ",
        }
    }

    /// Whether it holds of two words.
    pub fn holds(self, word: i32, other: i32) -> bool
        ensures { result ≡ holds self word other }
    {
        match self {
            Comparison::Equal => word == other,
            Comparison::Unequal => word != other,
            Comparison::Less => word < other,
        }
    }
}

/// When a run stops at a breakpoint.
#[derive(Clone, Copy)]
pub enum Condition {
    Always,
    /// Where a register of the innermost method is a word of which that holds.
    Where(Register, Comparison, i32),
}

/// The comparison of that sign.
fn comparison_named(sign: &[u8]) -> Option<Comparison>
    ensures { result ≡ comparison_named sign.now }
{
    if sign == b"==".as_slice() {
        Some(Comparison::Equal)
    } else if sign == b"!=".as_slice() {
        Some(Comparison::Unequal)
    } else if sign == b"<".as_slice() {
        Some(Comparison::Less)
    } else {
        None
    }
}

/// The register of that name.
fn register_named(name: &[u8]) -> Option<Register>
    ensures { result ≡ register_said name.now }
{
    match name {
        [b'r', digits @ ..] => Register::new(up_to(digits, 15)? as u8),
        _ => None,
    }
}

/// The word that a number is.
fn signed_word(word: &[u8]) -> Option<i32>
    ensures { result ≡ word_said (number_of word.now) }
{
    Number::of(word)?.signed()
}

/// A condition by its three words.
fn compared(register: &[u8], sign: &[u8], word: &[u8]) -> Option<Condition>
    ensures { result ≡ condition_by (register_said register.now) (comparison_named sign.now) (word_said (number_of word.now)) }
{
    match (
        register_named(register),
        comparison_named(sign),
        signed_word(word),
    ) {
        (Some(register), Some(comparison), Some(word)) => {
            Some(Condition::Where(register, comparison, word))
        }
        _ => None,
    }
}

/// The condition that words say.
pub fn read_comparison(mut words: WordCursor) -> Option<Condition>
    ensures { result ≡ comparison_said words.entry }
{
    match (words.next(), words.next(), words.next()) {
        (Some(register), Some(sign), Some(word)) if words.is_empty() => {
            compared(register, sign, word)
        }
        _ => None,
    }
}

/// A condition, or none that there is.
fn one_condition(condition: Option<Condition>) -> Result<Condition, DebugFault>
    ensures { result ≡ one_condition condition }
{
    match condition {
        Some(condition) => Ok(condition),
        None => Err(DebugFault::BadCommand),
    }
}

/// What is said behind a place: a condition behind `if`, or nothing, which is always.
pub fn read_condition(mut words: WordCursor) -> Result<Condition, DebugFault>
    ensures { result ≡ condition_said words.entry }
{
    match words.next() {
        None => Ok(Condition::Always),
        Some(word) if word == b"if".as_slice() => one_condition(read_comparison(words)),
        Some(_) => Err(DebugFault::BadCommand),
    }
}
