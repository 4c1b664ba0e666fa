//! The words of a statement, read from the left.
ghost use Rattle.std.specs.Prelude.{◌≡◌, ◌≤◌, IfOk};
ghost use Rattle.aom_text.specs.Words.{is_none_left, first_of};
ghost use Rattle.aom_syntax.specs.Reading.{Reads, word, took, keyword, any_keyword, nothing_more, number, number_in, optional_number, name};

use crate::Keyword;
use crate::keyword::unexpected_word;
use aom_text::{AsmFaultKind, Number, WordCursor, is_name, is_text_word};
use std::marker::Model;

/// The words that are still to be read. After a fault nothing is said of them.
#[derive(Drop)]
pub struct WordReader<'a> {
    words: WordCursor<'a>,
}

impl<'a> Model for WordReader<'a> {
    ghost use Rattle.std.specs.Prelude.{ℕ, List};

    ghost Value = { List (List ℕ) };

    ghost view = { λ r. r.words };
}

impl<'a> WordReader<'a> {
    pub fn of(words: WordCursor<'a>) -> WordReader<'a>
        ensures { result ≡ words.entry }
    {
        WordReader { words }
    }

    pub fn is_empty(&self) -> bool
        ensures { result ≡ is_none_left self.now }
    {
        self.words.is_empty()
    }

    pub fn word(&mut self) -> Result<&'a [u8], AsmFaultKind>
        ensures { Reads (λ w. (w.now, self.new)) result (word self.old) }
    {
        match self.words.next() {
            Some(next) if is_text_word(next) => Ok(next),
            Some(_) => Err(AsmFaultKind::NotAscii),
            None => Err(AsmFaultKind::BadShape),
        }
    }

    /// Whether the next word is this one, which is then read.
    pub fn took(&mut self, key: Keyword) -> bool
        ensures { (result, self.new) ≡ took key self.old }
    {
        match self.words.peek() {
            Some(next) if next == key.text() => {
                self.words.next();
                true
            }
            _ => false,
        }
    }

    /// The keyword that has to stand here.
    pub fn keyword(&mut self, key: Keyword) -> Result<(), AsmFaultKind>
        ensures { Reads (λ x. (x, self.new)) result (keyword key self.old) }
    {
        let next = self.word()?;
        if next == key.text() {
            Ok(())
        } else {
            Err(unexpected_word(next))
        }
    }

    pub fn any_keyword(&mut self) -> Result<Keyword, AsmFaultKind>
        ensures { Reads (λ x. (x, self.new)) result (any_keyword self.old) }
    {
        let next = self.word()?;
        match Keyword::of(next) {
            Some(keyword) => Ok(keyword),
            None => Err(unexpected_word(next)),
        }
    }

    /// No word is left. A left-over one is judged as a keyword where some could follow.
    pub fn nothing_more(&mut self, expecting: bool) -> Result<(), AsmFaultKind>
        ensures { Reads (λ x. (x, self.new)) result (nothing_more expecting self.old) }
    {
        if self.is_empty() {
            return Ok(());
        }
        let next = self.word()?;
        if expecting {
            Err(unexpected_word(next))
        } else {
            Err(AsmFaultKind::BadShape)
        }
    }

    /// A number from low to high.
    pub fn number(&mut self, low: u32, high: u32) -> Result<u32, AsmFaultKind>
        ensures read { Reads (λ x. (x, self.new)) result (number low high self.old) }
        ensures within { IfOk result (λ n. (low ≤ n) × (n ≤ high)) }
    {
        let next = self.word()?;
        number_in(next, low, high)
    }

    /// A number behind its keyword, and else 0.
    pub fn optional_number(&mut self, key: Keyword, high: u32) -> Result<u32, AsmFaultKind>
        ensures read { Reads (λ x. (x, self.new)) result (optional_number key high self.old) }
        ensures within { IfOk result (λ n. n ≤ high) }
    {
        if self.took(key) {
            self.number(0, high)
        } else {
            Ok(0)
        }
    }

    /// A name that is declared here.
    pub fn name(&mut self) -> Result<&'a [u8], AsmFaultKind>
        ensures { Reads (λ w. (w.now, self.new)) result (name self.old) }
    {
        let next = self.word()?;
        if is_name(next) {
            Ok(next)
        } else {
            Err(AsmFaultKind::BadShape)
        }
    }
}

fn number_in(word: &[u8], low: u32, high: u32) -> Result<u32, AsmFaultKind>
    ensures read { result ≡ number_in low high word.now }
    ensures within { IfOk result (λ n. (low ≤ n) × (n ≤ high)) }
{
    match Number::of(word) {
        Some(number) => number.within(low, high).ok_or(AsmFaultKind::LimitPassed),
        None => Err(AsmFaultKind::BadNumber),
    }
}
