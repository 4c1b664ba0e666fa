//! Words.
ghost use Rattle.std.specs.Prelude.{◌≡◌, ◌≤◌, length, not, option_map};
ghost use Rattle.std.specs.List.{list_all, position_or_len};
ghost use Rattle.aom_text.specs.Words.{is_blank, is_plain, words, split_by, first_of, is_none_left, others_of};

use std::marker::Model;

pub fn is_blank(b: u8) -> bool
    ensures { result ≡ is_blank b }
{
    matches!(b, b' ' | b'\t' | b'\r')
}

pub fn is_plain(b: u8) -> bool
    ensures { result ≡ is_plain b }
{
    matches!(b, 32..=126) || is_blank(b)
}

/// Whether a word has no byte that a text may not have.
pub fn is_text_word(word: &[u8]) -> bool
    ensures { result ≡ list_all is_plain word.now }
{
    word.iter().all(|b| is_plain(*b))
}

/// The words that are still to be read of a statement.
#[derive(Drop)]
pub struct WordCursor<'a> {
    rest: &'a [u8],
}

impl<'a> Model for WordCursor<'a> {
    ghost use Rattle.std.specs.Prelude.{ℕ, List};
    ghost use Rattle.aom_text.specs.Words.{words};

    ghost Value = { List (List ℕ) };

    ghost view = { λ w. words w.rest.now };
}

impl<'a> WordCursor<'a> {
    pub fn of(part: &'a [u8]) -> WordCursor<'a>
        ensures { result ≡ words part.now }
    {
        WordCursor { rest: part }
    }

    /// The same words, to be read on their own.
    pub fn again(&self) -> WordCursor<'a>
        ensures { result ≡ self.now }
    {
        WordCursor { rest: self.rest }
    }

    /// The next word, which stays to be read.
    pub fn peek(&self) -> Option<&'a [u8]>
        ensures { option_map (λ w. w.now) result ≡ first_of self.now }
    {
        match first_word(self.rest) {
            Some((word, _)) => Some(word),
            None => None,
        }
    }

    pub fn is_empty(&self) -> bool
        ensures { result ≡ is_none_left self.now }
    {
        self.peek().is_none()
    }

    /// The next word, which is read.
    pub fn next(&mut self) -> Option<&'a [u8]>
        ensures word { option_map (λ w. w.now) result ≡ first_of self.old }
        ensures rest { self.new ≡ others_of self.old }
    {
        match first_word(self.rest) {
            Some((word, rest)) => {
                self.rest = rest;
                Some(word)
            }
            None => { None }
        }
    }
}

/// The first word of a part of a line, and what comes after it.
fn first_word(bytes: &[u8]) -> Option<(&[u8], &[u8])>
    ensures { words bytes.now ≡ split_by (λ w. w.now) (λ r. words r.now) result }
{
    let start = leading_blanks(bytes);
    if start == bytes.len() {
        return None;
    }
    let inked = &bytes[start..];
    let end = word_length(inked);
    if end == inked.len() {
        return Some((inked, &[]));
    }
    Some((&inked[..end], &inked[end + 1..]))
}

/// How many bytes come before the first that is no blank.
fn leading_blanks(bytes: &[u8]) -> usize
    ensures count { result ≡ position_or_len (λ b. not (is_blank b)) bytes.now }
    ensures within { result ≤ length bytes.now }
{
    let mut count = 0;
    while count < bytes.len() && is_blank(bytes[count]) {
        count += 1;
    }
    count
}

/// How many bytes come before the first blank.
fn word_length(bytes: &[u8]) -> usize
    ensures count { result ≡ position_or_len is_blank bytes.now }
    ensures within { result ≤ length bytes.now }
{
    let mut count = 0;
    while count < bytes.len() && !is_blank(bytes[count]) {
        count += 1;
    }
    count
}
