//! A text in a buffer of a fixed size.
ghost use Rattle.std.specs.Prelude.{◌≡◌, ◌+◌, ◌≤◌, ◌↔◌, IsTrue, [], ◌++◌, length, take};

use arrayvec::ArrayVec;
use itoa::{Buffer, Integer};
use std::marker::Model;

/// At most so many bytes.
#[derive(Drop)]
pub struct Text<const N: usize> {
    bytes: ArrayVec<u8, N>,
}

impl<const N: usize> Model for Text<N> {
    ghost use Rattle.std.specs.Prelude.{ℕ, List};

    ghost Value = { List ℕ };

    ghost view = { λ t. t.bytes.items };
}

impl<const N: usize> Text<N> {
    pub fn new() -> Text<N>
        ensures { result ≡ [] }
    {
        Text {
            bytes: ArrayVec::new(),
        }
    }

    pub fn len(&self) -> usize
        ensures { result ≡ length self.now }
    {
        self.bytes.len()
    }

    pub fn has_room(&self, count: usize) -> bool
        ensures { IsTrue result ↔ (length self.now + count ≤ N) }
    {
        count <= self.bytes.remaining_capacity()
    }

    pub fn as_bytes(&self) -> &[u8]
        ensures { result.now ≡ self.now }
    {
        self.bytes.as_slice()
    }

    /// Back to its first so many bytes.
    pub fn cut(&mut self, length: usize)
        ensures { self.new ≡ take length self.old }
    {
        self.bytes.truncate(length);
    }

    #[inline(always)]
    pub fn add(&mut self, words: &[u8])
        requires { length self.old + length words.now ≤ N }
        ensures text { self.new ≡ self.old ++ words.now }
        ensures long { length self.new ≡ length self.old + length words.now }
    {
        self.bytes.try_extend_from_slice(words).unwrap();
    }

    #[inline]
    pub fn add_number<I: Integer>(&mut self, number: I)
        requires { length self.old + I.MAX_STR_LEN ≤ N }
        ensures text { self.new ≡ self.old ++ I.text number }
        ensures short { length self.new ≤ length self.old + I.MAX_STR_LEN }
    {
        let mut buffer = Buffer::new();
        self.add(buffer.format(number).as_bytes());
    }

    /// Words, and a number behind them.
    #[inline(always)]
    pub fn add_count<I: Integer>(&mut self, words: &[u8], number: I)
        requires { length self.old + length words.now + I.MAX_STR_LEN ≤ N }
        ensures text { self.new ≡ self.old ++ words.now ++ I.text number }
        ensures short { length self.new ≤ length self.old + length words.now + I.MAX_STR_LEN }
    {
        self.add(words);
        self.add_number(number);
    }
}
