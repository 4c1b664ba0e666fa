//! Numbers.
ghost use Rattle.std.specs.Prelude.{◌≡◌, ◌<◌, ◌^◌};
ghost use Rattle.aom_text.specs.Numbers.{is_digit, number_from, number_of, number_below, number_within, number_signed, SizesAreReported};

/// Sizes from here on are not told apart: each is out of every range.
const MAX: u64 = 1 << 50;

/// A decimal number, with a minus or without.
#[derive(Clone, Copy)]
pub struct Number {
    pub is_negative: bool,
    /// At most 2^50, which also stands for what is larger.
    pub size: u64,
}

impl Number {
    /// The number that a word spells.
    pub fn of(word: &[u8]) -> Option<Number>
        ensures { result ≡ number_of word.now }
    {
        match word {
            [b'-', digits @ ..] => Number::of_digits(true, digits),
            _ => Number::of_digits(false, word),
        }
    }

    fn of_digits(is_negative: bool, digits: &[u8]) -> Option<Number>
        ensures { result ≡ number_from is_negative digits.now }
    {
        if digits.is_empty() {
            return None;
        }
        let mut size = 0;
        for digit in digits {
            if !is_digit(*digit) {
                return None;
            }
            size = (10 * size + u64::from(digit.saturating_sub(b'0'))).min(MAX);
        }
        Some(Number { is_negative, size })
    }

    /// The number, if it is from low to high.
    pub fn within(self, low: u32, high: u32) -> Option<u32>
        ensures { result ≡ number_within low high self }
    {
        let is_below_zero = self.is_negative && self.size != 0;
        if !is_below_zero && u64::from(low) <= self.size && self.size <= u64::from(high) {
            Some(self.size as u32)
        } else {
            None
        }
    }

    /// The number, if it is from 0 to high. Exact however large the number is.
    pub fn up_to(self, high: u64) -> Option<u64>
        requires { high < 2 ^ 50 }
        ensures { result ≡ number_within 0 high self }
    {
        if (!self.is_negative || self.size == 0) && self.size <= high {
            Some(self.size)
        } else {
            None
        }
    }

    /// Whether the number is below a limit. Exact for limits below 2^50, however large the number is.
    pub fn is_below(self, limit: u64) -> bool
        ensures { result ≡ number_below limit self }
    {
        (self.is_negative && self.size != 0) || self.size < limit
    }

    /// The number, if it has 32 bits with its sign.
    pub fn signed(self) -> Option<i32>
        ensures { result ≡ number_signed self }
    {
        if self.is_negative && self.size <= 1 << 31 {
            Some((-(self.size as i64)) as i32)
        } else if !self.is_negative && self.size < 1 << 31 {
            Some(self.size as i32)
        } else {
            None
        }
    }
}

/// Below the most size the sizes that are told are the true ones: no comparison with a limit there goes wrong.
pub fn sizes_are_reported()
    ensures { SizesAreReported }
{}

fn is_digit(b: u8) -> bool
    ensures { result ≡ is_digit b }
{
    matches!(b, b'0'..=b'9')
}
