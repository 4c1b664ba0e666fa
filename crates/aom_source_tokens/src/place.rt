//! Places in a text.
ghost use Rattle.std.specs.Prelude.{◌≡◌, ◌+◌, ◌*◌, ◌<◌, ◌≤◌, ◌^◌, length};
ghost use Rattle.aom_source_tokens.specs.Places.{place_behind, place_after};

/// A byte of a text, counted from 0, and its line and column, both counted from 1.
#[derive(Clone, Copy, PartialEq, Eq, Debug)]
pub struct Place {
    pub at: u32,
    pub line: u32,
    pub column: u32,
}

impl Place {
    pub const FIRST: Place = Place {
        at: 0,
        line: 1,
        column: 1,
    };

    /// The place behind a byte that stands here.
    pub(crate) fn behind(self, byte: u8) -> Place
        requires at { self.at < 2 ^ 31 }
        requires line { self.line + self.column < 2 ^ 31 }
        ensures behind { result ≡ place_behind self byte }
        ensures at { result.at ≡ self.at + 1 }
        ensures small { result.line + result.column ≤ self.line + self.column + 2 }
    {
        if byte == b'\n' {
            Place {
                at: self.at + 1,
                line: self.line + 1,
                column: 1,
            }
        } else {
            Place {
                at: self.at + 1,
                line: self.line,
                column: self.column + 1,
            }
        }
    }

    /// The place behind bytes of which the first stands here.
    pub(crate) fn after(self, bytes: &[u8]) -> Place
        requires at { self.at + length bytes.now < 2 ^ 31 }
        requires line { self.line + self.column + 2 * length bytes.now < 2 ^ 31 }
        ensures after { result ≡ place_after self bytes.now }
        ensures at { result.at ≡ self.at + length bytes.now }
        ensures small { result.line + result.column ≤ self.line + self.column + 2 * length bytes.now }
    {
        let mut place = self;
        for byte in bytes {
            place = place.behind(*byte);
        }
        place
    }
}
