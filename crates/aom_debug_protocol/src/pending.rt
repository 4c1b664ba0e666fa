//! The line that is not yet whole.
ghost use Rattle.std.specs.Prelude.{◌≡◌, ℕ, List, [], ◌∷◌, ◌++◌, ◌==◌, length, option_map};
ghost use Rattle.aom_debug_protocol.specs.Lines.{fitting_line, pending_of};

use arrayvec::ArrayVec;
use std::marker::Model;

/// What has come of a line: its first 256 bytes, and whether there were more.
#[derive(Drop)]
pub struct Pending {
    bytes: ArrayVec<u8, 256>,
    is_long: bool,
}

impl Model for Pending {
    ghost use Rattle.aom_debug_protocol.specs.Lines.{Kept};

    ghost Value = { Kept };

    ghost view = { λ p. record { bytes = p.bytes.items; is_long = p.is_long } };
}

impl Pending {
    /// Nothing has come.
    pub fn new() -> Pending
        ensures { result ≡ pending_of [] }
    {
        Pending {
            bytes: ArrayVec::new(),
            is_long: false,
        }
    }

    /// One byte more has come, which is no line feed.
    pub fn add(&mut self, byte: u8)
        ensures { (line : List ℕ) → self.old ≡ pending_of line → self.new ≡ pending_of (line ++ byte ∷ []) }
    {
        if self.bytes.is_full() {
            self.is_long = true;
        } else {
            self.bytes.push(byte);
        }
    }

    /// Whether nothing has come.
    pub fn is_empty(&self) -> bool
        ensures { (line : List ℕ) → self.now ≡ pending_of line → result ≡ (length line == 0) }
    {
        self.bytes.is_empty()
    }

    /// The line, where it is no longer than one may be.
    pub fn line(&self) -> Option<&[u8]>
        ensures { (line : List ℕ) → self.now ≡ pending_of line → option_map (λ l. l.now) result ≡ fitting_line line }
    {
        if self.is_long {
            return None;
        }
        Some(self.bytes.as_slice())
    }

    /// The next line begins.
    pub fn clear(&mut self)
        ensures { self.new ≡ pending_of [] }
    {
        self.bytes.clear();
        self.is_long = false;
    }
}
