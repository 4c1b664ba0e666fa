//! A sink that takes no memory.
ghost use Rattle.std.specs.Prelude.{◌≡◌, ◌==◌, ◌&&◌, length, nat_eq, false};
ghost use Rattle.std.specs.List.{starts_with};

use aom_transcript::Sink;

/// A sink for 256 bytes that takes no memory.
#[derive(Drop)]
pub struct FixedSink {
    pub text: [u8; 256],
    pub length: usize,
    pub is_full: bool,
}

impl Sink for FixedSink {
    ghost use Rattle.std.specs.Prelude.{None};

    ghost out = { λ _. None };

    ghost failed = { λ s. s.is_full };

    fn put(&mut self, bytes: &[u8]) -> usize {
        let Some(&byte) = bytes.first() else {
            return 0;
        };
        match self.text.get_mut(self.length) {
            Some(place) if !self.is_full => {
                *place = byte;
                self.length = self.length.saturating_add(1);
                1
            }
            _ => {
                self.is_full = true;
                0
            }
        }
    }

    fn has_failed(&self) -> bool {
        self.is_full
    }
}

impl FixedSink {
    /// An empty one.
    pub fn blank() -> FixedSink
        ensures empty { result.length ≡ 0 }
        ensures well { result.is_full ≡ false }
    {
        FixedSink {
            text: [0; 256],
            length: 0,
            is_full: false,
        }
    }

    /// Whether that is what it took.
    pub fn has(&self, text: &[u8]) -> bool
        ensures { result ≡ ((self.now.length == length text.now) && starts_with nat_eq self.now.text text.now) }
    {
        self.length == text.len() && self.text.as_slice().starts_with(text)
    }
}
