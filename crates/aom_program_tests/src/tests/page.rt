//! A sink with so much room.
ghost use Rattle.std.specs.Prelude.{◌≡◌, [], false};

use aom_transcript::Sink;
use std::alloc::Global;

/// A sink that takes so many bytes in all, and at most so many at a time.
#[derive(Drop)]
pub struct BoundedPage {
    pub text: Vec<u8>,
    /// How many bytes it still takes.
    pub room: usize,
    /// The most that it takes at a time.
    pub most: usize,
    /// Whether it was sent a byte that it did not take.
    pub is_full: bool,
}

impl BoundedPage {
    /// An empty page.
    pub fn new(alloc: Global, room: usize) -> BoundedPage
        ensures empty { result.text.items ≡ [] }
        ensures well { result.is_full ≡ false }
        ensures room { result.room ≡ room }
    {
        BoundedPage::narrow(alloc, room, usize::MAX)
    }

    /// An empty page that takes at most so many bytes at a time.
    pub fn narrow(alloc: Global, room: usize, most: usize) -> BoundedPage
        ensures empty { result.text.items ≡ [] }
        ensures well { result.is_full ≡ false }
        ensures room { result.room ≡ room }
        ensures most { result.most ≡ most }
    {
        BoundedPage {
            text: Vec::new(alloc),
            room,
            most,
            is_full: false,
        }
    }
}

impl Sink for BoundedPage {
    ghost use Rattle.std.specs.Prelude.{Some};

    ghost out = { λ s. Some s.text.items };

    ghost failed = { λ s. s.is_full };

    fn put(&mut self, bytes: &[u8]) -> usize {
        if self.is_full || bytes.is_empty() {
            return 0;
        }
        let count = bytes.len().min(self.room).min(self.most);
        if count == 0 || self.text.extend_from_slice(&bytes[..count]).is_err() {
            self.is_full = true;
            return 0;
        }
        self.room -= count;
        count
    }

    fn has_failed(&self) -> bool {
        self.is_full
    }
}
