//! The latest instructions.
ghost use Rattle.std.specs.Prelude.{◌≡◌, ◌≤◌, ◌<◌, ◌++◌, [], ◌∷◌, IfOk, length, slice_get};
ghost use Rattle.aom_debug_protocol.specs.Marks.{NotesKeepLatest};
ghost use Rattle.circular_buffer.specs.Buffer.{keep_last};

use crate::CodeLocation;
use circular_buffer::HeapCircularBuffer;
use std::alloc::{AllocError, Global};
use std::marker::Model;

const KEPT: usize = 16;

/// The latest sixteen places, the oldest first.
#[derive(Drop)]
pub struct History {
    ring: HeapCircularBuffer<CodeLocation>,
}

impl Model for History {
    ghost use Rattle.std.specs.Prelude.{◌≡◌, ◌≤◌, List, length};
    ghost use Rattle.aom_debug_protocol.specs.declared.spot.CodeLocation.{CodeLocation};

    ghost Value = { List CodeLocation };

    ghost view = { λ r. r.ring.items };

    ghost invariant = { λ r. (r.ring.capacity ≡ 16) × (length r.ring.items ≤ 16) };
}

impl History {
    /// Nothing yet, and room for sixteen.
    pub fn new(alloc: Global) -> Result<History, AllocError>
        ensures { IfOk result (λ r. r ≡ []) }
    {
        let ring = HeapCircularBuffer::with_capacity(alloc, KEPT)?;
        Ok(History { ring })
    }

    /// Notes a place. The oldest goes where there are sixteen.
    pub fn note(&mut self, spot: CodeLocation)
        ensures { self.new ≡ keep_last 16 (self.old ++ spot ∷ []) }
    {
        self.ring.push_back(spot);
    }

    pub fn count(&self) -> usize
        ensures value { result ≡ length self.now }
        ensures bound { result ≤ 16 }
    {
        self.ring.len()
    }

    /// The place at an index, from the oldest.
    pub fn at(&self, index: usize) -> Option<CodeLocation>
        ensures { result ≡ slice_get self.now index }
    {
        self.ring.get(index).copied()
    }
}

/// What is kept is the latest sixteen of all that was noted.
pub fn notes_keep_latest()
    ensures { NotesKeepLatest }
{}
