//! The messages that are kept, by place.
ghost use Rattle.std.specs.Prelude.{◌≡◌, ◌==◌, ◌<◌, ◌≤◌, ◌+◌, [], Some, None, IfOk, IfSome, IsSome, IsNone, OnSome, ◌↔◌};
ghost use Rattle.aom_cells.specs.Store.{IsStored, Changes, count, message_at, word_at};

use crate::MessageId;
use slab::Slab;
use std::alloc::{AllocError, Global};
use std::marker::Model;

/// A store of at most `limit` messages.
#[derive(Drop)]
pub struct Messages {
    slab: Slab<[i32; 5]>,
    limit: usize,
}

impl Model for Messages {
    ghost use Rattle.std.specs.Prelude.{◌≡◌};
    ghost use Rattle.aom_cells.specs.Store.{Store, IsBounded};

    ghost Value = { Store };

    ghost view = { λ m. record { slots = m.slab.slots; limit = m.limit } };

    ghost invariant = { λ m. IsBounded (record { slots = m.slab.slots; limit = m.limit }) × (m.slab.capacity ≡ m.limit) };
}

impl Messages {
    /// No message, and room for `limit` of them, which is all the memory that is ever taken.
    pub fn with_limit(alloc: Global, limit: usize) -> Result<Messages, AllocError>
        requires { limit ≤ 1024 }
        ensures { IfOk result (λ m. m ≡ record { slots = []; limit = limit }) }
    {
        let slab = Slab::with_capacity(alloc, limit)?;
        // It is `limit`, but the slab promises only that it is no less, and places lie below it.
        if slab.capacity() > limit {
            return Err(AllocError);
        }
        Ok(Messages { slab, limit })
    }

    /// How many messages are kept.
    pub fn count(&self) -> usize
        ensures value { result ≡ count self.now }
        ensures bound { result ≤ self.now.limit }
    {
        self.slab.len()
    }

    /// Whether `create` would refuse.
    pub fn is_full(&self) -> bool
        ensures { result ≡ (count self.now == self.now.limit) }
    {
        self.count() == self.limit
    }

    /// The id of the message at that place, if one is kept there.
    pub fn find(&self, place: u16) -> Option<MessageId>
        ensures kept { IsSome result ↔ IsStored self.now place }
        ensures value { IfSome result (λ id. id ≡ place) }
    {
        if self.slab.contains(usize::from(place)) {
            // The look at a field tells that the places of messages are below the limit.
            let _ = &self.slab;
            Some(MessageId::new(place))
        } else {
            None
        }
    }

    /// A new message of these words, the function first, or none where `limit` messages are kept.
    pub fn create(&mut self, words: [i32; 5]) -> Option<MessageId>
        ensures variant { IsSome result ↔ (count self.old < self.old.limit) }
        ensures fresh { IfSome result (λ id. message_at self.old id ≡ None) }
        ensures added { IfSome result (λ id. Changes self.old self.new id (Some words)) }
        ensures in_range { IfSome result (λ id. id < 1024) }
        ensures below { IfSome result (λ id. id < self.old.limit) }
        ensures count { OnSome result (count self.new ≡ count self.old + 1) }
        ensures full { IsNone result → count self.old ≡ self.old.limit }
        ensures refused { IsNone result → self.new ≡ self.old }
    {
        if self.is_full() {
            return None;
        }
        let key = self.slab.insert_reserved(words);
        Some(MessageId::new(key as u16))
    }

    /// Ends a message. Its place may be given out again.
    pub fn release(&mut self, id: MessageId)
        requires { IsStored self.old id }
        ensures gone { Changes self.old self.new id None }
        ensures count { count self.new + 1 ≡ count self.old }
    {
        let _words = self.slab.remove(usize::from(id.place()));
    }

    /// A word of a message: 0 is its function.
    pub fn word(&self, id: MessageId, word: u8) -> i32
        requires kept { IsStored self.now id }
        requires within { word < 5 }
        ensures { result ≡ word_at self.now id word }
    {
        self.slab[usize::from(id.place())][usize::from(word)]
    }
}
