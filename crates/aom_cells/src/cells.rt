//! The cells that live, by number.
ghost use Rattle.std.specs.Prelude.{◌≡◌, ◌==◌, ◌<◌, ◌≤◌, ◌+◌, [], Some, None, IfOk, IfSome, IsSome, IsNone, OnSome, ◌↔◌};
ghost use Rattle.aom_cells.specs.Heap.{null, blank, cell_at, Lives, class_at, word_at, field_at, with_word, with_field, count, Changes};

use crate::cell::Cell;
use crate::{CellId, NULL};
use slab::Slab;
use std::alloc::{AllocError, Global};
use std::marker::Model;

/// A heap of at most `limit` cells.
#[derive(Drop)]
pub struct Cells {
    slab: Slab<Cell>,
    limit: usize,
}

impl Model for Cells {
    ghost use Rattle.std.specs.Prelude.{◌≡◌};
    ghost use Rattle.aom_cells.specs.Heap.{Heap, IsBounded};

    ghost Value = { Heap };

    ghost view = { λ c. record { slots = c.slab.slots; limit = c.limit } };

    ghost invariant = { λ c. IsBounded (record { slots = c.slab.slots; limit = c.limit }) × (c.slab.capacity ≡ c.limit) };
}

impl Cells {
    /// No cell, and room for `limit` of them, which is all the memory that is ever taken.
    pub fn with_limit(alloc: Global, limit: usize) -> Result<Cells, AllocError>
        requires { limit ≤ 4096 }
        ensures { IfOk result (λ c. c ≡ record { slots = []; limit = limit }) }
    {
        let slab = Slab::with_capacity(alloc, limit)?;
        // It is `limit`, but the slab promises only that it is no less, and ids lie below it.
        if slab.capacity() > limit {
            return Err(AllocError);
        }
        Ok(Cells { slab, limit })
    }

    /// How many cells may live.
    pub fn limit(&self) -> usize
        ensures value { result ≡ self.now.limit }
        ensures in_range { result ≤ 4096 }
    {
        self.limit
    }

    /// How many cells live.
    pub fn count(&self) -> usize
        ensures value { result ≡ count self.now }
        ensures bound { result ≤ self.now.limit }
    {
        self.slab.len()
    }

    /// Whether `create` would refuse.
    pub fn is_full(&self) -> bool
        ensures { result ≡ (count self.now == self.now.limit) }
    {
        self.count() == self.limit
    }

    /// The id of a living cell, from its plain number.
    pub fn living(&self, number: u32) -> CellId
        requires { Lives self.now number }
        ensures value { result ≡ number }
        ensures below { result < self.now.limit }
        ensures in_range { result < 4096 }
    {
        // The look at a field tells that the numbers of living cells are below the limit.
        let _ = &self.slab;
        CellId::new(number)
    }

    /// The id of the cell of that number, if one lives.
    pub fn find(&self, number: u32) -> Option<CellId>
        ensures lives { IsSome result ↔ Lives self.now number }
        ensures value { IfSome result (λ id. id ≡ number) }
    {
        if self.slab.contains(number as usize) {
            Some(self.living(number))
        } else {
            None
        }
    }

    /// A new cell whose words are 0 and whose fields are null, or none where `limit` cells live.
    pub fn create(&mut self, class: u16) -> Option<CellId>
        ensures variant { IsSome result ↔ (count self.old < self.old.limit) }
        ensures fresh { IfSome result (λ id. cell_at self.old id ≡ None) }
        ensures added { IfSome result (λ id. Changes self.old self.new id (Some (blank class))) }
        ensures in_range { IfSome result (λ id. id < 4096) }
        ensures count { OnSome result (count self.new ≡ count self.old + 1) }
        ensures full { IsNone result → count self.old ≡ self.old.limit }
        ensures refused { IsNone result → self.new ≡ self.old }
    {
        if self.is_full() {
            return None;
        }
        let key = self.slab.insert_reserved(Cell::blank(class));
        Some(CellId::new(key as u32))
    }

    /// Ends a living cell. Its id may be given out again.
    pub fn release(&mut self, id: CellId)
        requires { Lives self.old id }
        ensures gone { Changes self.old self.new id None }
        ensures count { count self.new + 1 ≡ count self.old }
    {
        let _cell = self.slab.remove(id.number() as usize);
    }

    pub fn class(&self, id: CellId) -> u16
        requires { Lives self.now id }
        ensures { class_at self.now id ≡ Some result }
    {
        self.slab[id.number() as usize].class
    }

    /// What a word field holds.
    pub fn word(&self, id: CellId, word: u8) -> i32
        requires lives { Lives self.now id }
        requires within { word < 8 }
        ensures { result ≡ word_at self.now id word }
    {
        self.slab[id.number() as usize].words[word as usize]
    }

    pub fn set_word(&mut self, id: CellId, word: u8, value: i32)
        requires lives { Lives self.old id }
        requires within { word < 8 }
        ensures changed { Changes self.old self.new id (with_word (cell_at self.old id) word value) }
        ensures here { word_at self.new id word ≡ value }
        ensures count { count self.new ≡ count self.old }
    {
        self.slab[id.number() as usize].set_word(word, value);
    }

    /// The number in an owning field: null, or a cell's.
    pub fn field(&self, id: CellId, field: u8) -> u32
        requires lives { Lives self.now id }
        requires within { field < 8 }
        ensures { result ≡ field_at self.now id field }
    {
        self.slab[id.number() as usize].fields[field as usize]
    }

    /// Takes the number out of an owning field, and leaves null.
    pub fn take_field(&mut self, id: CellId, field: u8) -> u32
        requires lives { Lives self.old id }
        requires within { field < 8 }
        ensures value { result ≡ field_at self.old id field }
        ensures changed { Changes self.old self.new id (with_field (cell_at self.old id) field null) }
        ensures here { field_at self.new id field ≡ null }
        ensures count { count self.new ≡ count self.old }
    {
        let number = self.field(id, field);
        self.put_field(id, field, NULL);
        number
    }

    /// Writes a number over what an owning field holds.
    pub fn put_field(&mut self, id: CellId, field: u8, number: u32)
        requires lives { Lives self.old id }
        requires within { field < 8 }
        ensures changed { Changes self.old self.new id (with_field (cell_at self.old id) field number) }
        ensures here { field_at self.new id field ≡ number }
        ensures count { count self.new ≡ count self.old }
    {
        self.slab[id.number() as usize].set_field(field, number);
    }
}
