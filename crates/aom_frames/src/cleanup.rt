//! The stack of items.
ghost use Rattle.std.specs.Prelude.{◌≡◌, ◌<◌, ◌≤◌, ◌↔◌, [], ◌∷◌, IfOk, IfSome, IfNone, IsTrue, length};
ghost use Rattle.aom_frames.specs.Items.{IsWithin, IsEntry, IsMarked, IsAboveMark, IsNotAboveMark, entries_in, marks_in, item_at};

use crate::Item;
use aom_image::MethodNumber;
use arrayvec::ArrayVec;
use std::alloc::{AllocError, Global};
use std::marker::Model;

/// The items, with room for so many entries and for 256 marks.
#[derive(Drop)]
pub struct Cleanup {
    /// In the order in which they were pushed.
    items: Box<ArrayVec<Item, 1280>>,
    depth: usize,
}

impl Model for Cleanup {
    ghost use Rattle.std.specs.Prelude.{reverse};
    ghost use Rattle.aom_frames.specs.Items.{Stack, IsWithin};

    ghost Value = { Stack };

    ghost view = { λ c. record { items = reverse c.items.value.items; depth = c.depth } };

    ghost invariant = { λ c. IsWithin (record { items = reverse c.items.value.items; depth = c.depth }) };
}

impl Cleanup {
    /// No item, and room for so many entries, at most 1,024, and for 256 marks.
    pub fn with_depth(alloc: Global, depth: usize) -> Result<Cleanup, AllocError>
        requires { depth ≤ 1024 }
        ensures { IfOk result (λ c. c ≡ record { items = []; depth = depth }) }
    {
        let items = Box::new(alloc, ArrayVec::new())?;
        Ok(Cleanup { items, depth })
    }

    /// How many items there are, marks among them.
    pub fn len(&self) -> usize
        ensures value { result ≡ length self.now.items }
        ensures within { IsWithin self.now }
    {
        self.items.len()
    }

    pub fn push_object(&mut self, number: u32)
        requires { entries_in self.old.items < self.old.depth }
        ensures { self.new ≡ record self.old { items = Item.Object number ∷ self.old.items } }
    {
        self.items.push(Item::Object(number));
    }

    pub fn push_operation(&mut self, method: MethodNumber, word: u32)
        requires { entries_in self.old.items < self.old.depth }
        ensures { self.new ≡ record self.old { items = Item.Operation method word ∷ self.old.items } }
    {
        self.items.push(Item::Operation(method, word));
    }

    /// The last entry, which goes. None, and nothing goes, where a mark is last or there is no item.
    pub fn pop(&mut self) -> Option<Item>
        ensures none { IfNone result (IsNotAboveMark self.old.items × (self.new ≡ self.old)) }
        ensures some { IfSome result (λ i. IsEntry i × (self.old ≡ record self.new { items = i ∷ self.new.items })) }
    {
        match self.last()? {
            Item::Mark => None,
            _ => self.items.pop(),
        }
    }

    /// A trap is set.
    pub fn mark(&mut self)
        requires { marks_in self.old.items < 256 }
        ensures { self.new ≡ record self.old { items = Item.Mark ∷ self.old.items } }
    {
        self.items.push(Item::Mark);
    }

    /// The last trap that was set is over: its mark, which is last, goes.
    pub fn unmark(&mut self)
        requires { IsMarked self.old.items }
        ensures { self.old ≡ record self.new { items = Item.Mark ∷ self.new.items } }
    {
        let _ = self.items.pop();
    }

    /// Whether an entry is last.
    pub fn above_mark(&self) -> bool
        ensures { IsTrue result ↔ IsAboveMark self.now.items }
    {
        !matches!(self.items.last(), None | Some(Item::Mark))
    }

    /// The item that lies so many below the last, be it an entry or a mark.
    pub fn entry(&self, index: usize) -> Option<Item>
        ensures { result ≡ item_at self.now.items index }
    {
        let above = self.items.len().checked_sub(index)?;
        self.items.get(above.checked_sub(1)?).copied()
    }

    pub fn last(&self) -> Option<Item>
        ensures { result ≡ item_at self.now.items 0 }
    {
        self.items.last().copied()
    }
}
