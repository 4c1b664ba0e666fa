//! The entries in order of choice, and by what each object is found among them.
//!
//! An object's key stays while others come and go, so nothing is written of them then. A hint says where an object stood when it was last
//! marked; nothing rests on it, since the entry there is looked at.
ghost use Rattle.std.specs.Prelude.{◌≡◌, ◌<◌, ◌≤◌, ℕ, [], IfOk, IfSome, None, Some, IsNone, length, slice_get, slice_index_or, slice_set, AllPairs, true, false, nat_lt, ◌&&◌, if◌then◌else◌};
ghost use Rattle.std.specs.List.Sorted.{IsPartitionPoint};
ghost use Rattle.aom_scheduler.specs.Order.{placed, without};
ghost use Rattle.aom_scheduler.specs.PriorityList.{before, place, IsEnlisted, marked, IsSound};
ghost use Rattle.aom_scheduler.specs.Keys.{IsKeyed, precedes, stands_before};
ghost use Rattle.aom_scheduler.specs.declared.entry.ScheduleEntry.{ScheduleEntry};

use crate::ScheduleEntry;
use crate::key::Key;
use aom_cells::CellId;
use std::alloc::{AllocError, Global};
use std::collections::VecDeque;
use std::marker::Model;

/// Entries by falling priority, the first enlisted first among equals.
#[derive(Drop)]
pub struct Order {
    entries: VecDeque<ScheduleEntry>,
    /// Each object's key, by its id.
    keys: Vec<Option<Key>>,
    /// Where each object may stand, by its id.
    hints: Vec<u16>,
    /// The turn of the next object that is enlisted.
    next: u32,
}

impl Model for Order {
    ghost use Rattle.std.specs.Prelude.{◌≤◌, length};
    ghost use Rattle.std.specs.VecDeque.{deque_capacity};
    ghost use Rattle.aom_scheduler.specs.PriorityList.{PriorityList};

    ghost Value = { PriorityList };

    ghost view = { λ o. record { entries = o.entries.items; limit = length o.keys.items } };

    ghost use Rattle.aom_scheduler.specs.Keys.{IsKeyed};

    ghost invariant = { λ o. IsKeyed o.entries.items o.keys.items o.next × (length o.keys.items ≤ 4096) × (length o.keys.items ≤ deque_capacity o.entries) };
}

impl Order {
    pub fn with_limit(alloc: Global, limit: usize) -> Result<Order, AllocError>
        requires { limit ≤ 4096 }
        ensures { IfOk result (λ o. o ≡ record { entries = []; limit = limit }) }
    {
        Ok(Order {
            entries: VecDeque::with_capacity(alloc, limit)?,
            keys: vec![in alloc; None; limit]?,
            hints: vec![in alloc; 0; limit]?,
            next: 0,
        })
    }

    pub fn limit(&self) -> usize
        ensures value { result ≡ self.now.limit }
        ensures in_range { result ≤ 4096 }
    {
        self.keys.len()
    }

    pub fn count(&self) -> usize
        ensures { result ≡ length self.now.entries }
    {
        self.entries.len()
    }

    /// For proofs alone: a look at a field tells what holds of the entries.
    pub fn in_order(&self)
        ensures { IsSound self.now }
    {
        let _ = &self.entries;
    }

    pub fn entry(&self, place: usize) -> Option<ScheduleEntry>
        ensures { result ≡ slice_get self.now.entries place }
    {
        self.entries.get(place).copied()
    }

    #[inline(always)]
    pub fn place(&self, id: CellId) -> Option<usize>
        ensures { result ≡ place id self.now }
    {
        let hinted = self.hinted(id);
        if hinted.is_some() {
            return hinted;
        }
        self.sought(id)
    }

    /// The place by a search.
    #[inline(never)]
    fn sought(&self, id: CellId) -> Option<usize>
        ensures { result ≡ place id self.now }
    {
        let key = self.keys.get(id.number() as usize).copied()??;
        let keys = &self.keys;
        Some(
            self.entries
                .partition_point(|e| stands_first(keys, e.id, &key)),
        )
    }

    /// Where the object stands, if it stands where it may.
    #[inline(always)]
    fn hinted(&self, id: CellId) -> Option<usize>
        ensures { IfSome result (λ at. place id self.now ≡ Some at) }
    {
        let hint = usize::from(self.hints.get(id.number() as usize).copied()?);
        self.in_order();
        if self.entry(hint)?.id == id {
            Some(hint)
        } else {
            None
        }
    }

    /// Whether the entry at this place is ready.
    pub fn is_ready(&self, at: usize) -> bool
        requires { at < length self.now.entries }
        ensures { (d : ScheduleEntry) → result ≡ (slice_index_or self.now.entries at d).is_ready }
    {
        self.entries[at].is_ready
    }

    /// Whether the object has an entry before this place.
    pub fn is_before(&self, id: CellId, at: usize) -> bool
        ensures { result ≡ stands_before at (place id self.now) }
    {
        self.place(id).is_some_and(|place| place < at)
    }

    /// Adds the entry of an object that has none.
    pub fn insert(&mut self, entry: ScheduleEntry)
        requires below { entry.id < self.old.limit }
        requires unlisted { IsNone (place entry.id self.old) }
        ensures { self.new ≡ record self.old { entries = placed before entry self.old.entries } }
    {
        let turn = next_turn(&mut self.keys, &self.entries, self.next);
        let at = place_for(&self.entries, &entry);
        self.entries.insert(at, entry).unwrap();
        let slot = entry.id.number() as usize;
        self.keys[slot] = Some(Key::of(&entry, turn));
        self.next = turn + 1;
        put_hint(&mut self.hints, slot, at);
    }

    pub fn remove(&mut self, id: CellId)
        requires { IsEnlisted id self.old }
        ensures { self.new ≡ record self.old { entries = without (λ e. e.id) id self.old.entries } }
    {
        if let Some(at) = self.place(id) {
            self.entries.remove(at);
            self.keys[id.number() as usize] = None;
        }
    }

    /// Marks the entry of an object, which stands at this place.
    pub fn mark(&mut self, id: CellId, at: usize, is_ready: bool)
        requires { place id self.old ≡ Some at }
        ensures { self.new ≡ record self.old { entries = marked id is_ready self.old.entries } }
    {
        self.entries[at].is_ready = is_ready;
        put_hint(&mut self.hints, id.number() as usize, at);
    }
}

/// The place after all entries of at least this one's priority.
fn place_for(entries: &VecDeque<ScheduleEntry>, entry: &ScheduleEntry) -> usize
    requires { AllPairs (λ e f. before e f ≡ true) entries.now.items }
    ensures bound { result ≤ length entries.now.items }
    ensures point { IsPartitionPoint (λ e. before e entry.now ≡ true) (λ e. before e entry.now ≡ false) entries.now.items result }
{
    entries.partition_point(|e| e.priority >= entry.priority)
}

/// Whether the object has a key that stands before this one.
fn stands_first(keys: &[Option<Key>], id: CellId, key: &Key) -> bool
    ensures { result ≡ precedes (slice_index_or keys.now id None) (Some key.now) }
{
    match keys.get(id.number() as usize).copied() {
        Some(Some(own)) => own.goes_before(key),
        _ => false,
    }
}

/// The next turn that is free, which has another behind it. If there is none, all turns are given anew.
fn next_turn(keys: &mut Vec<Option<Key>>, entries: &VecDeque<ScheduleEntry>, next: u32) -> u32
    requires keyed { IsKeyed entries.now.items keys.old.items next }
    requires few { length keys.old.items ≤ 4096 }
    ensures keyed { IsKeyed entries.now.items keys.new.items result }
    ensures behind { result < 4294967295 }
    ensures length { length keys.new.items ≡ length keys.old.items }
{
    if next < u32::MAX {
        return next;
    }
    for at in 0..entries.len() {
        let entry = entries[at];
        keys[entry.id.number() as usize] = Some(Key::of(&entry, at as u32));
    }
    entries.len() as u32
}

/// Writes where the object of that number stands now, if there is a place for it.
fn put_hint(hints: &mut [u16], slot: usize, at: usize)
    ensures { hints.new ≡ (if nat_lt slot (length hints.old) && nat_lt at 65536 then slice_set hints.old slot at else hints.old) }
{
    if slot < hints.len() && at < 65536 {
        hints[slot] = at as u16;
    }
}
