//! The objects that are enlisted, and the pick among those that are ready.
ghost use Rattle.std.specs.Prelude.{◌≡◌, ◌<◌, ◌≤◌, [], true, false, IfOk, IfErr, IfSome, IsNone, Some, insert, length, is_some, remove, slice_get, take, All};
ghost use Rattle.std.specs.VecDeque.{deque_capacity};
ghost use Rattle.aom_scheduler.specs.Order.{placed, without};
ghost use Rattle.aom_scheduler.specs.Ready.{IsReadyAt, IsWaitingAt};
ghost use Rattle.aom_scheduler.specs.PriorityList.{before, place, IsEnlisted, waiting, marked, first_ready, ready_ids, IsPick, IsSound};

use crate::ScheduleEntry;
use crate::order::Order;
use aom_cells::CellId;
use std::alloc::{AllocError, Global};
use std::collections::VecDeque;
use std::marker::Model;

/// Objects by falling priority, among equals by when they were enlisted; each is ready or waits.
#[derive(Drop)]
pub struct Schedule {
    order: Order,
    /// Those that are ready, in the same order.
    ready: VecDeque<CellId>,
}

impl Model for Schedule {
    ghost use Rattle.std.specs.Prelude.{◌≡◌, ◌≤◌};
    ghost use Rattle.std.specs.VecDeque.{deque_capacity};
    ghost use Rattle.aom_scheduler.specs.PriorityList.{PriorityList, ready_ids};

    ghost Value = { PriorityList };

    ghost view = { λ s. s.order };

    ghost invariant = { λ s. (s.ready.items ≡ ready_ids s.order.entries) × (s.order.limit ≤ deque_capacity s.ready) };
}

impl Schedule {
    /// Nobody, and room for objects of ids below `limit`, which is all the memory that is ever taken.
    pub fn with_limit(alloc: Global, limit: usize) -> Result<Schedule, AllocError>
        requires { limit ≤ 4096 }
        ensures { IfOk result (λ s. s ≡ record { entries = []; limit = limit }) }
    {
        let ready = VecDeque::with_capacity(alloc, limit)?;
        Ok(Schedule {
            order: Order::with_limit(alloc, limit)?,
            ready,
        })
    }

    /// The number below which the ids of objects are.
    pub fn limit(&self) -> usize
        ensures value { result ≡ self.now.limit }
        ensures in_range { result ≤ 4096 }
    {
        self.order.limit()
    }

    /// How many objects are enlisted.
    pub fn count(&self) -> usize
        ensures value { result ≡ length self.now.entries }
        ensures in_order { IsSound self.now }
    {
        self.order.in_order();
        self.order.count()
    }

    /// The entry at this place in the order of choice, 0 the first.
    pub fn entry(&self, place: usize) -> Option<ScheduleEntry>
        ensures { result ≡ slice_get self.now.entries place }
    {
        self.order.entry(place)
    }

    pub fn is_enlisted(&self, id: CellId) -> bool
        ensures { result ≡ is_some (place id self.now) }
    {
        self.order.place(id).is_some()
    }

    /// Enlists an object, which waits at first.
    pub fn insert(&mut self, id: CellId, priority: i32)
        requires below { id < self.old.limit }
        requires unlisted { IsNone (place id self.old) }
        ensures { self.new ≡ record self.old { entries = placed before (waiting id priority) self.old.entries } }
    {
        self.order.insert(ScheduleEntry {
            id,
            priority,
            is_ready: false,
        });
    }

    /// Takes an object off the list, ready or not.
    pub fn remove(&mut self, id: CellId)
        requires { IsEnlisted id self.old }
        ensures { self.new ≡ record self.old { entries = without (λ e. e.id) id self.old.entries } }
    {
        self.set_waiting(id);
        self.order.remove(id);
    }

    /// Nothing changes where the object is ready already.
    pub fn set_ready(&mut self, id: CellId)
        requires { IsEnlisted id self.old }
        ensures { self.new ≡ record self.old { entries = marked id true self.old.entries } }
    {
        let place = self.order.place(id).unwrap();
        if let Err(at) = self.ready_place(id, place) {
            self.order.mark(id, place, true);
            put_at(&mut self.ready, at, id);
        }
    }

    /// Nothing changes where the object waits already.
    pub fn set_waiting(&mut self, id: CellId)
        requires { IsEnlisted id self.old }
        ensures { self.new ≡ record self.old { entries = marked id false self.old.entries } }
    {
        let place = self.order.place(id).unwrap();
        if let Ok(at) = self.ready_place(id, place) {
            self.order.mark(id, place, false);
            take_at(&mut self.ready, at);
        }
    }

    /// The pick: the ready object of the highest priority, among equals the one that was enlisted first.
    pub fn next_ready(&self) -> Option<CellId>
        ensures value { result ≡ first_ready self.now.entries }
        ensures pick { IfSome result (λ id. IsPick self.now.entries id) }
        ensures none { IsNone result → All (λ e. e.is_ready ≡ false) self.now.entries }
    {
        self.order.in_order();
        self.ready.front().copied()
    }

    /// How many of those that are ready stand before that place. The first of them is asked alone, since mostly it does not.
    fn ready_before(&self, place: usize) -> usize
        requires { place ≤ length self.now.entries }
        ensures { result ≡ length (ready_ids (take place self.now.entries)) }
    {
        self.order.in_order();
        let Some(first) = self.next_ready() else {
            return 0;
        };
        if !self.order.is_before(first, place) {
            return 0;
        }
        self.ready
            .partition_point(|other| self.order.is_before(*other, place))
    }

    /// Where the object of that place stands among those that are ready, or else where it would.
    fn ready_place(&self, id: CellId, at_place: usize) -> Result<usize, usize>
        requires { place id self.now ≡ Some at_place }
        ensures ready { IfOk result (λ at. IsReadyAt self.now id at) }
        ensures waiting { IfErr result (λ at. IsWaitingAt self.now id at) }
    {
        self.order.in_order();
        let at = self.ready_before(at_place);
        if self.order.is_ready(at_place) {
            Ok(at)
        } else {
            Err(at)
        }
    }
}

/// Puts an object among those that are ready. Mostly it becomes the first.
fn put_at(ready: &mut VecDeque<CellId>, at: usize, id: CellId)
    requires within { at ≤ length ready.old.items }
    requires room { length ready.old.items < deque_capacity ready.old }
    ensures items { ready.new.items ≡ insert ready.old.items at id }
    ensures capacity { deque_capacity ready.old ≤ deque_capacity ready.new }
{
    if at == 0 {
        ready.push_front(id).unwrap();
    } else {
        ready.insert(at, id).unwrap();
    }
}

/// Takes away the one that stands there. Mostly it is the first.
fn take_at(ready: &mut VecDeque<CellId>, at: usize)
    requires { at < length ready.old.items }
    ensures items { ready.new.items ≡ remove ready.old.items at }
    ensures capacity { deque_capacity ready.new ≡ deque_capacity ready.old }
{
    if at == 0 {
        ready.pop_front();
    } else {
        ready.remove(at);
    }
}
