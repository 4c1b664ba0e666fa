//! The timers that are set.
ghost use Rattle.std.specs.Prelude.{◌≡◌, ◌<◌, ◌≤◌, ℕ, [], true, false, IfOk, IfSome, IsSome, IsNone, Some, length, is_some, slice_get, AllPairs, ◌≢◌};
ghost use Rattle.std.specs.List.Sorted.{IsPartitionPoint};
ghost use Rattle.aom_scheduler.specs.Order.{placed, without, place_of};
ghost use Rattle.aom_scheduler.specs.Pending.{no_later, timer_of, due_of, IsSet, first_due, due_by, left_by, AreInOrder};

use crate::timer::Timer;
use aom_cells::CellId;
use std::alloc::{AllocError, Global};
use std::collections::VecDeque;
use std::marker::Model;

/// Timers by due time, the first issued first among equals; an object has one at most.
#[derive(Drop)]
pub struct Timers {
    queue: VecDeque<Timer>,
    /// When each object's timer is due, by its id.
    due_times: Vec<Option<u64>>,
}

impl Model for Timers {
    ghost use Rattle.std.specs.Prelude.{◌≤◌, length};
    ghost use Rattle.std.specs.VecDeque.{deque_capacity};
    ghost use Rattle.aom_scheduler.specs.Pending.{Pending};

    ghost Value = { Pending };

    ghost view = { λ t. record { timers = t.queue.items; limit = length t.due_times.items } };

    ghost use Rattle.aom_scheduler.specs.DueTimes.{IsTimed};

    ghost invariant = { λ t. IsTimed t.queue.items t.due_times.items × (length t.due_times.items ≤ deque_capacity t.queue) × (length t.due_times.items ≤ 4096) };
}

impl Timers {
    /// No timer, and room for one of each id below `limit`, which is all the memory that is ever taken.
    pub fn with_limit(alloc: Global, limit: usize) -> Result<Timers, AllocError>
        requires { limit ≤ 4096 }
        ensures { IfOk result (λ t. t ≡ record { timers = []; limit = limit }) }
    {
        let queue = VecDeque::with_capacity(alloc, limit)?;
        let due_times = vec![in alloc; None; limit]?;
        Ok(Timers { queue, due_times })
    }

    /// The number below which the ids of objects are.
    pub fn limit(&self) -> usize
        ensures value { result ≡ self.now.limit }
        ensures in_range { result ≤ 4096 }
    {
        self.due_times.len()
    }

    /// Whether the object has a timer.
    pub fn is_set(&self, id: CellId) -> bool
        ensures { result ≡ is_some (due_of id self.now.timers) }
    {
        self.due_time(id).is_some()
    }

    /// When the first timer is due, in microseconds.
    pub fn next_due(&self) -> Option<u64>
        ensures { result ≡ first_due self.now.timers }
    {
        self.queue.front().map(|timer| timer.due)
    }

    /// How many timers are set.
    pub fn count(&self) -> usize
        ensures { result ≡ length self.now.timers }
    {
        self.queue.len()
    }

    /// The timer at that place in the order in which they are due.
    pub fn timer(&self, place: usize) -> Option<Timer>
        ensures value { result ≡ slice_get self.now.timers place }
        ensures due { IfSome result (λ t. due_of t.id self.now.timers ≡ Some t.due) }
    {
        self.in_order();
        self.at(place)
    }

    /// Sets the object's timer, after all that are due at the same time or earlier.
    pub fn after(&mut self, id: CellId, due: u64)
        requires below { id < self.old.limit }
        requires unset { IsNone (due_of id self.old.timers) }
        ensures { self.new ≡ record self.old { timers = placed no_later (timer_of id due) self.old.timers } }
    {
        let timer = Timer { id, due };
        let at = place_for(&self.queue, &timer);
        self.queue.insert(at, timer).unwrap();
        self.due_times[id.number() as usize] = Some(due);
    }

    /// Ends the object's timer before it is due.
    pub fn cancel(&mut self, id: CellId)
        requires { IsSet id self.old }
        ensures { self.new ≡ record self.old { timers = without (λ t. t.id) id self.old.timers } }
    {
        let at = self.place(id);
        self.queue.remove(at);
        self.due_times[id.number() as usize] = None;
    }

    /// The object of the first timer if it is due by `now`: the timer is over.
    pub fn due(&mut self, now: u64) -> Option<CellId>
        ensures value { result ≡ due_by now self.old.timers }
        ensures left { self.new ≡ record self.old { timers = left_by now self.old.timers } }
    {
        let timer = *self.queue.front()?;
        if timer.due > now {
            return None;
        }
        self.queue.pop_front();
        self.due_times[timer.id.number() as usize] = None;
        Some(timer.id)
    }

    /// For proofs alone: a look at a field tells what holds of the timers.
    pub fn in_order(&self)
        ensures { AreInOrder self.now }
    {
        let _ = &self.due_times;
    }

    fn at(&self, place: usize) -> Option<Timer>
        ensures { result ≡ slice_get self.now.timers place }
    {
        self.queue.get(place).copied()
    }

    fn due_time(&self, id: CellId) -> Option<u64>
        ensures { result ≡ due_of id self.now.timers }
    {
        self.due_times.get(id.number() as usize).copied()?
    }

    /// Where the object's timer stands.
    fn place(&self, id: CellId) -> usize
        requires { IsSet id self.now }
        ensures { place_of (λ t. t.id) id self.now.timers ≡ Some result }
    {
        let due = self.due_time(id).unwrap();
        let start = self.queue.partition_point(|timer| timer.due < due);
        place_from(&self.queue, id, start)
    }
}

/// The place after all timers that are due no later than this one.
fn place_for(queue: &VecDeque<Timer>, timer: &Timer) -> usize
    requires { AllPairs (λ t u. no_later t u ≡ true) queue.now.items }
    ensures bound { result ≤ length queue.now.items }
    ensures point { IsPartitionPoint (λ t. no_later t timer.now ≡ true) (λ t. no_later t timer.now ≡ false) queue.now.items result }
{
    queue.partition_point(|other| other.due <= timer.due)
}

/// Where the object's timer stands, which is not before `start`.
fn place_from(queue: &VecDeque<Timer>, id: CellId, start: usize) -> usize
    requires set { IsSome (place_of (λ t. t.id) id queue.now.items) }
    requires later { (at : ℕ) → place_of (λ t. t.id) id queue.now.items ≡ Some at → start ≤ at }
    requires distinct { AllPairs (λ t u. t.id ≢ u.id) queue.now.items }
    ensures { place_of (λ t. t.id) id queue.now.items ≡ Some result }
{
    let mut at = start;
    while queue[at].id != id {
        at += 1;
    }
    at
}
