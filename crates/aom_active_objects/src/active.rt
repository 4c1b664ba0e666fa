//! The active objects of a machine.
ghost use Rattle.std.specs.Prelude.{◌≡◌, ◌<◌, ◌≤◌, ℕ, All, Bool, false, Option, Some, None, IfOk, IfSome, IsSome, IsTrue, IsFalse, is_some, length, slice_get};
ghost use Rattle.aom_scheduler.specs.Requests.{request_at, IsEnlisted, state_at, status_at, is_pending, is_server};
ghost use Rattle.aom_scheduler.specs.Pending.{first_due, due_of, AreInOrder};
ghost use Rattle.aom_scheduler.specs.PriorityList.{IsSound, place};
ghost use Rattle.aom_image.specs.declared.class.Provider.TheVariants.{Own};
ghost use Rattle.aom_semantics.specs.Requests.{completed_at_once, completed_with, pending, recorded, waits, cancelling, aborted, cancelled};
ghost use Rattle.aom_semantics.specs.Natives.{is_owed};
ghost use Rattle.aom_semantics.specs.Places.{Request as RequestRecord};
ghost use Rattle.aom_semantics.specs.Tokens.{promised};
ghost use Rattle.aom_active_objects.specs.Agrees.{RefinesRequests};
ghost use Rattle.aom_active_objects.specs.Meanings.{is_waited_for, is_being_cancelled, is_busy, begun_with, Makes, Removes, Enlists, Asks, Times, Completes, IsNextDue, IsSignalCount, Picks};

use crate::parts::{abort_request, mark, signal, stop_timer};
use aom_cells::CellId;
use aom_scheduler::{RequestState, Requests, Schedule, ScheduleEntry, Timer, Timers};
use std::alloc::{AllocError, Global};
use std::marker::Model;

/// The objects that are enlisted (CActiveScheduler), each with its request (CActive) and its timer (RTimer), and the servers
/// (CServer2), which are ready while something waits in their queues.
#[derive(Drop)]
pub struct ActiveObjects {
    requests: Requests,
    schedule: Schedule,
    timers: Timers,
}

impl Model for ActiveObjects {
    ghost use Rattle.aom_active_objects.specs.Agrees.{Active, IsWhole};

    ghost Value = { Active };

    ghost view = { λ a. record { table = a.requests; priority_list = a.schedule; pending = a.timers } };

    ghost invariant = { λ a. IsWhole (record { table = a.requests; priority_list = a.schedule; pending = a.timers }) };
}

impl ActiveObjects {
    /// No object is enlisted, and there is a place for each number below `limit`, which is all the memory that is ever taken.
    pub fn with_limit(alloc: Global, limit: usize) -> Result<ActiveObjects, AllocError>
        requires { limit ≤ 4096 }
        ensures limit { IfOk result (λ a. a.table.limit ≡ limit) }
        ensures stands { (queues : ℕ → Option Bool) → IfOk result (λ a. RefinesRequests a (λ n. None) queues) }
    {
        Ok(ActiveObjects {
            requests: Requests::with_limit(alloc, limit)?,
            schedule: Schedule::with_limit(alloc, limit)?,
            timers: Timers::with_limit(alloc, limit)?,
        })
    }

    /// Enlists an idle object, which goes after all of its priority: CActiveScheduler::Add.
    pub fn enlist(&mut self, id: CellId, priority: i32)
        requires place { id < self.old.table.limit }
        requires fresh { request_at self.old.table id ≡ None }
        ensures { Enlists self.old self.new id priority None }
    {
        self.in_order();
        self.requests.add(id);
        self.schedule.insert(id, priority);
    }

    /// Enlists a server, in whose queue nothing waits, and which goes after all of its priority: CActiveScheduler::Add.
    pub fn enlist_server(&mut self, id: CellId, priority: i32)
        requires place { id < self.old.table.limit }
        requires fresh { request_at self.old.table id ≡ None }
        ensures { Enlists self.old self.new id priority (Some false) }
    {
        self.in_order();
        self.requests.add_server(id);
        self.schedule.insert(id, priority);
    }

    /// Something waits in the queue of a server from then on, or nothing does: it is ready, or not. Nothing changes where that was so.
    pub fn set_server_ready(&mut self, id: CellId, is_asked: bool)
        requires { IsTrue (is_server (request_at self.old.table id)) }
        ensures { Asks self.old self.new id is_asked }
    {
        signal(&mut self.requests, id, is_asked);
        mark(&mut self.schedule, id, is_asked);
    }

    /// The object is enlisted no more, and its timer ends: CActive::Deque. A signal that it holds goes with it.
    #[inline(never)]
    pub fn remove(&mut self, id: CellId)
        requires { IsEnlisted self.old.table id }
        ensures { Removes self.old self.new id }
    {
        self.schedule.remove(id);
        self.requests.remove(id);
        stop_timer(&mut self.timers, id);
    }

    /// An idle object makes a request of itself, which is completed at once: RThread::RequestComplete. It does not wait for it yet.
    pub fn issue_own(&mut self, id: CellId, code: i32)
        requires { state_at self.old.table id ≡ Some RequestState.Idle }
        ensures { Makes self.old self.new id (completed_at_once code) }
    {
        self.requests.issue(id);
        self.requests.complete(id, code);
    }

    /// An idle object makes a request of a timer, which is due at that time in microseconds: RTimer::At. It does not wait for it yet.
    pub fn issue_timer(&mut self, id: CellId, due: u64)
        requires { state_at self.old.table id ≡ Some RequestState.Idle }
        ensures { Times self.old self.new id due }
    {
        self.in_order();
        self.requests.issue(id);
        self.timers.after(id, due);
    }

    /// An idle object makes a request of a native, which has not completed it. It does not wait for it yet.
    pub fn issue_native(&mut self, id: CellId)
        requires { state_at self.old.table id ≡ Some RequestState.Idle }
        ensures { Makes self.old self.new id (begun_with pending) }
    {
        // It is not completed, so its object is not ready.
        self.requests.issue(id);
    }

    /// An idle object makes a request that a token completes. It does not wait for it yet.
    pub fn issue_token(&mut self, id: CellId)
        requires { state_at self.old.table id ≡ Some RequestState.Idle }
        ensures { (order : ℕ) → Makes self.old self.new id (promised order) }
    {
        // It is pending, so its object is not ready.
        self.requests.issue(id);
    }

    /// A pending request is completed with that code, and its timer ends: RThread::RequestComplete. The object is ready if it waits for it.
    pub fn complete(&mut self, id: CellId, outcome: i32)
        requires { IsTrue (is_pending (request_at self.old.table id)) }
        ensures { Makes self.old self.new id (completed_with (recorded outcome)) }
    {
        self.requests.complete(id, outcome);
        let ready = self.requests.is_ready(id);
        mark(&mut self.schedule, id, ready);
        stop_timer(&mut self.timers, id);
    }

    /// The object waits for its request, and is ready if that is completed already: CActive::SetActive.
    pub fn set_active(&mut self, id: CellId)
        requires { state_at self.old.table id ≡ Some RequestState.Issued }
        ensures { Makes self.old self.new id waits }
    {
        self.requests.set_active(id);
        mark(&mut self.schedule, id, self.requests.is_ready(id));
    }

    /// A cancel of the request begins, and the object waits for it no more: CActive::Cancel, before DoCancel.
    pub fn cancelling(&mut self, id: CellId)
        requires { state_at self.old.table id ≡ Some RequestState.Active }
        ensures { Makes self.old self.new id cancelling }
    {
        self.requests.cancelling(id);
        mark(&mut self.schedule, id, false);
    }

    /// A request that is being cancelled is completed with KErrCancel if it is pending still, and its timer ends: RTimer::Cancel.
    pub fn abort(&mut self, id: CellId)
        requires { IsTrue (is_being_cancelled (request_at self.old.table id)) }
        ensures { Makes self.old self.new id aborted }
    {
        abort_request(&mut self.requests, id);
        stop_timer(&mut self.timers, id);
    }

    /// A cancel of a request that is completed is over: its signal is taken, as CActive::Cancel does by User::WaitForRequest.
    pub fn cancelled(&mut self, id: CellId)
        requires cancelled { IsTrue (is_being_cancelled (request_at self.old.table id)) }
        requires completed { IsFalse (is_pending (request_at self.old.table id)) }
        ensures { Makes self.old self.new id cancelled }
    {
        self.requests.wait_for(id);
    }

    /// The object whose timer is due first, if it is due by `now`: its request is completed with KErrNone.
    pub fn due(&mut self, now: u64) -> Option<CellId>
        ensures completes { Completes now self.old self.new result }
        ensures fewer { IfSome result (λ id. length self.new.pending.timers < length self.old.pending.timers) }
    {
        self.in_order();
        let id = self.timers.due(now)?;
        self.requests.complete(id, 0);
        let is_ready = self.requests.is_ready(id);
        mark(&mut self.schedule, id, is_ready);
        Some(id)
    }

    /// When the first timer is due, in microseconds.
    pub fn next_due(&self) -> Option<u64>
        ensures value { result ≡ first_due self.now.pending.timers }
        ensures next { IsNextDue self.now result }
    {
        self.timers.next_due()
    }

    /// The pick among those that are ready. An object's RunL is next: its signal is taken, and it is idle. A server stays ready
    /// until nothing waits in its queue.
    pub fn pick(&mut self) -> Option<CellId>
        ensures { Picks self.old self.new result }
    {
        let pick = self.schedule.next_ready()?;
        if self.requests.is_server(pick) {
            return Some(pick);
        }
        self.requests.wait_for(pick);
        self.schedule.set_waiting(pick);
        Some(pick)
    }

    /// How many signals there are: of requests that are completed and not taken, and of servers in whose queues something waits.
    pub fn signals(&self) -> usize
        ensures { IsSignalCount self.now result }
    {
        self.requests.signals()
    }

    /// How many objects are enlisted. Each has an entry.
    pub fn count(&self) -> usize
        ensures value { result ≡ length self.now.priority_list.entries }
        ensures all { (n : ℕ) → IsEnlisted self.now.table n → IsSome (place n self.now.priority_list) }
    {
        self.schedule.count()
    }

    /// The object at that place in the order of choice: of a higher priority first, and of the same in the order of enlisting.
    pub fn entry(&self, place: usize) -> Option<ScheduleEntry>
        ensures { result ≡ slice_get self.now.priority_list.entries place }
    {
        self.schedule.entry(place)
    }

    /// How many timers run. Each object has one at most.
    pub fn timers(&self) -> usize
        ensures value { result ≡ length self.now.pending.timers }
        ensures each { All (λ t. due_of t.id self.now.pending.timers ≡ Some t.due) self.now.pending.timers }
    {
        self.timers.in_order();
        self.timers.count()
    }

    /// The timer at that place in the order in which they are due.
    pub fn timer(&self, place: usize) -> Option<Timer>
        ensures value { result ≡ slice_get self.now.pending.timers place }
        ensures due { IfSome result (λ t. due_of t.id self.now.pending.timers ≡ Some t.due) }
    {
        self.timers.timer(place)
    }

    /// Whether a request of the object is made, and not completed.
    pub fn is_pending(&self, id: CellId) -> bool
        ensures { (asked : ℕ → Option RequestRecord) (queues : ℕ → Option Bool) → RefinesRequests self.now asked queues → result ≡ is_owed (asked id) }
    {
        self.requests.is_pending(id)
    }

    pub fn is_enlisted(&self, id: CellId) -> bool
        ensures { result ≡ is_some (request_at self.now.table id) }
    {
        self.requests.is_enlisted(id)
    }

    /// Whether a server with that number is enlisted.
    pub fn is_server(&self, id: CellId) -> bool
        ensures { result ≡ is_server (request_at self.now.table id) }
    {
        self.requests.is_server(id)
    }

    /// Whether the object waits for its request: CActive::IsActive, but for a cancel.
    pub fn is_active(&self, id: CellId) -> bool
        ensures { result ≡ is_waited_for (request_at self.now.table id) }
    {
        matches!(self.state(id), Some(RequestState::Active))
    }

    /// Whether the object waits for its request, or that is being cancelled.
    pub fn is_busy(&self, id: CellId) -> bool
        ensures { result ≡ is_busy (request_at self.now.table id) }
    {
        matches!(
            self.state(id),
            Some(RequestState::Active | RequestState::Cancelling | RequestState::Aborted)
        )
    }

    /// How far the object's request has come, if it is enlisted. A server makes none.
    pub fn state(&self, id: CellId) -> Option<RequestState>
        ensures { result ≡ state_at self.now.table id }
    {
        if self.is_enlisted(id) && !self.is_server(id) {
            Some(self.requests.state(id))
        } else {
            None
        }
    }

    /// The status of the object's last request, 0 before the first: CActive::iStatus.
    pub fn status(&self, id: CellId) -> i32
        requires { IsSome (state_at self.now.table id) }
        ensures { status_at self.now.table id ≡ Some result }
    {
        self.requests.status(id)
    }

    /// For proofs alone: the entries and the timers are in order.
    fn in_order(&self)
        ensures entries { IsSound self.now.priority_list }
        ensures timers { AreInOrder self.now.pending }
    {
        let _ = self.schedule.count();
        self.timers.in_order();
    }
}
