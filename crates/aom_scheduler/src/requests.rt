//! The requests of the objects that are enlisted, by number.
ghost use Rattle.std.specs.Prelude.{◌≡◌, ◌<◌, ◌≤◌, ◌+◌, Some, None, IfOk, IsSome, is_some, IsTrue, IsFalse, replicate, pos, true, false, ◌↔◌};
ghost use Rattle.aom_scheduler.specs.Requests.{request_at, IsEnlisted, state_at, status_at, is_server, pending, kept_code, is_pending, holds_signal, is_ready, held, signals, with_state, with_status, taken, Changes, Turns};

use crate::request::{Request, kept_code};
use crate::{PENDING, RequestState};
use aom_cells::CellId;
use std::alloc::{AllocError, Global};
use std::marker::Model;

/// What each enlisted object waits for, and how many signals there are.
#[derive(Drop)]
pub struct Requests {
    slots: Vec<Option<Request>>,
    signals: usize,
}

impl Model for Requests {
    ghost use Rattle.std.specs.Prelude.{length};
    ghost use Rattle.aom_scheduler.specs.Requests.{Table, IsCounted};

    ghost Value = { Table };

    ghost view = { λ r. record { slots = r.slots.items; limit = length r.slots.items } };

    ghost invariant = { λ r. IsCounted r.signals (record { slots = r.slots.items; limit = length r.slots.items }) };
}

/// How many signals there are under a number: one or none.
fn held(request: Option<Request>) -> usize
    ensures value { result ≡ held request }
    ensures most { result ≤ 1 }
{
    match request {
        Some(request) => usize::from(request.holds_signal()),
        None => 0,
    }
}

impl Requests {
    /// No object is enlisted, and there is a place for each number below `limit`, which is all the memory that is ever taken.
    pub fn with_limit(alloc: Global, limit: usize) -> Result<Requests, AllocError>
        requires { limit ≤ 4096 }
        ensures { IfOk result (λ r. r ≡ record { slots = replicate limit None; limit = limit }) }
    {
        let slots = vec![in alloc; None; limit]?;
        Ok(Requests { slots, signals: 0 })
    }

    /// How many signals there are: at most one for each place.
    pub fn signals(&self) -> usize
        ensures value { result ≡ signals self.now }
        ensures within { result ≤ self.now.limit }
    {
        self.signals
    }

    /// Whether an object with that number is enlisted.
    pub fn is_enlisted(&self, id: CellId) -> bool
        ensures enlisted { IsTrue result ↔ IsEnlisted self.now id }
        ensures within { IsTrue result → id < self.now.limit }
    {
        self.request_at(id).is_some()
    }

    /// Whether a server with that number is enlisted.
    pub fn is_server(&self, id: CellId) -> bool
        ensures { result ≡ is_server (request_at self.now id) }
    {
        self.request_at(id)
            .is_some_and(|request| request.is_server())
    }

    /// Whether an active object's request was issued, and is not completed.
    pub fn is_pending(&self, id: CellId) -> bool
        ensures { result ≡ is_pending (request_at self.now id) }
    {
        self.request_at(id)
            .is_some_and(|request| request.is_pending())
    }

    /// Whether a dispatch of the object may begin. Then it holds a signal.
    pub fn is_ready(&self, id: CellId) -> bool
        ensures ready { result ≡ is_ready (request_at self.now id) }
        ensures signal { IsTrue result → IsTrue (holds_signal (request_at self.now id)) }
    {
        self.request_at(id)
            .is_some_and(|request| request.is_ready())
    }

    /// The state of an active object's request.
    pub fn state(&self, id: CellId) -> RequestState
        requires { IsSome (state_at self.now id) }
        ensures { state_at self.now id ≡ Some result }
    {
        self.object(id).0
    }

    /// The status of an active object's request: the last one's, until the next is issued, and 0 before the first.
    pub fn status(&self, id: CellId) -> i32
        requires { IsSome (state_at self.now id) }
        ensures { status_at self.now id ≡ Some result }
    {
        self.object(id).1
    }

    /// Enlists an active object, which is idle: CActiveScheduler::Add.
    pub fn add(&mut self, id: CellId)
        requires place { id < self.old.limit }
        requires fresh { request_at self.old id ≡ None }
        ensures added { Changes self.old self.new id (Some (Request.Object RequestState.Idle (pos 0))) }
        ensures signals { signals self.new ≡ signals self.old }
    {
        let idle = Request::Object {
            state: RequestState::Idle,
            status: 0,
        };
        self.put(id, Some(idle));
    }

    /// Enlists a server, whose queue is empty.
    pub fn add_server(&mut self, id: CellId)
        requires place { id < self.old.limit }
        requires fresh { request_at self.old id ≡ None }
        ensures added { Changes self.old self.new id (Some (Request.Server false)) }
        ensures signals { signals self.new ≡ signals self.old }
    {
        self.put(id, Some(Request::Server { has_signal: false }));
    }

    /// The object is enlisted no more. A signal that it holds goes with it.
    pub fn remove(&mut self, id: CellId)
        requires { IsEnlisted self.old id }
        ensures gone { Changes self.old self.new id None }
        ensures signals { signals self.new + held (request_at self.old id) ≡ signals self.old }
    {
        self.change(id, None);
    }

    /// An idle object makes a request of a provider, whose status is `PENDING`.
    pub fn issue(&mut self, id: CellId)
        requires { state_at self.old id ≡ Some RequestState.Idle }
        ensures issued { Changes self.old self.new id (Some (Request.Object RequestState.Issued pending)) }
        ensures signals { signals self.new ≡ signals self.old }
    {
        let issued = Request::Object {
            state: RequestState::Issued,
            status: PENDING,
        };
        self.change(id, Some(issued));
    }

    /// A pending request gets its status and a signal, whether the object waits for it or not: RThread::RequestComplete.
    pub fn complete(&mut self, id: CellId, code: i32)
        requires { IsTrue (is_pending (request_at self.old id)) }
        ensures completed { Changes self.old self.new id (with_status (kept_code code) (request_at self.old id)) }
        ensures signals { signals self.new ≡ signals self.old + 1 }
    {
        let completed = self.request(id).with_status(kept_code(code));
        self.change(id, Some(completed));
    }

    /// A server's queue is empty no more, and it gets its one signal.
    pub fn signal_server(&mut self, id: CellId)
        requires { request_at self.old id ≡ Some (Request.Server false) }
        ensures signalled { Changes self.old self.new id (Some (Request.Server true)) }
        ensures signals { signals self.new ≡ signals self.old + 1 }
    {
        self.change(id, Some(Request::Server { has_signal: true }));
    }

    /// The object waits for its request, which may be completed already: CActive::SetActive.
    pub fn set_active(&mut self, id: CellId)
        requires { state_at self.old id ≡ Some RequestState.Issued }
        ensures { Turns self.old self.new id RequestState.Active }
    {
        self.turn(id, RequestState::Active);
    }

    /// A cancel of the request begins: CActive::Cancel, before DoCancel.
    pub fn cancelling(&mut self, id: CellId)
        requires { state_at self.old id ≡ Some RequestState.Active }
        ensures { Turns self.old self.new id RequestState.Cancelling }
    {
        self.turn(id, RequestState::Cancelling);
    }

    /// The request that is being cancelled is completed, and waits for the end of the cancel.
    pub fn cancelled(&mut self, id: CellId)
        requires state { state_at self.old id ≡ Some RequestState.Cancelling }
        requires completed { IsFalse (is_pending (request_at self.old id)) }
        ensures { Turns self.old self.new id RequestState.Aborted }
    {
        self.turn(id, RequestState::Aborted);
    }

    /// Takes the signal of a request, as a dispatch begins or a cancel ends: User::WaitForRequest. An active object is idle then.
    pub fn wait_for(&mut self, id: CellId)
        requires { IsTrue (holds_signal (request_at self.old id)) }
        ensures taken { Changes self.old self.new id (taken (request_at self.old id)) }
        ensures signals { signals self.new + 1 ≡ signals self.old }
    {
        let taken = self.request(id).taken();
        self.change(id, Some(taken));
    }

    /// Writes how far an active object's request has come.
    fn turn(&mut self, id: CellId, to: RequestState)
        requires { IsEnlisted self.old id }
        ensures changed { Changes self.old self.new id (with_state to (request_at self.old id)) }
        ensures signals { signals self.new + held (request_at self.old id) ≡ signals self.old + held (with_state to (request_at self.old id)) }
    {
        let turned = self.request(id).with_state(to);
        self.change(id, Some(turned));
    }

    /// What stands under a number.
    fn request_at(&self, id: CellId) -> Option<Request>
        ensures value { result ≡ request_at self.now id }
        ensures within { IsSome result → id < self.now.limit }
    {
        self.slots.get(id.number() as usize).copied().flatten()
    }

    /// The request of an enlisted object.
    fn request(&self, id: CellId) -> Request
        requires { IsEnlisted self.now id }
        ensures { Some result ≡ request_at self.now id }
    {
        self.request_at(id).unwrap()
    }

    /// The state and the status of an active object's request.
    fn object(&self, id: CellId) -> (RequestState, i32)
        requires { IsSome (state_at self.now id) }
        ensures state { state_at self.now id ≡ Some result.0 }
        ensures status { status_at self.now id ≡ Some result.1 }
    {
        match self.request(id) {
            Request::Object { state, status } => (state, status),
            Request::Server { .. } => unreachable!(),
        }
    }

    /// Writes what stands under a number with a place. The signals follow.
    fn put(&mut self, id: CellId, request: Option<Request>)
        requires { id < self.old.limit }
        ensures changed { Changes self.old self.new id request }
        ensures signals { signals self.new + held (request_at self.old id) ≡ signals self.old + held request }
    {
        let slot = id.number() as usize;
        self.signals = self.signals - held(self.slots[slot]) + held(request);
        self.slots[slot] = request;
    }

    /// Writes over the request of an enlisted object.
    fn change(&mut self, id: CellId, request: Option<Request>)
        requires { IsEnlisted self.old id }
        ensures changed { Changes self.old self.new id request }
        ensures signals { signals self.new + held (request_at self.old id) ≡ signals self.old + held request }
    {
        // The look at a field tells that the numbers of enlisted objects are below the limit.
        let _ = &self.slots;
        self.put(id, request);
    }
}
