//! One request, and what its state and its status say.
ghost use Rattle.std.specs.Prelude.{◌≡◌, Some};
ghost use Rattle.aom_scheduler.specs.Requests.{state_of, status_of, is_server, is_pending, kept_code, holds_signal, is_ready, with_state, with_status, taken};

/// The status of a request that is not completed: KRequestPending.
pub const PENDING: i32 = -2147483647;

/// The status of a request that was completed with `PENDING`: KErrGeneral.
const GENERAL_ERROR: i32 = -2;

/// How far an active object's request has come.
#[derive(Clone, Copy, PartialEq, Eq)]
pub enum RequestState {
    /// No request is made.
    Idle,
    /// A request is made, and the object does not wait for it yet.
    Issued,
    /// The object waits for its request.
    Active,
    /// The request is being cancelled, and may still be completed.
    Cancelling,
    /// The request is being cancelled, and is completed.
    Aborted,
}

/// What an enlisted object waits for.
#[derive(Clone, Copy)]
pub enum Request {
    /// An active object's, of which it has one at a time.
    Object { state: RequestState, status: i32 },
    /// A server's, for messages, with a signal while its queue is not empty.
    Server { has_signal: bool },
}

/// The status that a code of a completion is kept as.
pub fn kept_code(code: i32) -> i32
    ensures { result ≡ kept_code code }
{
    if code == PENDING { GENERAL_ERROR } else { code }
}

impl Request {
    pub fn is_server(&self) -> bool
        ensures { result ≡ is_server (Some self.now) }
    {
        matches!(self, Request::Server { .. })
    }

    pub fn is_pending(&self) -> bool
        ensures { result ≡ is_pending (Some self.now) }
    {
        match self {
            Request::Object {
                state: RequestState::Issued | RequestState::Active | RequestState::Cancelling,
                status,
            } => *status == PENDING,
            _ => false,
        }
    }

    pub fn holds_signal(&self) -> bool
        ensures { result ≡ holds_signal (Some self.now) }
    {
        match self {
            Request::Object {
                state: RequestState::Idle,
                ..
            } => false,
            Request::Object { .. } => !self.is_pending(),
            Request::Server { has_signal } => *has_signal,
        }
    }

    pub fn is_ready(&self) -> bool
        ensures { result ≡ is_ready (Some self.now) }
    {
        match self {
            Request::Object {
                state: RequestState::Active,
                status,
            } => *status != PENDING,
            Request::Object { .. } => false,
            Request::Server { has_signal } => *has_signal,
        }
    }

    pub fn with_state(self, to: RequestState) -> Request
        ensures { Some result ≡ with_state to (Some self) }
    {
        match self {
            Request::Object { status, .. } => Request::Object { state: to, status },
            server => server,
        }
    }

    pub fn with_status(self, to: i32) -> Request
        ensures { Some result ≡ with_status to (Some self) }
    {
        match self {
            Request::Object { state, .. } => Request::Object { state, status: to },
            server => server,
        }
    }

    /// The request once its signal is taken.
    pub fn taken(self) -> Request
        ensures { Some result ≡ taken (Some self) }
    {
        match self {
            Request::Object { .. } => self.with_state(RequestState::Idle),
            Request::Server { .. } => Request::Server { has_signal: false },
        }
    }
}
