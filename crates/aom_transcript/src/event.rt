//! What a run hears from outside.

/// What comes from outside between dispatches.
#[derive(Clone, Copy, PartialEq, Eq)]
pub enum Event {
    /// A word for the native of that number.
    Report(u8, i32),
    /// The native of that number is killed.
    Kill(u8),
    /// What the client of that number does.
    Client(u8, ClientCommand),
}

/// What a client does.
#[derive(Clone, Copy, PartialEq, Eq)]
pub enum ClientCommand {
    /// It asks a server of that class for a session with so many slots.
    Connect(u8, u8),
    /// It sends a message of these words, the function first.
    Send([i32; 5]),
    Close,
    Die,
}

/// An event, and when it comes, in microseconds.
#[derive(Clone, Copy, PartialEq, Eq)]
pub struct TimedEvent {
    pub time: u64,
    pub event: Event,
}
