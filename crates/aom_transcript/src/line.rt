//! What a run writes.
use aom_instructions::ClassNumber;

/// A line of the transcript, but for the last.
#[derive(Clone, Copy)]
pub enum Line {
    /// The dispatch of main begins, at that time.
    Main(u64),
    /// A printed word.
    Out(i32),
    /// A leave arrives at its trap with that code, after its unwinding.
    Leave(i32),
    /// A cell of that class went.
    Gone(ClassNumber),
    /// The dispatch of an object of that class begins, at that time, with that status.
    Run(u64, ClassNumber, i32),
    /// The native of that number was killed.
    Killed(u8),
    /// The dispatch of a server of that class begins, at that time, for such a request of that client.
    Serve(u64, ClassNumber, Asked, u8),
    /// A connect or a message of that client is completed with that code.
    Reply(u8, i32),
    /// So is a message of a client that has closed or died since it was sent, and nobody is told.
    Discard(u8, i32),
    /// What that client asked for was refused with that code.
    Refuse(u8, i32),
}

/// What waits in the queue of a server.
#[derive(Clone, Copy)]
pub enum Asked {
    Connect,
    Message,
    Close,
}

/// How a run ends.
#[derive(Clone, Copy, PartialEq, Eq)]
pub enum Ending {
    Stopped,
    Waiting,
    /// Main left with that code.
    MainLeft(i32),
    /// So many dispatches were over as the script allows.
    Limit,
    /// A dispatch was left, and that was the answer, which is not 0.
    Error(i32),
}
