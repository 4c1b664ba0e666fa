//! What stands below all tasks.
ghost use Rattle.std.specs.Prelude.{◌≡◌};

use aom_image::ClassNumber;

/// An object that is dispatched: the number of its cell, and its class.
#[derive(Clone, Copy)]
pub struct Subject {
    pub number: u32,
    /// A plain number, as a cell has it.
    class: u8,
}

impl Subject {
    pub fn new(number: u32, class: ClassNumber) -> Subject
        ensures { result ≡ record { number = number; class = class } }
    {
        Subject {
            number,
            class: class.number() as u8,
        }
    }

    pub fn class(self) -> ClassNumber
        ensures { result ≡ self.class }
    {
        ClassNumber::new(u16::from(self.class)).unwrap()
    }
}

/// How far the dispatch of a server has come with the first of its queue.
#[derive(Clone, Copy)]
pub enum Stage {
    /// Of a connect: its accept runs, has given a session, or has left with that code.
    Accepts,
    Accepted,
    AcceptLeft(i32),
    /// Of a message: the service of that session runs, or has left with that code.
    Serves(Subject),
    ServiceLeft(i32),
    /// Of a close: the session goes, or is gone.
    Disconnects,
}

/// What a dispatch is of.
#[derive(Clone, Copy)]
pub enum Dispatch {
    Main,
    /// The end of main's, which left with that code.
    MainLeft(i32),
    /// The end of a stopped run, once the root is gone.
    Root,
    /// An object's RunL.
    Object(Subject),
    /// The end of an object's, whose RunL left with that code.
    ObjectLeft(Subject, i32),
    /// An object's RunError is asked.
    Asks(Subject),
    /// The end of an object's, whose RunError gave that answer.
    Answered(Subject, i32),
    /// A server's, for that client. Once all is served it is an object's.
    Server(Subject, u8, Stage),
}
