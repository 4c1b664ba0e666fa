//! The numbers of messages.
ghost use Rattle.std.specs.Prelude.{◌≡◌, ◌<◌, ◌≤◌, ◌+◌};
ghost use Rattle.aom_cells.specs.Store.{first_number};

use std::marker::Model;

/// The number of the message at place 0; those of cells lie below it.
pub const FIRST: u32 = 4096;

/// The place of a message, below 1,024, which contracts see as a number.
#[derive(Clone, Copy, PartialEq, Eq)]
pub struct MessageId {
    place: u16,
}

impl Model for MessageId {
    ghost use Rattle.std.specs.Prelude.{ℕ, ◌<◌};

    ghost Value = { ℕ };

    ghost view = { λ id. id.place };

    ghost invariant = { λ id. id.place < 1024 };

    ghost inverse = { λ n. record { place = n } };
}

impl MessageId {
    /// The id of that place, whether or not a message is kept there.
    pub fn new(place: u16) -> MessageId
        requires { place < 1024 }
        ensures { result ≡ place }
    {
        MessageId { place }
    }

    /// The id of the message of that number, whether or not it is kept.
    pub fn numbered(number: u32) -> MessageId
        requires from { first_number ≤ number }
        requires below { number < first_number + 1024 }
        ensures { first_number + result ≡ number }
    {
        MessageId::new((number - FIRST) as u16)
    }

    pub fn place(self) -> u16
        ensures value { result ≡ self }
        ensures in_range { result < 1024 }
    {
        self.place
    }

    /// Its number among those of cells and messages.
    pub fn number(self) -> u32
        ensures value { result ≡ first_number + self }
        ensures in_range { result < first_number + 1024 }
    {
        FIRST + u32::from(self.place)
    }
}
