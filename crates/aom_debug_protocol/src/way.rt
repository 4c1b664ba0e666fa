//! Where an object is owned: a place that is in no object, and from there on from object to object.
ghost use Rattle.std.specs.Prelude.{◌≡◌, ◌<◌, ◌↔◌, IfSome, IsSome};

use aom_instructions::{FieldIndex, Register};
use std::marker::Model;

/// A place that is in no object, as a debugger numbers it from the bottom.
#[derive(Clone, Copy)]
pub enum Outer {
    Root,
    /// A register of the method over so many others.
    Register(u16, Register),
    /// The entry of the cleanup stack over so many others.
    Entry(u16),
    /// The message that is served.
    Service,
    /// The destruction over so many others.
    Going(u16),
}

/// From an object to one that it owns.
#[derive(Clone, Copy)]
pub enum Branch {
    Field(FieldIndex),
    /// From a server to the session of a client.
    Session(ClientNumber),
}

impl Default for Branch {
    /// For the room that is not taken yet.
    fn default() -> Branch {
        Branch::Field(FieldIndex::FIRST)
    }
}

/// The number of a client, below 64, which contracts see as a number.
#[derive(Clone, Copy)]
pub struct ClientNumber {
    number: u8,
}

impl Model for ClientNumber {
    ghost use Rattle.std.specs.Prelude.{ℕ, ◌<◌};

    ghost Value = { ℕ };

    ghost view = { λ n. n.number };

    ghost invariant = { λ n. n.number < 64 };

    ghost inverse = { λ n. record { number = n } };
}

impl ClientNumber {
    /// The client of that number, if there is one.
    pub fn new(number: u8) -> Option<ClientNumber>
        ensures variant { IsSome result ↔ (number < 64) }
        ensures value { IfSome result (λ n. n ≡ number) }
    {
        if number < 64 {
            Some(ClientNumber { number })
        } else {
            None
        }
    }

    pub fn number(self) -> u8
        ensures value { result ≡ self }
        ensures in_range { result < 64 }
    {
        self.number
    }
}
