//! The numbers of cells, and the number that stands for none.
ghost use Rattle.std.specs.Prelude.{◌≡◌, ◌<◌};

use std::marker::Model;

/// The number that stands for no cell.
pub const NULL: u32 = 4294967295;

/// The number of a cell, below 4,096, which contracts see as a number.
#[derive(Clone, Copy, PartialEq, Eq)]
pub struct CellId {
    number: u32,
}

impl Model for CellId {
    ghost use Rattle.std.specs.Prelude.{ℕ, ◌<◌};

    ghost Value = { ℕ };

    ghost view = { λ id. id.number };

    ghost invariant = { λ id. id.number < 4096 };

    ghost inverse = { λ n. record { number = n } };
}

impl CellId {
    /// The id with this number, whether or not a cell lives there.
    pub fn new(number: u32) -> CellId
        requires { number < 4096 }
        ensures { result ≡ number }
    {
        CellId { number }
    }

    pub fn number(self) -> u32
        ensures value { result ≡ self }
        ensures in_range { result < 4096 }
    {
        self.number
    }
}
