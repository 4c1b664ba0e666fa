//! Sessions by the number of a cell, and the natives that are killed.
ghost use Rattle.std.specs.Prelude.{◌≡◌, ◌<◌, ◌≤◌, ◌++◌, ◌∷◌, [], IfOk, IsTrue, length, replicate, true, false};
ghost use Rattle.aom_cells.specs.Sessions.{is_open, is_killed, Sets};

use crate::CellId;
use std::alloc::{AllocError, Global};
use std::marker::Model;

/// A native that can be killed has one of so many numbers.
const MAX_NATIVES: usize = 256;

/// Which cells have a session, and which natives are killed.
#[derive(Drop)]
pub struct Sessions {
    flags: Vec<bool>,
    /// Each once, the first first.
    killed: Vec<u8>,
}

impl Model for Sessions {
    ghost use Rattle.std.specs.Prelude.{vec_capacity, ◌≤◌};
    ghost use Rattle.aom_cells.specs.Sessions.{AreNatives, Standing};

    ghost Value = { Standing };

    ghost view = { λ s. record { flags = s.flags.items; killed = s.killed.items } };

    ghost invariant = { λ s. (256 ≤ vec_capacity s.killed) × AreNatives s.killed.items };
}

impl Sessions {
    /// No session and no death, with a place for each cell below `cells` and for the end of each native that can end, which is all the
    /// memory that is ever taken.
    #[tactic(auto, using(crate::proofs::Numbers::no_natives))]
    pub fn with_limit(alloc: Global, cells: usize) -> Result<Sessions, AllocError>
        ensures { IfOk result (λ s. s ≡ record { flags = replicate cells false; killed = [] }) }
    {
        let flags = vec![in alloc; false; cells]?;
        let killed = Vec::with_capacity(alloc, MAX_NATIVES)?;
        Ok(Sessions { flags, killed })
    }

    /// Whether the cell of that number has a session open. One that has no place has none.
    pub fn is_open(&self, id: CellId) -> bool
        ensures { result ≡ is_open self.now id }
    {
        self.flags
            .get(id.number() as usize)
            .copied()
            .unwrap_or(false)
    }

    /// The cell of that number has a session from then on.
    pub fn open(&mut self, id: CellId)
        requires { id < length self.old.flags }
        ensures { Sets self.old self.new id true }
    {
        self.flags[id.number() as usize] = true;
    }

    /// The cell of that number has no session from then on. One that has no place has none.
    pub fn close(&mut self, id: CellId)
        ensures { Sets self.old self.new id false }
    {
        let place = id.number() as usize;
        if place < self.flags.len() {
            self.flags[place] = false;
        }
    }

    /// Whether that native is killed.
    pub fn is_dead(&self, native: usize) -> bool
        ensures { result ≡ is_killed self.now native }
    {
        self.killed.iter().any(|killed| *killed as usize == native)
    }

    /// That native is killed, after those that are.
    pub fn kill(&mut self, native: u8)
        requires { is_killed self.old native ≡ false }
        ensures { self.new ≡ record self.old { killed = self.old.killed ++ native ∷ [] } }
    {
        self.killed.push(native).unwrap();
    }
}
