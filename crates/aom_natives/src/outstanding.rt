//! The ids that are outstanding at one native.
ghost use Rattle.std.specs.Prelude.{◌≡◌, ◌<◌, [], ◌∷◌, ◌++◌, length, ◌==◌, IfOk, slice_index_or};
ghost use Rattle.std.specs.List.{list_any};
ghost use Rattle.aom_natives.specs.Owed.{IsOwed, TakesOut};

use std::alloc::{AllocError, Global};
use std::marker::Model;

/// How many ids may be outstanding at one native.
pub const ROOM: usize = 4096;

/// Ids with room for 4,096, in the order in which they came.
#[derive(Drop)]
pub struct Outstanding {
    ids: Vec<u32>,
}

impl Model for Outstanding {
    ghost use Rattle.std.specs.Prelude.{ℕ, List, ◌≤◌, vec_capacity};

    ghost Value = { List ℕ };

    ghost view = { λ o. o.ids.items };

    ghost invariant = { λ o. 4096 ≤ vec_capacity o.ids };
}

/// Whether an id stands there.
pub(crate) fn is_in(ids: &[u32], id: u32) -> bool
    ensures { result ≡ list_any (λ x. id == x) ids.now }
{
    ids.iter().any(|x| id == *x)
}

/// Where an id stands.
pub(crate) fn place_of(ids: &[u32], id: u32) -> usize
    requires { IsOwed ids.now id }
    ensures within { result < length ids.now }
    ensures value { slice_index_or ids.now result id ≡ id }
{
    match ids.iter().position(|x| *x == id) {
        Some(at) => at,
        None => unreachable!(),
    }
}

impl Outstanding {
    /// No ids, and all the memory that is ever taken.
    pub(crate) fn with_room(alloc: Global) -> Result<Outstanding, AllocError>
        ensures { IfOk result (λ o. o ≡ []) }
    {
        let ids = Vec::with_capacity(alloc, ROOM)?;
        Ok(Outstanding { ids })
    }

    pub(crate) fn ids(&self) -> &[u32]
        ensures { result.now ≡ self.now }
    {
        self.ids.as_slice()
    }

    pub(crate) fn put(&mut self, id: u32)
        requires { length self.old < 4096 }
        ensures { self.new ≡ self.old ++ id ∷ [] }
    {
        self.ids.push(id).unwrap();
    }

    /// Takes out one `id`, which is there. The others stay in their order.
    pub(crate) fn take_out(&mut self, id: u32)
        requires { IsOwed self.old id }
        ensures { TakesOut id self.old self.new }
    {
        let at = place_of(self.ids.as_slice(), id);
        self.ids.remove(at);
    }

    pub(crate) fn into_ids(self) -> Vec<u32>
        ensures { result.items ≡ self }
    {
        let Outstanding { ids } = self;
        ids
    }
}
