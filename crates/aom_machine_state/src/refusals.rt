//! The numbers of the requests that are refused.
ghost use Rattle.std.specs.Prelude.{◌≡◌, ◌==◌, IfOk};
ghost use Rattle.std.specs.List.{list_any};

use std::alloc::{AllocError, Global};
use std::marker::Model;

/// Numbers of requests in the order in which they were given, which are looked up in an ordered copy.
#[derive(Drop)]
pub struct Refusals {
    numbers: Vec<u32>,
    ordered: Vec<u32>,
}

impl Model for Refusals {
    ghost use Rattle.std.specs.Prelude.{ℕ, List};
    ghost use Rattle.std.specs.List.Sorted.{IsPermutation, IsNonDecreasing};

    ghost Value = { List ℕ };

    ghost view = { λ r. r.numbers.items };

    ghost invariant = { λ r. IsPermutation r.numbers.items r.ordered.items × IsNonDecreasing r.ordered.items };
}

impl Refusals {
    pub fn new(alloc: Global, numbers: Vec<u32>) -> Result<Refusals, AllocError>
        ensures { IfOk result (λ r. r ≡ numbers.items) }
    {
        let mut ordered = Vec::from_slice(alloc, numbers.as_slice())?;
        ordered.sort_unstable();
        Ok(Refusals { numbers, ordered })
    }

    pub fn contains(&self, number: u64) -> bool
        ensures { result ≡ list_any (λ n. n == number) self.now }
    {
        let place = self
            .ordered
            .binary_search_by_key(&number, |n| u64::from(*n));
        place.is_ok()
    }
}
