//! Sums by place or by method. What is more than 2^32 counts for 2^32.
ghost use Rattle.std.specs.Prelude.{◌≡◌, ◌≤◌, ◌<◌, ◌==◌, ℕ, cond, length, max, replicate, slice_set, IfOk};
ghost use Rattle.aom_roles.specs.Tables.{at};
ghost use Rattle.aom_budget.specs.Pricing.{AreKept, kept};

use std::alloc::{AllocError, Global};
use std::marker::Model;

/// The most that a sum counts for.
const MAX: u64 = 4_294_967_296;

/// The sum, or the most that one counts for.
pub(crate) fn kept(sum: u64) -> u64
    ensures { result ≡ kept sum }
{
    sum.min(MAX)
}

#[derive(Drop)]
pub(crate) struct Sums {
    numbers: Vec<u64>,
}

impl Model for Sums {
    ghost use Rattle.std.specs.Prelude.{ℕ, List};
    ghost use Rattle.aom_budget.specs.Pricing.{AreKept};

    ghost Value = { List ℕ };

    ghost view = { λ s. s.numbers.items };

    ghost invariant = { λ s. AreKept s.numbers.items };
}

impl Sums {
    /// 0 for each of so many.
    pub(crate) fn new(alloc: Global, count: usize) -> Result<Sums, AllocError>
        ensures { IfOk result (λ s. s ≡ replicate count 0) }
    {
        let numbers = vec![in alloc; 0; count]?;
        Ok(Sums { numbers })
    }

    pub(crate) fn len(&self) -> usize
        ensures { result ≡ length self.now }
    {
        self.numbers.len()
    }

    /// None counts for more than 2^32.
    pub(crate) fn low(&self)
        ensures { AreKept self.now }
    {
        let _ = &self.numbers;
    }

    /// It is 0 past the end.
    pub(crate) fn at(&self, index: usize) -> u64
        ensures is { result ≡ at 0 self.now index }
        ensures low { result ≤ 4294967296 }
    {
        self.at_or(0, index)
    }

    /// It is that number past the end.
    pub(crate) fn at_or(&self, past: u64, index: usize) -> u64
        requires { past ≤ 4294967296 }
        ensures is { result ≡ at past self.now index }
        ensures low { result ≤ 4294967296 }
    {
        if index < self.numbers.len() {
            self.numbers[index]
        } else {
            past
        }
    }

    pub(crate) fn set(&mut self, index: usize, sum: u64)
        requires within { index < length self.old }
        requires low { sum ≤ 4294967296 }
        ensures { self.new ≡ slice_set self.old index sum }
    {
        self.numbers[index] = sum;
    }

    /// Keeps what is greater, where it is one of them.
    pub(crate) fn raise(&mut self, index: usize, sum: u64)
        requires { sum ≤ 4294967296 }
        ensures size { length self.new ≡ length self.old }
        ensures each { (k : ℕ) → k < length self.old → at 0 self.new k ≡ max (at 0 self.old k) (cond (index == k) sum 0) }
    {
        if index < self.numbers.len() {
            self.set(index, self.at(index).max(sum));
        }
    }
}
