//! A native that adds.
ghost use Rattle.std.specs.Prelude.{ℕ, ℤ, pos, negsuc, ◌≡◌, ◌≢◌, [], Option, None};
ghost use Rattle.std.specs.Int.{w32, int_wrapping_add};

use crate::native::Native;

/// Adds words to a total, by function 0. It starts nothing.
#[derive(Drop)]
pub struct Counter {
    /// The sum of the words so far, wrapping.
    pub total: i32,
}

impl Counter {
    pub fn new() -> Counter
        ensures value { result.total ≡ pos 0 }
        ensures owed { ⟦<Counter as Native>⟧.owed result ≡ [] }
    {
        Counter { total: 0 }
    }
}

impl Native for Counter {
    ghost owed = { λ _. [] };

    ghost open_may = { λ _ _ answer. answer ≡ pos 0 };

    ghost start_may = { λ _ _ _ _ answer. answer ≡ negsuc 4 };

    ghost call_may = { λ c _ function word answer. (function ≡ pos 0 → answer ≡ int_wrapping_add w32 c.total word) × (function ≢ pos 0 → answer ≡ negsuc 4) };

    ghost poll_may = { λ _ _ answer. answer ≡ None };

    fn open(&mut self, _id: u32) -> i32
        ensures answer { result ≡ pos 0 }
        ensures same { self.new ≡ self.old }
    {
        0
    }

    fn start(&mut self, _id: u32, _function: i32, _word: i32) -> i32
        ensures answer { result ≡ negsuc 4 }
        ensures same { self.new ≡ self.old }
    {
        -5
    }

    fn call(&mut self, _id: u32, function: i32, word: i32) -> i32
        ensures sum { function ≡ pos 0 → (result ≡ int_wrapping_add w32 self.old.total word) × (self.new.total ≡ result) }
        ensures other { function ≢ pos 0 → (result ≡ negsuc 4) × (self.new ≡ self.old) }
    {
        if function != 0 {
            return -5;
        }
        self.total = self.total.wrapping_add(word);
        self.total
    }

    fn cancel(&mut self, _id: u32)
        ensures { self.new ≡ self.old }
    {}

    fn poll(&mut self, _now: u64) -> Option<(u32, i32)>
        ensures answer { result ≡ None }
        ensures same { self.new ≡ self.old }
    {
        None
    }

    fn event(&mut self, _word: i32)
        ensures { self.new ≡ self.old }
    {}

    fn close(&mut self, _id: u32)
        ensures { self.new ≡ self.old }
    {}
}
