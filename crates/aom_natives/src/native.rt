//! What a program asks of a native.
ghost use Rattle.std.specs.Prelude.{ℕ, ℤ, pos, ◌≡◌, ◌≤ℤ◌, ◌<ℤ◌, List, ◌∷◌, Option, MatchOption};
ghost use Rattle.aom_natives.specs.Owed.{SameIds, IsNew, IsOwed};

/// A provider of requests outside the image. It owes an answer for each id that it was started with.
pub trait Native: Drop {
    /// The ids that it owes, in an order of its own.
    ghost owed: { Self → List ℕ };

    /// Which answers it may give as it stands, to `open` with that id.
    ghost open_may: { Self → ℕ → ℤ → Type 0 };

    /// To `start` with that id, function and word.
    ghost start_may: { Self → ℕ → ℤ → ℤ → ℤ → Type 0 };

    /// To `call` with that id, function and word.
    ghost call_may: { Self → ℕ → ℤ → ℤ → ℤ → Type 0 };

    /// To `poll` at that time.
    ghost poll_may: { Self → ℕ → Option (ℕ × ℤ) → Type 0 };

    /// A session begins, where the answer is not negative.
    fn open(&mut self, id: u32) -> i32
        ensures answer { open_may self.old id result }
        ensures owed { owed self.new ≡ owed self.old };

    /// A request begins, where the answer is not negative: then its completion is owed.
    fn start(&mut self, id: u32, function: i32, word: i32) -> i32
        requires { IsNew (owed self.old) id }
        ensures answer { start_may self.old id function word result }
        ensures taken { pos 0 ≤ℤ result → SameIds (owed self.new) (id ∷ owed self.old) }
        ensures refused { result <ℤ pos 0 → owed self.new ≡ owed self.old };

    /// Answers at once.
    fn call(&mut self, id: u32, function: i32, word: i32) -> i32
        ensures answer { call_may self.old id function word result }
        ensures owed { owed self.new ≡ owed self.old };

    /// The request is owed no more.
    fn cancel(&mut self, id: u32)
        requires { IsOwed (owed self.old) id }
        ensures { SameIds (owed self.old) (id ∷ owed self.new) };

    /// Completes a request that is owed, with its id and a code, or none. `now` is in microseconds.
    fn poll(&mut self, now: u64) -> Option<(u32, i32)>
        ensures answer { poll_may self.old now result }
        ensures owed { MatchOption result (owed self.new ≡ owed self.old) (λ p. SameIds (owed self.old) (p.0 ∷ owed self.new)) };

    /// Something happens outside.
    fn event(&mut self, word: i32)
        ensures { owed self.new ≡ owed self.old };

    /// A session ends.
    fn close(&mut self, id: u32)
        requires { IsNew (owed self.old) id }
        ensures { owed self.new ≡ owed self.old };
}
