//! Where commands come from: a reader, which says of itself what it has given, whether it is at its end and whether it has failed.
ghost use Rattle.std.specs.Prelude.{Bool, IfNone, IfSome, List, Option, Some, ℕ, ◌++◌, ◌<◌, ◌≤◌, ◌≡◌, length, option_map, take, true};

/// Where bytes come from.
pub trait Reader {
    /// All that it has given so far, where the type tells it.
    ghost given: { Self → Option (List ℕ) };

    /// Whether it has told that it is at its end.
    ghost ended: { Self → Bool };

    /// Whether a read has failed.
    ghost failed: { Self → Bool };

    /// Writes the next bytes to the beginning of a buffer, and answers how many: 0 at the end, and nothing where it fails.
    fn get(&mut self, buffer: &mut [u8]) -> Option<usize>
        ensures within { IfSome result (λ count. count ≤ length buffer.old) }
        ensures long { length buffer.new ≡ length buffer.old }
        ensures gives { IfSome result (λ count. given self.new ≡ option_map (λ t. t ++ take count buffer.new) (given self.old)) }
        ensures ends { result ≡ Some 0 → 0 < length buffer.old → ended self.new ≡ true }
        ensures lives { IfSome result (λ _. failed self.new ≡ failed self.old) }
        ensures fails { IfNone result ((given self.new ≡ given self.old) × (failed self.new ≡ true)) };
}
