//! Where a transcript goes.
ghost use Rattle.std.specs.Prelude.{ℕ, Bool, true, false, ◌≡◌, ◌<◌, ◌≤◌, ◌+◌, List, ◌++◌, length, take, Option, option_map};

/// Where text goes. It may take less than it is given, or fail.
pub trait Sink {
    /// What is out, where the type tells it.
    ghost out: { Self → Option (List ℕ) };

    ghost failed: { Self → Bool };

    /// Sends the first bytes out, and answers how many. It fails where it is given some and takes none, and nowhere else.
    fn put(&mut self, bytes: &[u8]) -> usize
        ensures within { result ≤ length bytes.now }
        ensures sent { out self.new ≡ option_map (λ t. t ++ take result bytes.now) (out self.old) }
        ensures fails { 0 < length bytes.now → result ≡ 0 → failed self.new ≡ true }
        ensures lives { failed self.old ≡ false → 0 < result → failed self.new ≡ false }
        ensures empty { failed self.old ≡ false → length bytes.now ≡ 0 → failed self.new ≡ false }
        ensures stays { failed self.old ≡ true → (failed self.new ≡ true) × (result ≡ 0) };

    fn has_failed(&self) -> bool
        ensures { result ≡ failed self.now };
}

/// Writes the text out, and stops where the sink fails.
pub fn write_text<W: Sink>(sink: &mut W, text: &[u8])
    ensures prefix { (n : ℕ) × (n ≤ length text.now) × (W.out sink.new ≡ option_map (λ t. t ++ take n text.now) (W.out sink.old)) }
    ensures whole { W.failed sink.new ≡ false → W.out sink.new ≡ option_map (λ t. t ++ text.now) (W.out sink.old) }
{
    let mut at = 0;
    while at < text.len() && !sink.has_failed() {
        at += sink.put(&text[at..]);
    }
}
