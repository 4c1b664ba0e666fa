//! A native that completes requests with the words of events.
ghost use Rattle.std.specs.Prelude.{ℕ, ℤ, pos, negsuc, ◌≡◌, ◌<◌, ◌≤◌, List, [], ◌∷◌, ◌++◌, Option, Some, None, MatchOption, length, take};
ghost use Rattle.aom_natives.specs.Owed.{IsNew, IsOwed, TakesOut};
ghost use Rattle.aom_natives.specs.Lines.{first_pair};

use crate::native::Native;
use crate::outstanding::place_of;
use arrayvec::ArrayVec;
use std::marker::Model;

/// Completes its requests in the order of their starts, each with the word of one event, in the order of these.
#[derive(Drop)]
pub struct Line {
    ids: ArrayVec<u32, 16>,
    words: ArrayVec<i32, 16>,
}

impl Model for Line {
    ghost use Rattle.aom_natives.specs.Lines.{Queues};

    ghost Value = { Queues };

    ghost view = { λ l. record { owed = l.ids.items; words = l.words.items } };
}

impl Line {
    pub fn new() -> Line
        ensures value { result ≡ record { owed = []; words = [] } }
        ensures owed { ⟦<Line as Native>⟧.owed result ≡ [] }
    {
        Line {
            ids: ArrayVec::new(),
            words: ArrayVec::new(),
        }
    }
}

impl Native for Line {
    ghost owed = { λ l. l.owed };

    ghost open_may = { λ _ _ answer. answer ≡ pos 0 };

    ghost start_may = { λ l _ _ _ answer. (length l.owed < 16 → answer ≡ pos 0) × (16 ≤ length l.owed → answer ≡ negsuc 15) };

    ghost call_may = { λ _ _ _ _ answer. answer ≡ negsuc 4 };

    ghost poll_may = { λ l _ answer. answer ≡ first_pair l.owed l.words };

    fn open(&mut self, _id: u32) -> i32
        ensures answer { result ≡ pos 0 }
        ensures same { self.new ≡ self.old }
    {
        0
    }

    fn start(&mut self, id: u32, _function: i32, _word: i32) -> i32
        requires { IsNew self.old.owed id }
        ensures owed { length self.old.owed < 16 → (result ≡ pos 0) × (self.new.owed ≡ self.old.owed ++ id ∷ []) }
        ensures full { 16 ≤ length self.old.owed → (result ≡ negsuc 15) × (self.new.owed ≡ self.old.owed) }
        ensures words { self.new.words ≡ self.old.words }
    {
        if self.ids.is_full() {
            return -16;
        }
        self.ids.push(id);
        0
    }

    fn call(&mut self, _id: u32, _function: i32, _word: i32) -> i32
        ensures answer { result ≡ negsuc 4 }
        ensures same { self.new ≡ self.old }
    {
        -5
    }

    fn cancel(&mut self, id: u32)
        requires { IsOwed self.old.owed id }
        ensures owed { TakesOut id self.old.owed self.new.owed }
        ensures words { self.new.words ≡ self.old.words }
    {
        let at = place_of(self.ids.as_slice(), id);
        self.ids.remove(at);
    }

    fn poll(&mut self, _now: u64) -> Option<(u32, i32)>
        ensures answer { result ≡ first_pair self.old.owed self.old.words }
        ensures gone { MatchOption result (self.new ≡ self.old) (λ p. (self.old.owed ≡ p.0 ∷ self.new.owed) × (self.old.words ≡ p.1 ∷ self.new.words)) }
    {
        if self.ids.is_empty() || self.words.is_empty() {
            return None;
        }
        let id = self.ids.remove(0);
        let word = self.words.remove(0);
        Some((id, word))
    }

    fn event(&mut self, word: i32)
        ensures owed { self.new.owed ≡ self.old.owed }
        ensures words { self.new.words ≡ take 16 (self.old.words ++ word ∷ []) }
    {
        if !self.words.is_full() {
            self.words.push(word);
        }
    }

    fn close(&mut self, _id: u32)
        requires { IsNew self.old.owed _id }
        ensures { self.new ≡ self.old }
    {}
}
