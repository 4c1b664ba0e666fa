//! A native that completes requests after so many polls.
ghost use Rattle.std.specs.Prelude.{ℕ, ℤ, pos, negsuc, ◌≡◌, ◌<◌, ◌≤◌, ◌==◌, ◌≤ℤ◌, ◌<ℤ◌, List, [], ◌∷◌, ◌++◌, Option, Some, None, MatchOption, length, map, option_map, find, position, remove};
ghost use Rattle.std.specs.List.{position_or_len};
ghost use Rattle.aom_natives.specs.Owed.{SameIds, IsNew, IsOwed, TakesOut};
ghost use Rattle.aom_natives.specs.Delays.{ids_in, completed, is_due, lowered};

use crate::native::Native;
use arrayvec::ArrayVec;
use std::marker::Model;

/// A request that is owed.
#[derive(Clone, Copy, Default)]
pub struct OwedRequest {
    pub id: u32,
    /// How many polls it waits for yet.
    pub count: u32,
    /// What it is completed with.
    pub code: i32,
}

/// Completes each request after as many polls as its word says, with its function as the code.
#[derive(Drop)]
pub struct Delay {
    entries: ArrayVec<OwedRequest, 16>,
}

impl OwedRequest {
    /// Its completion.
    fn completed(&self) -> (u32, i32)
        ensures { result ≡ completed self.now }
    {
        (self.id, self.code)
    }

    /// It waits for one poll less.
    fn decrement(&mut self)
        ensures { self.new ≡ lowered self.old }
    {
        self.count = self.count.saturating_sub(1);
    }
}

impl Model for Delay {
    ghost use Rattle.std.specs.Prelude.{List};
    ghost use Rattle.aom_natives.specs.declared.delay.OwedRequest.{OwedRequest};

    ghost Value = { List OwedRequest };

    ghost view = { λ d. d.entries.items };
}

/// Each entry waits for one poll less.
fn decrement_all(entries: &mut [OwedRequest])
    ensures { entries.new ≡ map lowered entries.old }
{
    for entry in entries.iter_mut() {
        entry.decrement();
    }
}

/// Where the first entry of an id stands.
fn place_in(entries: &[OwedRequest], id: u32) -> Option<usize>
    ensures { result ≡ position (λ e. id == e.id) entries.now }
{
    entries.iter().position(|e| id == e.id)
}

/// Where the first entry stands that waits no more.
fn first_due(entries: &[OwedRequest]) -> Option<usize>
    ensures { result ≡ position is_due entries.now }
{
    entries.iter().position(|e| e.count == 0)
}

impl Delay {
    pub fn new() -> Delay
        ensures value { result ≡ [] }
        ensures owed { ⟦<Delay as Native>⟧.owed result ≡ [] }
    {
        Delay {
            entries: ArrayVec::new(),
        }
    }
}

impl Native for Delay {
    ghost owed = { λ d. ids_in d };

    ghost open_may = { λ _ _ answer. answer ≡ pos 0 };

    ghost start_may = { λ d _ _ word answer. ((n : ℕ) → word ≡ negsuc n → answer ≡ negsuc 5) × ((n : ℕ) → word ≡ pos n → length d < 16 → answer ≡ pos 0) × ((n : ℕ) → word ≡ pos n → 16 ≤ length d → answer ≡ negsuc 15) };

    ghost call_may = { λ _ _ _ _ answer. answer ≡ negsuc 4 };

    ghost poll_may = { λ d _ answer. answer ≡ option_map completed (find is_due d) };

    fn open(&mut self, _id: u32) -> i32
        ensures answer { result ≡ pos 0 }
        ensures same { self.new ≡ self.old }
    {
        0
    }

    fn start(&mut self, id: u32, function: i32, word: i32) -> i32
        requires { IsNew (ids_in self.old) id }
        ensures answer { ((n : ℕ) → word ≡ negsuc n → result ≡ negsuc 5) × ((n : ℕ) → word ≡ pos n → length self.old < 16 → result ≡ pos 0) × ((n : ℕ) → word ≡ pos n → 16 ≤ length self.old → result ≡ negsuc 15) }
        ensures taken { pos 0 ≤ℤ result → SameIds (ids_in self.new) (id ∷ ids_in self.old) }
        ensures entry { (n : ℕ) → word ≡ pos n → pos 0 ≤ℤ result → self.new ≡ self.old ++ record { id = id; count = n; code = function } ∷ [] }
        ensures refused { result <ℤ pos 0 → self.new ≡ self.old }
    {
        if word < 0 {
            return -6;
        }
        if self.entries.is_full() {
            return -16;
        }
        self.entries.push(OwedRequest {
            id,
            count: word as u32,
            code: function,
        });
        0
    }

    fn call(&mut self, _id: u32, _function: i32, _word: i32) -> i32
        ensures answer { result ≡ negsuc 4 }
        ensures same { self.new ≡ self.old }
    {
        -5
    }

    fn cancel(&mut self, id: u32)
        requires { IsOwed (ids_in self.old) id }
        ensures owed { TakesOut id (ids_in self.old) (ids_in self.new) }
        ensures entry { (e : _) × (e.id ≡ id) × TakesOut e self.old self.new }
    {
        match place_in(self.entries.as_slice(), id) {
            Some(at) => {
                self.entries.remove(at);
            }
            None => unreachable!(),
        }
    }

    fn poll(&mut self, _now: u64) -> Option<(u32, i32)>
        ensures answer { result ≡ option_map completed (find is_due self.old) }
        ensures entries { MatchOption result (self.new ≡ map lowered self.old) (λ _. self.new ≡ remove self.old (position_or_len is_due self.old)) }
        ensures owed { MatchOption result (ids_in self.new ≡ ids_in self.old) (λ p. TakesOut p.0 (ids_in self.old) (ids_in self.new)) }
    {
        match first_due(self.entries.as_slice()) {
            Some(at) => Some(self.entries.remove(at).completed()),
            None => {
                decrement_all(self.entries.as_mut_slice());
                None
            }
        }
    }

    fn event(&mut self, _word: i32)
        ensures { self.new ≡ self.old }
    {}

    fn close(&mut self, _id: u32)
        requires { IsNew (ids_in self.old) _id }
        ensures { self.new ≡ self.old }
    {}
}
