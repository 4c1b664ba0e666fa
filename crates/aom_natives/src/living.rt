//! One living native with what is outstanding there.
ghost use Rattle.std.specs.Prelude.{ℕ, ℤ, pos, ◌≡◌, ◌<◌, ◌≤ℤ◌, ◌<ℤ◌, List, [], ◌∷◌, ◌++◌, Option, MatchOption, length};
ghost use Rattle.aom_natives.specs.Owed.{Agrees, SameIds, IsNew, IsOwed, TakesOut};

use crate::native::Native;
use crate::outstanding::Outstanding;

/// A living native, and the ids of the requests that are outstanding there.
#[derive(Drop)]
pub struct LiveNative {
    pub native: Box<dyn Native>,
    pub ids: Outstanding,
}

// The calls at a box which the trait asks something of, or whose answer is looked at, with the trait's clauses.

fn start_box(native: &mut Box<dyn Native>, id: u32, function: i32, word: i32) -> i32
    requires { IsNew (owed native.old) id }
    ensures answer { start_may native.old id function word result }
    ensures taken { pos 0 ≤ℤ result → SameIds (owed native.new) (id ∷ owed native.old) }
    ensures refused { result <ℤ pos 0 → owed native.new ≡ owed native.old }
{
    native.start(id, function, word)
}

fn cancel_box(native: &mut Box<dyn Native>, id: u32)
    requires { IsOwed (owed native.old) id }
    ensures { SameIds (owed native.old) (id ∷ owed native.new) }
{
    native.cancel(id);
}

fn poll_box(native: &mut Box<dyn Native>, now: u64) -> Option<(u32, i32)>
    ensures answer { poll_may native.old now result }
    ensures owed { MatchOption result (owed native.new ≡ owed native.old) (λ p. SameIds (owed native.old) (p.0 ∷ owed native.new)) }
{
    native.poll(now)
}

fn close_box(native: &mut Box<dyn Native>, id: u32)
    requires { IsNew (owed native.old) id }
    ensures { owed native.new ≡ owed native.old }
{
    native.close(id);
}

impl LiveNative {
    pub(crate) fn open(&mut self, id: u32) -> i32
        requires agree { Agrees self.old.ids (owed self.old.native) }
        ensures agree { Agrees self.new.ids (owed self.new.native) }
        ensures answer { open_may self.old.native id result }
        ensures ids { self.new.ids ≡ self.old.ids }
    {
        self.native.open(id)
    }

    /// Starts the native for `id`, which is outstanding where the answer is not negative.
    pub(crate) fn start(&mut self, id: u32, function: i32, word: i32) -> i32
        requires agree { Agrees self.old.ids (owed self.old.native) }
        requires fresh { IsNew self.old.ids id }
        requires room { length self.old.ids < 4096 }
        ensures agree { Agrees self.new.ids (owed self.new.native) }
        ensures answer { start_may self.old.native id function word result }
        ensures taken { pos 0 ≤ℤ result → self.new.ids ≡ self.old.ids ++ id ∷ [] }
        ensures refused { result <ℤ pos 0 → self.new.ids ≡ self.old.ids }
    {
        let answer = start_box(&mut self.native, id, function, word);
        if answer >= 0 {
            self.ids.put(id);
        }
        answer
    }

    pub(crate) fn call(&mut self, id: u32, function: i32, word: i32) -> i32
        requires agree { Agrees self.old.ids (owed self.old.native) }
        ensures agree { Agrees self.new.ids (owed self.new.native) }
        ensures answer { call_may self.old.native id function word result }
        ensures ids { self.new.ids ≡ self.old.ids }
    {
        self.native.call(id, function, word)
    }

    /// Cancels `id`, which is outstanding, and is no more.
    pub(crate) fn cancel(&mut self, id: u32)
        requires agree { Agrees self.old.ids (owed self.old.native) }
        requires owed { IsOwed self.old.ids id }
        ensures agree { Agrees self.new.ids (owed self.new.native) }
        ensures ids { TakesOut id self.old.ids self.new.ids }
    {
        cancel_box(&mut self.native, id);
        self.ids.take_out(id);
    }

    /// Asks for one completion. Its id is outstanding no more.
    pub(crate) fn poll(&mut self, now: u64) -> Option<(u32, i32)>
        requires agree { Agrees self.old.ids (owed self.old.native) }
        ensures agree { Agrees self.new.ids (owed self.new.native) }
        ensures answer { poll_may self.old.native now result }
        ensures ids { MatchOption result (self.new.ids ≡ self.old.ids) (λ p. TakesOut p.0 self.old.ids self.new.ids) }
    {
        let answer = poll_box(&mut self.native, now);
        match answer {
            Some((id, _)) => self.ids.take_out(id),
            None => {}
        }
        answer
    }

    pub(crate) fn event(&mut self, word: i32)
        requires agree { Agrees self.old.ids (owed self.old.native) }
        ensures agree { Agrees self.new.ids (owed self.new.native) }
        ensures ids { self.new.ids ≡ self.old.ids }
    {
        self.native.event(word);
    }

    pub(crate) fn close(&mut self, id: u32)
        requires agree { Agrees self.old.ids (owed self.old.native) }
        requires fresh { IsNew self.old.ids id }
        ensures agree { Agrees self.new.ids (owed self.new.native) }
        ensures ids { self.new.ids ≡ self.old.ids }
    {
        close_box(&mut self.native, id);
    }
}
