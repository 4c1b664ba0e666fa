//! The natives of a machine, by number.
ghost use Rattle.std.specs.Prelude.{ℕ, ℤ, pos, ◌≡◌, ◌<◌, ◌≤◌, ◌+◌, ◌≤ℤ◌, ◌<ℤ◌, option_map, List, [], ◌∷◌, ◌++◌, Option, Some, None, MatchOption, IsSome, IfSome, IfOk, IfErr, is_some, IsTrue, IsFalse, length, map, replicate, vec_len, vec_capacity};
ghost use Rattle.aom_natives.specs.Owed.{OweNothing, IsNew, IsOwed, TakesOut};
ghost use Rattle.aom_natives.specs.Slots.{living_at, ids_at, AllAgree, KeepsOthers};

use crate::living::LiveNative;
use crate::native::Native;
use crate::outstanding::{Outstanding, is_in};
use std::alloc::{AllocError, Global};

/// The natives of a machine, by number. One that was killed is None.
#[derive(Drop)]
pub struct Natives {
    pub slots: Vec<Option<LiveNative>>,
}

/// Room for so many natives and the ids that will be outstanding at each.
fn room_for(
    alloc: Global,
    count: usize,
) -> Result<(Vec<Option<LiveNative>>, Vec<Outstanding>), AllocError>
    ensures slots { IfOk result (λ r. (r.0.items ≡ []) × (count ≤ vec_capacity r.0)) }
    ensures ids { IfOk result (λ r. r.1.items ≡ replicate count []) }
{
    let mut rooms = Vec::with_capacity(alloc, count)?;
    for _ in 0..count {
        rooms.push(Outstanding::with_room(alloc)?)?;
    }
    let slots = Vec::with_capacity(alloc, count)?;
    Ok((slots, rooms))
}

impl Natives {
    /// Takes the boxes over, each owing nothing. All the memory that is ever taken is asked for first; where it is wanting, the boxes come back.
    pub fn adopt(
        alloc: Global,
        mut boxes: Vec<Box<dyn Native>>,
    ) -> Result<Natives, (AllocError, Vec<Box<dyn Native>>)>
        requires { OweNothing (λ b. owed b) boxes.items }
        ensures boxes { IfOk result (λ n. map (option_map (λ l. l.native)) n.slots.items ≡ map (λ b. Some b) boxes.items) }
        ensures nothing { IfOk result (λ n. (k : ℕ) → ids_at (λ l. l.ids) n.slots.items k ≡ []) }
        ensures agree { IfOk result (λ n. AllAgree (λ l. l.ids) (λ l. owed l.native) n.slots.items) }
        ensures back { IfErr result (λ e. e.1.items ≡ boxes.items) }
    {
        let (mut slots, mut rooms) = match room_for(alloc, boxes.len()) {
            Ok(room) => room,
            Err(error) => return Err((error, boxes)),
        };
        while let Some(ids) = rooms.pop() {
            let native = boxes.remove(0);
            slots.push(Some(LiveNative { native, ids })).unwrap();
        }
        Ok(Natives { slots })
    }

    /// How many there are, the dead among them.
    pub fn count(&self) -> usize
        ensures { result ≡ vec_len self.now.slots }
    {
        self.slots.len()
    }

    /// Whether there is a native with that number which was not killed.
    pub fn is_alive(&self, n: usize) -> bool
        ensures { result ≡ is_some (living_at self.now.slots.items n) }
    {
        matches!(self.slots.get(n), Some(Some(_)))
    }

    /// The ids that are outstanding at a native, in the order in which they were started; none at a dead one.
    pub fn outstanding(&self, n: usize) -> &[u32]
        ensures { result.now ≡ ids_at (λ l. l.ids) self.now.slots.items n }
    {
        match self.slots.get(n) {
            Some(Some(living)) => living.ids.ids(),
            _ => &[],
        }
    }

    /// Whether a request of that id is outstanding at a native.
    pub fn is_outstanding(&self, n: usize, id: u32) -> bool
        ensures owed { IsTrue result → IsOwed (ids_at (λ l. l.ids) self.now.slots.items n) id }
        ensures fresh { IsFalse result → IsNew (ids_at (λ l. l.ids) self.now.slots.items n) id }
    {
        is_in(self.outstanding(n), id)
    }

    /// Opens a session of `id` at a living native.
    pub fn open(&mut self, n: usize, id: u32) -> i32
        requires agree { AllAgree (λ l. l.ids) (λ l. owed l.native) self.old.slots.items }
        requires alive { IsSome (living_at self.old.slots.items n) }
        ensures agree { AllAgree (λ l. l.ids) (λ l. owed l.native) self.new.slots.items }
        ensures answer { IfSome (living_at self.old.slots.items n) (λ l. open_may l.native id result) }
        ensures ids { ids_at (λ l. l.ids) self.new.slots.items n ≡ ids_at (λ l. l.ids) self.old.slots.items n }
        ensures alive { IsSome (living_at self.new.slots.items n) }
        ensures others { KeepsOthers self.old.slots.items self.new.slots.items n }
    {
        match &mut self.slots[n] {
            Some(living) => living.open(id),
            None => unreachable!(),
        }
    }

    /// Starts a living native for `id`, which is outstanding there where the answer is not negative.
    pub fn start(&mut self, n: usize, id: u32, function: i32, word: i32) -> i32
        requires agree { AllAgree (λ l. l.ids) (λ l. owed l.native) self.old.slots.items }
        requires alive { IsSome (living_at self.old.slots.items n) }
        requires fresh { IsNew (ids_at (λ l. l.ids) self.old.slots.items n) id }
        requires room { length (ids_at (λ l. l.ids) self.old.slots.items n) < 4096 }
        ensures agree { AllAgree (λ l. l.ids) (λ l. owed l.native) self.new.slots.items }
        ensures answer { IfSome (living_at self.old.slots.items n) (λ l. start_may l.native id function word result) }
        ensures taken { pos 0 ≤ℤ result → ids_at (λ l. l.ids) self.new.slots.items n ≡ ids_at (λ l. l.ids) self.old.slots.items n ++ id ∷ [] }
        ensures refused { result <ℤ pos 0 → ids_at (λ l. l.ids) self.new.slots.items n ≡ ids_at (λ l. l.ids) self.old.slots.items n }
        ensures alive { IsSome (living_at self.new.slots.items n) }
        ensures others { KeepsOthers self.old.slots.items self.new.slots.items n }
    {
        match &mut self.slots[n] {
            Some(living) => living.start(id, function, word),
            None => unreachable!(),
        }
    }

    /// Asks a living native for an answer at once.
    pub fn call(&mut self, n: usize, id: u32, function: i32, word: i32) -> i32
        requires agree { AllAgree (λ l. l.ids) (λ l. owed l.native) self.old.slots.items }
        requires alive { IsSome (living_at self.old.slots.items n) }
        ensures agree { AllAgree (λ l. l.ids) (λ l. owed l.native) self.new.slots.items }
        ensures answer { IfSome (living_at self.old.slots.items n) (λ l. call_may l.native id function word result) }
        ensures ids { ids_at (λ l. l.ids) self.new.slots.items n ≡ ids_at (λ l. l.ids) self.old.slots.items n }
        ensures alive { IsSome (living_at self.new.slots.items n) }
        ensures others { KeepsOthers self.old.slots.items self.new.slots.items n }
    {
        match &mut self.slots[n] {
            Some(living) => living.call(id, function, word),
            None => unreachable!(),
        }
    }

    /// Cancels at a living native a request that is outstanding there, and is no more.
    pub fn cancel(&mut self, n: usize, id: u32)
        requires agree { AllAgree (λ l. l.ids) (λ l. owed l.native) self.old.slots.items }
        requires alive { IsSome (living_at self.old.slots.items n) }
        requires owed { IsOwed (ids_at (λ l. l.ids) self.old.slots.items n) id }
        ensures agree { AllAgree (λ l. l.ids) (λ l. owed l.native) self.new.slots.items }
        ensures ids { TakesOut id (ids_at (λ l. l.ids) self.old.slots.items n) (ids_at (λ l. l.ids) self.new.slots.items n) }
        ensures alive { IsSome (living_at self.new.slots.items n) }
        ensures others { KeepsOthers self.old.slots.items self.new.slots.items n }
    {
        match &mut self.slots[n] {
            Some(living) => living.cancel(id),
            None => unreachable!(),
        }
    }

    /// Asks a living native for one completion: an id that was outstanding, and is no more, with its code. `now` is in microseconds.
    pub fn poll(&mut self, n: usize, now: u64) -> Option<(u32, i32)>
        requires agree { AllAgree (λ l. l.ids) (λ l. owed l.native) self.old.slots.items }
        requires alive { IsSome (living_at self.old.slots.items n) }
        ensures agree { AllAgree (λ l. l.ids) (λ l. owed l.native) self.new.slots.items }
        ensures answer { IfSome (living_at self.old.slots.items n) (λ l. poll_may l.native now result) }
        ensures ids { MatchOption result (ids_at (λ l. l.ids) self.new.slots.items n ≡ ids_at (λ l. l.ids) self.old.slots.items n) (λ p. TakesOut p.0 (ids_at (λ l. l.ids) self.old.slots.items n) (ids_at (λ l. l.ids) self.new.slots.items n)) }
        ensures alive { IsSome (living_at self.new.slots.items n) }
        ensures others { KeepsOthers self.old.slots.items self.new.slots.items n }
    {
        match &mut self.slots[n] {
            Some(living) => living.poll(now),
            None => unreachable!(),
        }
    }

    /// Tells a living native of an event.
    pub fn event(&mut self, n: usize, word: i32)
        requires agree { AllAgree (λ l. l.ids) (λ l. owed l.native) self.old.slots.items }
        requires alive { IsSome (living_at self.old.slots.items n) }
        ensures agree { AllAgree (λ l. l.ids) (λ l. owed l.native) self.new.slots.items }
        ensures ids { ids_at (λ l. l.ids) self.new.slots.items n ≡ ids_at (λ l. l.ids) self.old.slots.items n }
        ensures alive { IsSome (living_at self.new.slots.items n) }
        ensures others { KeepsOthers self.old.slots.items self.new.slots.items n }
    {
        match &mut self.slots[n] {
            Some(living) => living.event(word),
            None => unreachable!(),
        }
    }

    /// Closes the session of `id` at a living native, where no request of it is outstanding.
    pub fn close(&mut self, n: usize, id: u32)
        requires agree { AllAgree (λ l. l.ids) (λ l. owed l.native) self.old.slots.items }
        requires alive { IsSome (living_at self.old.slots.items n) }
        requires fresh { IsNew (ids_at (λ l. l.ids) self.old.slots.items n) id }
        ensures agree { AllAgree (λ l. l.ids) (λ l. owed l.native) self.new.slots.items }
        ensures ids { ids_at (λ l. l.ids) self.new.slots.items n ≡ ids_at (λ l. l.ids) self.old.slots.items n }
        ensures alive { IsSome (living_at self.new.slots.items n) }
        ensures others { KeepsOthers self.old.slots.items self.new.slots.items n }
    {
        match &mut self.slots[n] {
            Some(living) => living.close(id),
            None => unreachable!(),
        }
    }

    /// Drops a living native, and answers the ids that were outstanding there, in the order in which they were started.
    pub fn kill(&mut self, n: usize) -> Vec<u32>
        requires agree { AllAgree (λ l. l.ids) (λ l. owed l.native) self.old.slots.items }
        requires alive { IsSome (living_at self.old.slots.items n) }
        ensures agree { AllAgree (λ l. l.ids) (λ l. owed l.native) self.new.slots.items }
        ensures answer { result.items ≡ ids_at (λ l. l.ids) self.old.slots.items n }
        ensures dead { living_at self.new.slots.items n ≡ None }
        ensures others { KeepsOthers self.old.slots.items self.new.slots.items n }
    {
        match self.slots[n].take() {
            Some(LiveNative { native: _, ids }) => ids.into_ids(),
            None => unreachable!(),
        }
    }
}
