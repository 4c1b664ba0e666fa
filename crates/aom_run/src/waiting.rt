//! What is done between dispatches: timers, events, polls and the pick.
ghost use Rattle.std.specs.Prelude.{◌≡◌, ◌<◌, ◌≤◌, ◌+◌, ◌-◌, ◌^◌, IfSome, IsSome, length, suc, true, false, None, Some};
ghost use Rattle.aom_machine.specs.Clients.{IsInRange};
ghost use Rattle.aom_machine.specs.Steps.{progress, timers};
ghost use Rattle.aom_machine_state.specs.declared.progress.Progress.TheVariants.{Turned};
ghost use Rattle.aom_run.specs.Calls.{Completed, EventInRange, IsDelivered, NoneIsDue, Picked, Polled, Stands, StandsBetween, RefinesWithNatives, TakesAll, natives_of, to_poll};
ghost use Rattle.aom_run.specs.Beside.{KeptSame};
ghost use Rattle.aom_natives.specs.Slots.{AllAgree, KeepsOthers, living_at};
ghost use Rattle.aom_semantics.specs.State.{State};
ghost use Rattle.aom_transcript.specs.declared.event.Event.TheVariants.{Client, Kill};
ghost use Rattle.aom_semantics.specs.World.{Observes, first_living, Passes};

use crate::HostedMachine;
use aom_machine_state::LineBuffer;
use aom_natives::{Native, Natives};
use aom_transcript::{ClientCommand, Event};

/// How many clients there are, numbered from 0.
const CLIENTS: u8 = 64;

/// A word comes for a native, which hears it if it lives.
fn send_word(natives: &mut Natives, native: usize, word: i32)
    requires agree { AllAgree (λ l. l.ids) (λ l. (⟦<dyn Native as Native>⟧ l.native.vtable).owed l.native.value) natives.old.slots.items }
    ensures agree { AllAgree (λ l. l.ids) (λ l. (⟦<dyn Native as Native>⟧ l.native.vtable).owed l.native.value) natives.new.slots.items }
    ensures same { KeptSame (λ l. l.ids) natives.old.slots.items natives.new.slots.items }
    ensures others { KeepsOthers natives.old.slots.items natives.new.slots.items native }
{
    if natives.is_alive(native) {
        natives.event(native, word);
    }
}

impl<'a> HostedMachine<'a> {
    /// Between dispatches: the timer that is due first completes the request of its object, if it is due by now. Answers whether one was.
    pub fn due(&mut self) -> bool
        requires agree { AllAgree (λ l. l.ids) (λ l. (⟦<dyn Native as Native>⟧ l.native.vtable).owed l.native.value) self.old.natives.slots.items }
        requires between { progress self.old.core ≡ Turned }
        ensures agree { AllAgree (λ l. l.ids) (λ l. (⟦<dyn Native as Native>⟧ l.native.vtable).owed l.native.value) self.new.natives.slots.items }
        ensures image { self.new.core.image ≡ self.old.core.image }
        ensures natives { self.new.natives ≡ self.old.natives }
        ensures completed { Completed self.old result self.new }
        ensures fewer { result ≡ true → timers self.new.core < timers self.old.core }
    {
        self.core.due()
    }

    /// Between dispatches an event comes from outside: a word for a native, or its end, whose line is written, or a command of a client, with
    /// a line where that is refused. One for a native that is killed, or that is none, or of a number that is no client's, changes nothing.
    /// Answers whether a line was written.
    pub fn deliver(&mut self, event: Event, lines: &mut LineBuffer) -> bool
        requires agree { AllAgree (λ l. l.ids) (λ l. (⟦<dyn Native as Native>⟧ l.native.vtable).owed l.native.value) self.old.natives.slots.items }
        requires stands { Stands self.old }
        requires between { progress self.old.core ≡ Turned }
        requires few { self.old.core.parts.rest.delivered + 1 < 2 ^ 64 }
        requires ranged { EventInRange event }
        requires room { length lines.old.lines < lines.old.room }
        ensures agree { AllAgree (λ l. l.ids) (λ l. (⟦<dyn Native as Native>⟧ l.native.vtable).owed l.native.value) self.new.natives.slots.items }
        ensures delivered { IsDelivered self.old event result lines.old lines.new self.new }
    {
        match event {
            Event::Report(native, word) => {
                self.report(native as usize, word);
                false
            }
            Event::Kill(native) => self.kill(native, lines),
            Event::Client(client, command) => self.execute(client, command, lines),
        }
    }

    /// Between dispatches the living native that comes next in the turn at hand is polled, and completes the request of a cell or none.
    /// Answers false where all were.
    pub fn poll(&mut self) -> bool
        requires agree { AllAgree (λ l. l.ids) (λ l. (⟦<dyn Native as Native>⟧ l.native.vtable).owed l.native.value) self.old.natives.slots.items }
        requires stands { Stands self.old }
        requires between { progress self.old.core ≡ Turned }
        ensures agree { AllAgree (λ l. l.ids) (λ l. (⟦<dyn Native as Native>⟧ l.native.vtable).owed l.native.value) self.new.natives.slots.items }
        ensures image { self.new.core.image ≡ self.old.core.image }
        ensures natives { natives_of self.new ≡ natives_of self.old }
        ensures polled { Polled (λ n answer. IfSome (living_at self.old.natives.slots.items n) (λ l. (⟦<dyn Native as Native>⟧ l.native.vtable).poll_may l.native.value self.old.core.parts.rest.clock answer)) self.old result self.new }
        ensures rest { self.new.core.parts.rest ≡ record self.old.core.parts.rest { polled = self.new.core.parts.rest.polled } }
        ensures timers { timers self.new.core ≡ timers self.old.core }
        ensures none_due { NoneIsDue self.old → NoneIsDue self.new }
        ensures falls { result ≡ true → to_poll self.new < to_poll self.old }
    {
        let Some(native) = self.next_native() else {
            return false;
        };
        let completion = self.natives.poll(native, self.core.clock());
        self.core.polled(native, completion);
        true
    }

    /// Between dispatches: the ready object that goes before all others is dispatched, with its line (CActiveScheduler::Start's
    /// RunL). Answers false where nothing signals.
    pub fn pick(&mut self, lines: &mut LineBuffer) -> bool
        requires agree { AllAgree (λ l. l.ids) (λ l. (⟦<dyn Native as Native>⟧ l.native.vtable).owed l.native.value) self.old.natives.slots.items }
        requires between { progress self.old.core ≡ Turned }
        requires room { length lines.old.lines < lines.old.room }
        ensures agree { AllAgree (λ l. l.ids) (λ l. (⟦<dyn Native as Native>⟧ l.native.vtable).owed l.native.value) self.new.natives.slots.items }
        ensures image { self.new.core.image ≡ self.old.core.image }
        ensures natives { self.new.natives ≡ self.old.natives }
        ensures picked { Picked self.old result lines.old lines.new self.new }
    {
        self.core.pick(lines)
    }

    /// Between dispatches time passes. It does not go back.
    pub fn set_clock(&mut self, time: u64)
        requires agree { AllAgree (λ l. l.ids) (λ l. (⟦<dyn Native as Native>⟧ l.native.vtable).owed l.native.value) self.old.natives.slots.items }
        requires between { progress self.old.core ≡ Turned }
        requires later { self.old.core.parts.rest.clock ≤ time }
        ensures agree { AllAgree (λ l. l.ids) (λ l. (⟦<dyn Native as Native>⟧ l.native.vtable).owed l.native.value) self.new.natives.slots.items }
        ensures image { self.new.core.image ≡ self.old.core.image }
        ensures natives { self.new.natives ≡ self.old.natives }
        ensures passed { TakesAll self.old (Passes time) self.new }
        ensures timers { timers self.new.core ≡ timers self.old.core }
    {
        self.core.set_clock(time);
    }

    /// A word comes for a native.
    fn report(&mut self, native: usize, word: i32)
        requires agree { AllAgree (λ l. l.ids) (λ l. (⟦<dyn Native as Native>⟧ l.native.vtable).owed l.native.value) self.old.natives.slots.items }
        requires between { progress self.old.core ≡ Turned }
        requires few { self.old.core.parts.rest.delivered + 1 < 2 ^ 64 }
        ensures agree { AllAgree (λ l. l.ids) (λ l. (⟦<dyn Native as Native>⟧ l.native.vtable).owed l.native.value) self.new.natives.slots.items }
        ensures image { self.new.core.image ≡ self.old.core.image }
        ensures natives { KeepsOthers self.old.natives.slots.items self.new.natives.slots.items native }
        ensures observed { TakesAll self.old Observes self.new }
        ensures rest { self.new.core.parts.rest ≡ record self.old.core.parts.rest { delivered = suc self.old.core.parts.rest.delivered } }
        ensures timers { timers self.new.core ≡ timers self.old.core }
        ensures none_due { NoneIsDue self.old → NoneIsDue self.new }
    {
        send_word(&mut self.natives, native, word);
        self.core.observe_event();
    }

    /// A native is to end. Answers whether it lived.
    fn kill(&mut self, native: u8, lines: &mut LineBuffer) -> bool
        requires agree { AllAgree (λ l. l.ids) (λ l. (⟦<dyn Native as Native>⟧ l.native.vtable).owed l.native.value) self.old.natives.slots.items }
        requires rests { StandsBetween self.old }
        requires few { self.old.core.parts.rest.delivered + 1 < 2 ^ 64 }
        requires room { length lines.old.lines < lines.old.room }
        ensures agree { AllAgree (λ l. l.ids) (λ l. (⟦<dyn Native as Native>⟧ l.native.vtable).owed l.native.value) self.new.natives.slots.items }
        ensures delivered { IsDelivered self.old (Kill native) result lines.old lines.new self.new }
    {
        if !self.natives.is_alive(native as usize) {
            self.core.observe_event();
            return false;
        }
        self.natives.kill(native as usize);
        self.core.kill(native, lines);
        true
    }

    /// The client of that number does what it is told, if there is one. Answers whether that is refused.
    fn execute(&mut self, client: u8, command: ClientCommand, lines: &mut LineBuffer) -> bool
        requires agree { AllAgree (λ l. l.ids) (λ l. (⟦<dyn Native as Native>⟧ l.native.vtable).owed l.native.value) self.old.natives.slots.items }
        requires rests { StandsBetween self.old }
        requires few { self.old.core.parts.rest.delivered + 1 < 2 ^ 64 }
        requires ranged { IsInRange command }
        requires room { length lines.old.lines < lines.old.room }
        ensures agree { AllAgree (λ l. l.ids) (λ l. (⟦<dyn Native as Native>⟧ l.native.vtable).owed l.native.value) self.new.natives.slots.items }
        ensures delivered { IsDelivered self.old (Client client command) result lines.old lines.new self.new }
    {
        if client >= CLIENTS {
            self.core.observe_event();
            return false;
        }
        self.core.execute(client, command, lines)
    }

    /// The living native that comes next in the turn at hand.
    fn next_native(&self) -> Option<usize>
        ensures none { result ≡ None → (s : State) → RefinesWithNatives self.now s → first_living s.killed (natives_of self.now - s.rest.polled) s.rest.polled ≡ None }
        ensures some { IfSome result (λ n. (n < natives_of self.now) × (self.now.core.parts.rest.polled ≤ n) × IsSome (living_at self.now.natives.slots.items n) × ((s : State) → RefinesWithNatives self.now s → first_living s.killed (natives_of self.now - s.rest.polled) s.rest.polled ≡ Some n)) }
    {
        let mut native = self.core.rest().polled() as usize;
        while native < self.natives.count() {
            if self.natives.is_alive(native) {
                return Some(native);
            }
            native += 1;
        }
        None
    }
}
