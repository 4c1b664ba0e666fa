//! What comes between dispatches: timers, events, polls, picks and the passing of time.
ghost use Rattle.std.specs.Prelude.{ℕ, ◌≡◌, ◌<◌, ◌≤◌, true, false, All, List, IfNone, IfSome, length};
ghost use Rattle.aom_semantics.specs.State.{State};
ghost use Rattle.aom_semantics.specs.World.{due_of, event_at, first_due, nearer, time_of};
ghost use Rattle.aom_machine.specs.Steps.{progress, timers};
ghost use Rattle.aom_machine_state.specs.declared.progress.Progress.TheVariants.{Turned};
ghost use Rattle.aom_run.specs.Calls.{EventInRange, NoneIsDue, Stands, StandsBetween, RefinesWithNatives, natives_of};
ghost use Rattle.aom_run.specs.Beside.{is_for_native};
ghost use Rattle.aom_natives.specs.Slots.{AllAgree, living_at};
ghost use Rattle.aom_transcript.specs.declared.event.TimedEvent.{TimedEvent};
ghost use Rattle.aom_run.specs.Turns.{AllPolled, CanObserve, CompletesDue, HasCome, ObservesAll, IsDue, IsLate, KeepsMachine, NoneHasCome, Settles, TakesTurns, observing, to_come, waiting};

use crate::HostedMachine;
use aom_machine_state::LineBuffer;
use aom_natives::Native;
use aom_transcript::{Ending, Event, TimedEvent};

/// Between dispatches: turns, until an object or a server is dispatched, an event is told by a line, or the run ends. What begins has its
/// line, and so has a native that is killed and a client's command that is refused; nothing else is written.
pub fn take_turns(
    machine: &mut HostedMachine,
    events: &[TimedEvent],
    lines: &mut LineBuffer,
    limit: u32,
) -> Option<Ending>
    requires agree { AllAgree (λ l. l.ids) (λ l. (⟦<dyn Native as Native>⟧ l.native.vtable).owed l.native.value) machine.old.natives.slots.items }
    requires stands { Stands machine.old }
    requires between { progress machine.old.core ≡ Turned }
    requires ranged { All (λ e. EventInRange e.event) events.now }
    requires room { length lines.old.lines < lines.old.room }
    ensures agree { AllAgree (λ l. l.ids) (λ l. (⟦<dyn Native as Native>⟧ l.native.vtable).owed l.native.value) machine.new.natives.slots.items }
    ensures image { machine.new.core.image ≡ machine.old.core.image }
    ensures natives { natives_of machine.new ≡ natives_of machine.old }
    ensures turns { TakesTurns machine.old (observing lines.old.refused limit (natives_of machine.old) events.now) result lines.old lines.new machine.new }
{
    if machine.core.rest().dispatches() >= u64::from(limit) {
        machine.core.cut();
        return Some(Ending::Limit);
    }
    if settle(machine, events, lines) {
        return None;
    }
    loop {
        if machine.pick(lines) {
            return None;
        }
        let Some(time) = next_time(machine, events) else {
            machine.core.wait();
            return Some(Ending::Waiting);
        };
        machine.set_clock(time);
        if settle(machine, events, lines) {
            return None;
        }
    }
}

/// When a timer is due or an event comes next.
fn next_time(machine: &HostedMachine, events: &[TimedEvent]) -> Option<u64>
    ensures { (s : State) → RefinesWithNatives machine.now s → result ≡ nearer (due_of (first_due s.cells)) (time_of (event_at events.now s.rest.delivered)) }
{
    match (machine.core.next_due(), next_event(machine, events)) {
        (Some(due), Some(event)) => Some(due.min(event.time)),
        (Some(due), None) => Some(due),
        (None, Some(event)) => Some(event.time),
        (None, None) => None,
    }
}

/// All that is due by now: each timer completes the request of its object, each event is heard, and then each native is polled. Answers
/// whether an event was told by a line; then the rest waits until that is out.
fn settle(machine: &mut HostedMachine, events: &[TimedEvent], lines: &mut LineBuffer) -> bool
    requires agree { AllAgree (λ l. l.ids) (λ l. (⟦<dyn Native as Native>⟧ l.native.vtable).owed l.native.value) machine.old.natives.slots.items }
    requires rests { StandsBetween machine.old }
    requires can { CanObserve events.now lines.old }
    ensures agree { AllAgree (λ l. l.ids) (λ l. (⟦<dyn Native as Native>⟧ l.native.vtable).owed l.native.value) machine.new.natives.slots.items }
    ensures kept { KeepsMachine machine.old machine.new }
    ensures observed { ObservesAll result events.now machine.old lines.old lines.new machine.new }
    ensures polled { result ≡ false → AllPolled machine.new }
    ensures falls { result ≡ false → IsLate events.now machine.old → waiting events.now machine.new < waiting events.now machine.old }
{
    complete_due(machine);
    if observe_due(machine, events, lines) {
        return true;
    }
    poll_all(machine);
    false
}

/// Each timer that is due completes the request of its object.
fn complete_due(machine: &mut HostedMachine)
    requires agree { AllAgree (λ l. l.ids) (λ l. (⟦<dyn Native as Native>⟧ l.native.vtable).owed l.native.value) machine.old.natives.slots.items }
    requires rests { StandsBetween machine.old }
    ensures agree { AllAgree (λ l. l.ids) (λ l. (⟦<dyn Native as Native>⟧ l.native.vtable).owed l.native.value) machine.new.natives.slots.items }
    ensures kept { KeepsMachine machine.old machine.new }
    ensures natives { machine.new.natives ≡ machine.old.natives }
    ensures completed { CompletesDue machine.old machine.new }
    ensures none { NoneIsDue machine.new }
    ensures implied { timers machine.new.core ≤ timers machine.old.core }
    ensures falls { IsDue machine.old → timers machine.new.core < timers machine.old.core }
{
    while machine.due() {}
}

/// The event that comes next, if there is one.
fn next_event(machine: &HostedMachine, events: &[TimedEvent]) -> Option<TimedEvent>
    ensures { result ≡ event_at events.now machine.now.core.parts.rest.delivered }
{
    match events.get(machine.core.rest().delivered() as usize) {
        Some(event) => Some(*event),
        None => None,
    }
}

/// The next event, if it has come.
fn next_due_event(machine: &HostedMachine, events: &[TimedEvent]) -> Option<Event>
    ensures some { IfSome result (λ event. (come : HasCome events.now machine.now) × (come.0.event ≡ event)) }
    ensures none { IfNone result (NoneHasCome events.now machine.now) }
{
    match next_event(machine, events) {
        Some(event) if event.time <= machine.core.clock() => Some(event.event),
        _ => None,
    }
}

/// Each event that has come is heard, where no timer is due, up to one that is told by a line. Answers whether one was.
fn observe_due(machine: &mut HostedMachine, events: &[TimedEvent], lines: &mut LineBuffer) -> bool
    requires agree { AllAgree (λ l. l.ids) (λ l. (⟦<dyn Native as Native>⟧ l.native.vtable).owed l.native.value) machine.old.natives.slots.items }
    requires rests { StandsBetween machine.old }
    requires none_due { NoneIsDue machine.old }
    requires can { CanObserve events.now lines.old }
    ensures agree { AllAgree (λ l. l.ids) (λ l. (⟦<dyn Native as Native>⟧ l.native.vtable).owed l.native.value) machine.new.natives.slots.items }
    ensures kept { KeepsMachine machine.old machine.new }
    ensures unreported { (k : ℕ) → All (λ e. is_for_native e.event k ≡ false) events.now → living_at machine.new.natives.slots.items k ≡ living_at machine.old.natives.slots.items k }
    ensures observed { ObservesAll result events.now machine.old lines.old lines.new machine.new }
    ensures timers { timers machine.new.core ≡ timers machine.old.core }
    ensures implied { to_come events.now machine.new ≤ to_come events.now machine.old }
    ensures falls { result ≡ false → HasCome events.now machine.old → to_come events.now machine.new < to_come events.now machine.old }
{
    while let Some(event) = next_due_event(machine, events) {
        if machine.deliver(event, lines) {
            return true;
        }
    }
    false
}

/// Each living native is polled once in the turn at hand, where no timer is due.
fn poll_all(machine: &mut HostedMachine)
    requires agree { AllAgree (λ l. l.ids) (λ l. (⟦<dyn Native as Native>⟧ l.native.vtable).owed l.native.value) machine.old.natives.slots.items }
    requires rests { StandsBetween machine.old }
    requires none_due { NoneIsDue machine.old }
    ensures agree { AllAgree (λ l. l.ids) (λ l. (⟦<dyn Native as Native>⟧ l.native.vtable).owed l.native.value) machine.new.natives.slots.items }
    ensures kept { KeepsMachine machine.old machine.new }
    ensures settled { (events : List TimedEvent) → NoneHasCome events machine.old → Settles events machine.old machine.new }
    ensures none_due { NoneIsDue machine.new }
    ensures rest { machine.new.core.parts.rest ≡ record machine.old.core.parts.rest { polled = machine.new.core.parts.rest.polled } }
    ensures polled { AllPolled machine.new }
    ensures timers { timers machine.new.core ≡ timers machine.old.core }
{
    while machine.poll() {}
}
