//! A machine over the image that it runs.
#![tactic(auto, using(crate::proofs::Agreeing::agrees_in_all, crate::proofs::Seen::turned_seen, crate::proofs::Seen::stands_under))]

ghost use Rattle.std.specs.Prelude.{◌≡◌, ◌<◌, ◌≤◌, ◌+◌, ◌++◌, ◌∷◌, ◌^◌, ◌↔◌, ◌⊎◌, [], IfOk, IfSome, IsTrue, Option, false, length, option_map, suc, true};
ghost use Rattle.aom_cells.specs.Heap.{count};
ghost use Rattle.aom_semantics.specs.World.{AnswersWell, Completion, Cuts, Observes, Kills, Passes, Polls, Waits, boot_state, due_of, first_due, ready_count, signal_count};
ghost use Rattle.aom_machine_state.specs.LineBuffer.{LineBuffer as LineBufferRecord, step_lines};
ghost use Rattle.aom_determinism.specs.Owed.{owes};
ghost use Rattle.aom_machine.specs.Agreement.{AgreesInAll};
ghost use Rattle.aom_machine.specs.Clients.{IsInRange, Executed};
ghost use Rattle.aom_machine_state.specs.Stands.{Stands, Refines};
ghost use Rattle.aom_machine.specs.Steps.{StaysIdle, Stepped, SteppedOn, Wants, progress, rank, timers};
ghost use Rattle.aom_machine.specs.Turns.{Answers, Completed, NoneDue, Picked, Takes, TakesAll};
ghost use Rattle.aom_cells.specs.Sessions.{is_killed};
ghost use Rattle.aom_semantics.specs.State.{Dispatch, Dispatched, State};
ghost use Rattle.aom_semantics.specs.NativeCall.{wanted};
ghost use Rattle.aom_machine.specs.NativeCall.{as_wanted};
ghost use Rattle.aom_termination.specs.BudgetOwners.{declared_of, budget_owner};
ghost use Rattle.aom_machine_state.specs.declared.progress.Progress.TheVariants.{Running, Turned};

use crate::wanted::{self, NativeCall};
use crate::{clients, moves, natives, turns};
use aom_budget::Accepted;
use aom_machine_state::{Counters, LineBuffer, Parts, Progress};
use aom_transcript::ClientCommand;
use std::alloc::{AllocError, Global};
use std::marker::Model;

/// What an accepted image does.
#[derive(Drop)]
pub struct Machine<'a> {
    accepted: &'a Accepted,
    parts: Parts,
}

impl<'a> Model for Machine<'a> {
    ghost use Rattle.aom_machine_state.specs.Stands.{MachineModel as MachineRecord, Stands};

    ghost Value = { MachineRecord };

    ghost view = { λ m. record { image = m.accepted.now; parts = m.parts } };

    ghost invariant = { λ m. Stands (record { image = m.accepted.now; parts = m.parts }) };
}

impl<'a> Machine<'a> {
    /// A machine at time 0, with main at hand. It takes all the memory that the machine will ever have.
    pub fn boot(alloc: Global, accepted: &'a Accepted) -> Result<Machine<'a>, AllocError>
        ensures image { IfOk result (λ m. m.image ≡ accepted.now) }
        ensures stands { IfOk result (λ m. Refines m (boot_state accepted.now)) }
        ensures agrees { IfOk result AgreesInAll }
    {
        let linked = accepted.linked();
        let parts = Parts::boot(alloc, linked)?;
        aom_safety::boot_keeps();
        aom_safety::step_keeps();
        aom_safety::quiet_preserved();
        aom_safety::linked_is_wired();
        aom_termination::boot_within();
        aom_termination::moves_pay();
        accepted.facts();
        Ok(Machine { accepted, parts })
    }

    /// One instruction, or the going of one cell, with what counts as no step after it: a leave's next move, and the end of
    /// the dispatch. The first step writes main's line before all else. Where nothing is at hand, nothing changes.
    pub fn step(&mut self, lines: &mut LineBuffer) -> Progress
        requires room { length lines.old.lines + step_lines self.old.image.header.messages < lines.old.room }
        ensures image { self.new.image ≡ self.old.image }
        ensures steps { Stepped self.old result lines.old lines.new self.new }
        ensures idle { StaysIdle self.old lines.old lines.new self.new }
        ensures agrees { AgreesInAll self.new }
        ensures falls { result ≡ Running → rank self.new < rank self.old }
    {
        moves::step(&mut self.parts, self.accepted.linked(), lines, 1)
    }

    /// Steps until the buffer has many lines, nothing is at hand, or the next step asks something of a native. The first step alone hears one.
    pub fn step_on(&mut self, lines: &mut LineBuffer) -> Progress
        requires room { length lines.old.lines + step_lines self.old.image.header.messages < lines.old.room }
        requires many { 64 + step_lines self.old.image.header.messages ≤ lines.old.room }
        ensures image { self.new.image ≡ self.old.image }
        ensures steps { SteppedOn self.old result lines.old lines.new self.new }
        ensures idle { StaysIdle self.old lines.old lines.new self.new }
        ensures agrees { AgreesInAll self.new }
        ensures reported { result ≡ Running → (length lines.old.lines < length lines.new.lines) ⊎ Wants self.new }
        ensures falls { result ≡ Running → rank self.new < rank self.old }
    {
        moves::step_on(&mut self.parts, self.accepted.linked(), lines)
    }

    /// What the next step asks of a native, if it asks anything. The call is made before the step, which hears its answer.
    pub fn wanted(&self) -> Option<NativeCall>
        ensures { (s : State) → Refines self.now s → wanted self.now.image s ≡ option_map as_wanted result }
    {
        wanted::wanted_next(&self.parts, self.accepted.linked())
    }

    /// A native has answered that to what the next step asks.
    pub fn observe(&mut self, answer: i32)
        ensures observed { self.new ≡ record self.old { parts = record self.old.parts { observed = answer } } }
        ensures stands { (s : State) → Refines self.old s → Refines self.new s }
        ensures agrees { AgreesInAll self.new }
    {
        self.parts.observed = answer;
    }

    /// Between dispatches: the timer that is due first completes the request of its object, if it is due by now. Answers whether one was.
    pub fn due(&mut self) -> bool
        requires { progress self.old ≡ Turned }
        ensures image { self.new.image ≡ self.old.image }
        ensures completed { Completed self.old result self.new }
        ensures fewer { result ≡ true → timers self.new < timers self.old }
        ensures agrees { AgreesInAll self.new }
    {
        turns::due(&mut self.parts)
    }

    /// Between dispatches: the ready object that goes before all others is dispatched, with its line (CActiveScheduler::Start's
    /// RunL), and a server for the first of its queue. Answers false where nothing signals.
    pub fn pick(&mut self, lines: &mut LineBuffer) -> bool
        requires between { progress self.old ≡ Turned }
        requires room { length lines.old.lines < lines.old.room }
        ensures image { self.new.image ≡ self.old.image }
        ensures picked { Picked self.old result lines.old lines.new self.new }
        ensures agrees { AgreesInAll self.new }
    {
        turns::pick(&mut self.parts, self.accepted.linked(), lines)
    }

    /// When the timer that is due first is due.
    pub fn next_due(&self) -> Option<u64>
        ensures { (s : State) → Refines self.now s → result ≡ due_of (first_due s.cells) }
    {
        self.parts.active.next_due()
    }

    /// How many signals there are: of requests that are completed and not taken, and of servers in whose queues something waits.
    /// Between dispatches, and at the end of each, as many objects and servers are ready.
    pub fn signals(&self) -> usize
        ensures signals { (s : State) → Refines self.now s → result ≡ signal_count s.cells }
        ensures between { (s : State) → Refines self.now s → s.tasks ≡ [] → result ≡ ready_count s.cells }
        ensures at_end { (s : State) → Refines self.now s → (d : Dispatch) → s.tasks ≡ Dispatched d ∷ [] → result ≡ ready_count s.cells }
    {
        self.parts.active.signals()
    }

    /// Between dispatches time passes. It does not go back.
    pub fn set_clock(&mut self, time: u64)
        requires between { progress self.old ≡ Turned }
        requires later { self.old.parts.rest.clock ≤ time }
        ensures image { self.new.image ≡ self.old.image }
        ensures passed { TakesAll self.old (Passes time) self.new }
        ensures timers { timers self.new ≡ timers self.old }
        ensures agrees { AgreesInAll self.new }
    {
        self.parts.rest.set_clock(time);
    }

    /// Between dispatches an event comes from outside that changes nothing here.
    pub fn observe_event(&mut self)
        requires between { progress self.old ≡ Turned }
        requires few { self.old.parts.rest.delivered + 1 < 2 ^ 64 }
        ensures image { self.new.image ≡ self.old.image }
        ensures observed { TakesAll self.old Observes self.new }
        ensures rest { self.new.parts.rest ≡ record self.old.parts.rest { delivered = suc self.old.parts.rest.delivered } }
        ensures back { (s : State) → Refines self.new s → Refines self.old (record s { rest = self.old.parts.rest }) }
        ensures timers { timers self.new ≡ timers self.old }
        ensures agrees { AgreesInAll self.new }
    {
        self.parts.rest.deliver();
    }

    /// Between dispatches an event kills a native, with its line: what is outstanding there is completed with -15
    /// (KErrServerTerminated), and sessions with it are over.
    pub fn kill(&mut self, native: u8, lines: &mut LineBuffer)
        requires between { progress self.old ≡ Turned }
        requires few { self.old.parts.rest.delivered + 1 < 2 ^ 64 }
        requires lives { is_killed self.old.parts.sessions native ≡ false }
        requires room { length lines.old.lines < lines.old.room }
        ensures image { self.new.image ≡ self.old.image }
        ensures killed { (s : State) → Refines self.old s → Takes self.old s (Kills native) lines.old lines.new self.new }
        ensures rest { self.new.parts.rest ≡ record self.old.parts.rest { delivered = suc self.old.parts.rest.delivered } }
        ensures ended { self.new.parts.sessions.killed ≡ self.old.parts.sessions.killed ++ native ∷ [] }
        ensures timers { timers self.new ≡ timers self.old }
        ensures agrees { AgreesInAll self.new }
    {
        natives::kill(&mut self.parts, native, self.accepted.linked(), lines);
    }

    /// Between dispatches the client of that number does what it is told, with a line where that is refused. Answers whether it was.
    pub fn execute(&mut self, client: u8, command: ClientCommand, lines: &mut LineBuffer) -> bool
        requires between { progress self.old ≡ Turned }
        requires few { self.old.parts.rest.delivered + 1 < 2 ^ 64 }
        requires client { client < 64 }
        requires ranged { IsInRange command }
        requires room { length lines.old.lines < lines.old.room }
        ensures image { self.new.image ≡ self.old.image }
        ensures executed { (s : State) → Refines self.old s → Executed self.old s client command lines.old lines.new self.new }
        ensures reported { length lines.new.lines ≤ length lines.old.lines + 1 }
        ensures quiet { result ≡ false → lines.new ≡ lines.old }
        ensures rest { self.new.parts.rest ≡ record self.old.parts.rest { delivered = suc self.old.parts.rest.delivered } }
        ensures sessions { self.new.parts.sessions ≡ self.old.parts.sessions }
        ensures none_due { ((s : State) → Refines self.old s → NoneDue s) → (s : State) → Refines self.new s → NoneDue s }
        ensures timers { timers self.new ≡ timers self.old }
        ensures agrees { AgreesInAll self.new }
    {
        clients::execute(
            &mut self.parts,
            client,
            command,
            self.accepted.linked(),
            lines,
        )
    }

    /// Between dispatches a native is polled: it completes the request of the cell of that number with a code, or nothing.
    pub fn polled(&mut self, native: usize, completion: Option<(u32, i32)>)
        requires between { progress self.old ≡ Turned }
        requires few { native + 1 < 2 ^ 64 }
        requires owed { IfSome completion (λ x. (s : State) × Refines self.old s × (owes self.old.image s.cells native x.0 ≡ true)) }
        ensures image { self.new.image ≡ self.old.image }
        ensures polled { (s : State) → Refines self.old s → (answer : Option Completion) × Answers s.cells completion answer × AnswersWell self.old.image s (Polls native answer) × ((reported : LineBufferRecord) → Takes self.old s (Polls native answer) reported reported self.new) }
        ensures rest { self.new.parts.rest ≡ record self.old.parts.rest { polled = suc native } }
        ensures sessions { self.new.parts.sessions ≡ self.old.parts.sessions }
        ensures none_due { ((s : State) → Refines self.old s → NoneDue s) → (s : State) → Refines self.new s → NoneDue s }
        ensures timers { timers self.new ≡ timers self.old }
        ensures agrees { AgreesInAll self.new }
    {
        natives::polled(&mut self.parts, native, completion);
    }

    /// Between dispatches, where nothing is due and nothing signals: the run is over.
    pub fn wait(&mut self)
        requires { progress self.old ≡ Turned }
        ensures image { self.new.image ≡ self.old.image }
        ensures waited { TakesAll self.old Waits self.new }
        ensures agrees { AgreesInAll self.new }
    {
        self.parts.rest.wait();
    }

    /// Between dispatches, where so many of objects are over as there may be: the run is over.
    pub fn cut(&mut self)
        requires { progress self.old ≡ Turned }
        ensures image { self.new.image ≡ self.old.image }
        ensures cut { TakesAll self.old Cuts self.new }
        ensures agrees { AgreesInAll self.new }
    {
        self.parts.rest.cut();
    }

    /// How far the machine has come.
    pub fn progress(&self) -> Progress
        ensures { result ≡ progress self.now }
    {
        self.parts.progress()
    }

    /// Whether no dispatch is at hand, and the run is not over.
    pub fn is_between_dispatches(&self) -> bool
        ensures { IsTrue result ↔ (progress self.now ≡ Turned) }
    {
        matches!(self.parts.progress(), Progress::Turned)
    }

    /// The time.
    pub fn clock(&self) -> u64
        ensures { result ≡ self.now.parts.rest.clock }
    {
        self.parts.rest.clock()
    }

    /// What is counted: dispatches of objects that are over, events that have come, natives that were polled in the turn at hand.
    pub fn rest(&self) -> &Counters
        ensures { result.now ≡ self.now.parts.rest }
    {
        &self.parts.rest
    }

    /// The steps of the dispatch at hand: instructions that ran, and cells that went. After main's they stay until an object is
    /// dispatched, and after an object's there are none.
    pub fn steps(&self) -> u64
        ensures is { result ≡ self.now.parts.rest.steps }
        ensures within { (s : State) → Refines self.now s → result ≤ declared_of self.now.image (budget_owner s.tasks) }
    {
        self.parts.rest.steps()
    }

    /// How many allocation requests were made so far. It stays at 2^64 - 1 once there.
    pub fn requests(&self) -> u64
        ensures { result ≡ self.now.parts.rest.requests }
    {
        self.parts.rest.requests()
    }

    /// How many cells live.
    pub fn count(&self) -> usize
        ensures { result ≡ count self.now.parts.cells }
    {
        self.parts.cells.count()
    }

    /// All that changes in it, to look at.
    pub fn parts(&self) -> &Parts
        ensures parts { result.now ≡ self.now.parts }
        ensures stands { Stands self.now }
        ensures agrees { AgreesInAll self.now }
    {
        &self.parts
    }

    /// The image that it runs.
    pub fn accepted(&self) -> &'a Accepted
        ensures { result.now ≡ self.now.image }
    {
        self.accepted
    }
}
