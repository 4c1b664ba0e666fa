//! What is known here, read and changed with no way to fail.
//!
//! Where memory lacks, or where the translator has gone wrong, that is noted, and the pass goes on to its end, where it is told: so a step that no source
//! can make fail has no second way.
ghost use Rattle.std.specs.Prelude.{◌≡◌, IsSome, None, true};

use crate::generator::Generator;
use aom_source_program::{ClassId, Fault, FaultKind, MethodId, ValueKind};
use aom_source_states::{Entry, Fill, MessageState, Owner, OwnerId, RequestStates, State};

impl<'s, 't, 'a> Generator<'s, 't, 'a> {
    /// Notes what is no fault of the source, the first alone.
    pub fn lack(&mut self, fault: Fault<'a>)
        ensures code { self.new.code ≡ self.old.code }
        ensures lacking { IsSome self.new.lacking }
    {
        if self.lacking.is_none() {
            self.lacking = Some(fault);
        }
    }

    /// Notes that there is no memory, unless something was done.
    pub fn want_memory(&mut self, is_done: bool)
        ensures code { self.new.code ≡ self.old.code }
        ensures done { self.new.lacking ≡ None → is_done ≡ true }
    {
        if !is_done {
            self.lack(Fault::at(FaultKind::OutOfMemory, 0));
        }
    }

    /// How far the request may be.
    pub fn request_states(&self) -> RequestStates {
        match &self.state {
            Some(state) => state.request,
            None => RequestStates::NONE,
        }
    }

    pub fn set_request(&mut self, request: RequestStates) {
        match &mut self.state {
            Some(state) => state.request = request,
            None => self.lack(Fault::internal()),
        }
    }

    /// Whether the message of the service is still there.
    pub fn message_state(&self) -> MessageState {
        match &self.state {
            Some(state) => state.message,
            None => MessageState::Here,
        }
    }

    pub fn set_message(&mut self, message: MessageState) {
        match &mut self.state {
            Some(state) => state.message = message,
            None => self.lack(Fault::internal()),
        }
    }

    /// What is known of a field that owns.
    pub fn fill(&self, field: usize) -> Fill {
        match &self.state {
            Some(state) => state.fill(field),
            None => Fill::Perhaps,
        }
    }

    pub fn set_fill(&mut self, field: usize, fill: Fill) {
        match &mut self.state {
            Some(state) => state.set_fill(field, fill),
            None => self.lack(Fault::internal()),
        }
    }

    /// Nothing is known of the fields any more.
    pub fn forget_fields(&mut self) {
        match &mut self.state {
            Some(state) => state.fields = [Fill::Perhaps; 8],
            None => self.lack(Fault::internal()),
        }
    }

    /// Forgets an owner.
    pub fn forget(&mut self, id: OwnerId) {
        match &mut self.state {
            Some(state) => state.forget(id),
            None => self.lack(Fault::internal()),
        }
    }

    /// Sets what is known of an owner.
    pub fn set_known(&mut self, owner: Owner) {
        let is_done = match &mut self.state {
            Some(state) => state.set(owner).is_ok(),
            None => false,
        };
        self.want_memory(is_done);
    }

    /// What is known of an owner, if it is known here.
    pub fn known_here(&self, id: OwnerId) -> Option<Owner> {
        match &self.state {
            Some(state) => state.owner(id),
            None => None,
        }
    }

    /// The owner at a number among those that are known here.
    pub fn owner_at(&self, at: usize) -> Option<Owner> {
        match &self.state {
            Some(state) => state.owners.get(at).copied(),
            None => None,
        }
    }

    pub fn owner_count(&self) -> usize {
        match &self.state {
            Some(state) => state.owners.len(),
            None => 0,
        }
    }

    /// The uppermost entry of the cleanup stack.
    pub fn top_entry(&self) -> Option<Entry> {
        match &self.state {
            Some(state) => state.entries.last().copied(),
            None => None,
        }
    }

    pub fn entry_count(&self) -> usize {
        match &self.state {
            Some(state) => state.entries.len(),
            None => 0,
        }
    }

    /// How many entries lie above the guard of an owner.
    pub fn depth(&self, id: OwnerId) -> Option<usize> {
        match &self.state {
            Some(state) => state.depth(id),
            None => None,
        }
    }

    pub fn push_entry(&mut self, entry: Entry) {
        let is_done = match &mut self.state {
            Some(state) => state.entries.push(entry).is_ok(),
            None => false,
        };
        self.want_memory(is_done);
    }

    pub fn pop_entry(&mut self) {
        if let Some(state) = &mut self.state {
            let _ = state.entries.pop();
        }
    }

    /// All that is known here, once more.
    pub fn state_copy(&mut self) -> State {
        let copied = match &self.state {
            Some(state) => state.copy(self.alloc),
            None => Ok(State::new(self.alloc, Fill::Perhaps, RequestStates::NONE)),
        };
        match copied {
            Ok(state) => state,
            Err(_) => {
                self.want_memory(false);
                State::new(self.alloc, Fill::Perhaps, RequestStates::NONE)
            }
        }
    }

    /// The name at an item. Each item that is asked has one.
    pub fn text(&self, at: usize) -> &'a [u8] {
        match self.source.name(at) {
            Ok(name) => name,
            Err(_) => b"",
        }
    }

    /// What a method gives.
    pub fn gives(&self, method: MethodId) -> ValueKind {
        match self.program.methods.get(method.0) {
            Some(method) => method.gives,
            None => ValueKind::Nothing,
        }
    }

    /// Notes a call, for the order of methods.
    pub fn note_call(&mut self, method: MethodId) {
        let is_done = self.summary.call(method).is_ok();
        self.want_memory(is_done);
    }

    /// Notes a class of which an object may be deleted.
    pub fn mention(&mut self, class: ClassId) {
        let is_done = self.summary.mention(class).is_ok();
        self.want_memory(is_done);
    }
}
