//! What is known at a place.
use crate::owner::{Owner, OwnerId};
use crate::request::RequestStates;
use std::alloc::{AllocError, Global};

/// What is known of a field that owns.
#[derive(Clone, Copy, PartialEq, Eq, Debug)]
pub enum Fill {
    Empty,
    Full,
    Perhaps,
}

/// What waits on the cleanup stack.
#[derive(Clone, Copy, PartialEq, Eq, Debug)]
pub enum Entry {
    /// An owner that is guarded.
    Guard(OwnerId),
    /// What the `defer` at an item has put there.
    Deferred(usize),
}

/// Whether the message of a service is still there.
#[derive(Clone, Copy, PartialEq, Eq, Debug)]
pub enum MessageState {
    Here,
    Taken,
}

/// What is known at a place.
#[derive(Drop)]
pub struct State {
    pub fields: [Fill; 8],
    pub request: RequestStates,
    pub owners: Vec<Owner>,
    /// The lowest first.
    pub entries: Vec<Entry>,
    pub message: MessageState,
}

impl State {
    /// What is known as a method begins: all its fields are as told, and nobody owns anything.
    pub fn new(alloc: Global, fill: Fill, request: RequestStates) -> State {
        State {
            fields: [fill; 8],
            request,
            owners: Vec::new(alloc),
            entries: Vec::new(alloc),
            message: MessageState::Here,
        }
    }

    /// The same once more.
    pub fn copy(&self, alloc: Global) -> Result<State, AllocError> {
        let mut owners = Vec::with_capacity(alloc, self.owners.len())?;
        for owner in &self.owners {
            owners.push(*owner)?;
        }
        let mut entries = Vec::with_capacity(alloc, self.entries.len())?;
        for entry in &self.entries {
            entries.push(*entry)?;
        }
        Ok(State {
            fields: self.fields,
            request: self.request,
            owners,
            entries,
            message: self.message,
        })
    }

    /// What is known of an owner, if it is known here.
    pub fn owner(&self, id: OwnerId) -> Option<Owner> {
        for owner in &self.owners {
            if owner.id == id {
                return Some(*owner);
            }
        }
        None
    }

    /// Sets what is known of an owner.
    pub fn set(&mut self, owner: Owner) -> Result<(), AllocError> {
        for at in 0..self.owners.len() {
            if self.owners[at].id == owner.id {
                self.owners[at] = owner;
                return Ok(());
            }
        }
        self.owners.push(owner)?;
        Ok(())
    }

    /// Forgets an owner.
    pub fn forget(&mut self, id: OwnerId) {
        if let Some(at) = self.owners.iter().position(|owner| owner.id == id) {
            self.owners.remove(at);
        }
    }

    /// What is known of a field.
    pub fn fill(&self, field: usize) -> Fill {
        if field < 8 {
            self.fields[field]
        } else {
            Fill::Perhaps
        }
    }

    /// Sets what is known of a field.
    pub fn set_fill(&mut self, field: usize, fill: Fill) {
        if field < 8 {
            self.fields[field] = fill;
        }
    }

    /// How many entries lie above the guard of an owner.
    pub fn depth(&self, id: OwnerId) -> Option<usize> {
        let mut depth = 0;
        for back in 0..self.entries.len() {
            if self.entries[self.entries.len() - 1 - back] == Entry::Guard(id) {
                return Some(depth);
            }
            depth = back.saturating_add(1);
        }
        None
    }
}
