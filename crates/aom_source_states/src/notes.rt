//! What the passes over a method have found: where owners are guarded, what is deleted or taken from the cleanup stack where ways come together,
//! and what the rounds of a loop may change. A note of a pass counts from the next one on.
use crate::owner::{OwnerId, Site};
use crate::request::RequestStates;
use std::alloc::{AllocError, Global};

/// Which way of a statement.
#[derive(Clone, Copy, PartialEq, Eq, Debug)]
pub enum Turn {
    Then,
    Else,
    /// Where a trap caught nothing.
    Returned,
    /// The end of a round's block.
    End,
    /// Where all ways to the end of a round have come together.
    Round,
    /// Out of a loop.
    Out,
}

/// The end of a way of the statement at an item.
#[derive(Clone, Copy, PartialEq, Eq, Debug)]
pub struct Edge {
    pub item: usize,
    pub turn: Turn,
}

/// What the rounds of a loop may change.
#[derive(Drop)]
pub struct LoopNotes {
    pub item: usize,
    /// Of which fields nothing is known as a round begins.
    pub fields: [bool; 8],
    pub request: RequestStates,
    /// Which owners may be null as a round begins.
    pub owners: Vec<OwnerId>,
}

/// All notes on a method.
#[derive(Drop)]
pub struct Notes {
    alloc: Global,
    guards: Vec<(OwnerId, Site)>,
    /// How many of the guards stood as the pass began.
    settled: usize,
    deletes: Vec<(Edge, OwnerId)>,
    unguards: Vec<(Edge, OwnerId)>,
    loops: Vec<LoopNotes>,
    is_new: bool,
}

impl Notes {
    /// No notes.
    pub fn new(alloc: Global) -> Notes {
        Notes {
            alloc,
            guards: Vec::new(alloc),
            settled: 0,
            deletes: Vec::new(alloc),
            unguards: Vec::new(alloc),
            loops: Vec::new(alloc),
            is_new: false,
        }
    }

    /// A pass begins.
    pub fn begin(&mut self) {
        self.settled = self.guards.len();
        self.is_new = false;
    }

    /// Whether the pass has noted anything, so that the method is translated again.
    pub fn is_new(&self) -> bool {
        self.is_new
    }

    /// Notes that something was changed.
    pub fn note(&mut self) {
        self.is_new = true;
    }

    /// Whether an owner is guarded where something came to it.
    pub fn is_guarded(&self, id: OwnerId, site: Site) -> bool {
        for at in 0..self.settled.min(self.guards.len()) {
            if self.guards[at] == (id, site) {
                return true;
            }
        }
        false
    }

    /// Notes that an owner is to be guarded.
    pub fn guard(&mut self, id: OwnerId, site: Site) -> Result<(), AllocError> {
        self.is_new = true;
        if !self.guards.iter().any(|guard| *guard == (id, site)) {
            self.guards.push((id, site))?;
        }
        Ok(())
    }

    /// Notes that an owner is deleted at the end of a way.
    pub fn delete(&mut self, edge: Edge, id: OwnerId) -> Result<(), AllocError> {
        if !self.deletes.iter().any(|noted| *noted == (edge, id)) {
            self.deletes.push((edge, id))?;
            self.is_new = true;
        }
        Ok(())
    }

    /// Notes that an owner comes from the cleanup stack at the end of a way.
    pub fn unguard(&mut self, edge: Edge, id: OwnerId) -> Result<(), AllocError> {
        if !self.unguards.iter().any(|noted| *noted == (edge, id)) {
            self.unguards.push((edge, id))?;
            self.is_new = true;
        }
        Ok(())
    }

    /// What is deleted at the end of a way.
    pub fn deleted(&self, edge: Edge) -> Result<Vec<OwnerId>, AllocError> {
        owners_of(self.alloc, &self.deletes, edge)
    }

    /// What comes from the cleanup stack at the end of a way.
    pub fn unguarded(&self, edge: Edge) -> Result<Vec<OwnerId>, AllocError> {
        owners_of(self.alloc, &self.unguards, edge)
    }

    /// Whether anything is done at the end of a way.
    pub fn is_noted(&self, edge: Edge) -> bool {
        self.deletes.iter().any(|noted| noted.0 == edge)
            || self.unguards.iter().any(|noted| noted.0 == edge)
    }

    /// The number of the notes on a loop.
    pub fn loop_at(&mut self, item: usize) -> Result<usize, AllocError> {
        if let Some(at) = self.loops.iter().position(|notes| notes.item == item) {
            return Ok(at);
        }
        let at = self.loops.len();
        self.loops.push(LoopNotes {
            item,
            fields: [false; 8],
            request: RequestStates::NONE,
            owners: Vec::new(self.alloc),
        })?;
        Ok(at)
    }

    /// The notes on a loop.
    pub fn of_loop(&self, at: usize) -> Option<&LoopNotes> {
        self.loops.get(at)
    }

    /// Notes that a round may change a field.
    pub fn widen_field(&mut self, at: usize, field: usize) {
        if at < self.loops.len() && field < 8 {
            self.loops[at].fields[field] = true;
            self.is_new = true;
        }
    }

    /// Notes how far the request may be as a round begins.
    pub fn widen_request(&mut self, at: usize, request: RequestStates) {
        if at < self.loops.len() {
            let found = self.loops[at].request;
            self.loops[at].request = found.or(request);
            self.is_new = true;
        }
    }

    /// Notes that an owner may be null as a round begins.
    pub fn widen_owner(&mut self, at: usize, id: OwnerId) -> Result<(), AllocError> {
        if at < self.loops.len() {
            if !self.loops[at].owners.iter().any(|owner| *owner == id) {
                self.loops[at].owners.push(id)?;
                self.is_new = true;
            }
        }
        Ok(())
    }
}

fn owners_of(
    alloc: Global,
    noted: &Vec<(Edge, OwnerId)>,
    edge: Edge,
) -> Result<Vec<OwnerId>, AllocError> {
    let mut owners = Vec::new(alloc);
    for entry in noted {
        if entry.0 == edge {
            owners.push(entry.1)?;
        }
    }
    Ok(owners)
}
