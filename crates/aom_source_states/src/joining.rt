//! Ways that come together.
use crate::notes::{Edge, Notes};
use crate::owner::{Owner, OwnerId, Site, SiteKind, Status};
use crate::state::{Entry, Fill, State};
use std::alloc::{AllocError, AllocFailed, Global};

/// A way to a place: what is known at its end. One that ends a part of a statement can have notes.
#[derive(Drop)]
pub struct Way {
    pub edge: Option<Edge>,
    pub state: State,
}

/// Why ways cannot come together.
#[derive(Clone, Copy, PartialEq, Eq, Debug)]
pub enum JoinFault {
    /// One way has given a message away, and another has not.
    MessageOnOneWay(OwnerId),
    /// One way has taken the message of the service, and another has not.
    TakenOnOneWay,
    /// An owner is guarded on one way alone.
    GuardedOnOneWay(OwnerId),
    /// The cleanup stacks differ.
    OtherEntries,
    OutOfMemory,
}

impl From<AllocError> for JoinFault {
    fn from(_error: AllocError) -> JoinFault {
        JoinFault::OutOfMemory
    }
}

impl<T: Drop> From<AllocFailed<T>> for JoinFault {
    fn from(_error: AllocFailed<T>) -> JoinFault {
        JoinFault::OutOfMemory
    }
}

/// What is known where some ways come together, at the statement of an item. Where no way leads nothing is known.
/// What one way has moved the others are noted to delete. A way that ends no part of a statement ends what is told of the others.
pub fn join(
    alloc: Global,
    ways: &Vec<Way>,
    others: Option<Edge>,
    notes: &mut Notes,
    item: usize,
) -> Result<Option<State>, JoinFault> {
    let Some(first) = ways.first() else {
        return Ok(None);
    };
    let mut joined = first.state.copy(alloc)?;
    for owner in &first.state.owners {
        match join_owner(ways, others, notes, item, owner.id)? {
            Some(found) => joined.set(found)?,
            None => joined.forget(owner.id),
        }
    }
    for way in ways {
        join_plain(&mut joined, &way.state)?;
    }
    join_entries(alloc, &mut joined, ways, notes)?;
    Ok(Some(joined))
}

/// Fields, request and message.
fn join_plain(joined: &mut State, other: &State) -> Result<(), JoinFault> {
    for field in 0..8 {
        if joined.fields[field] != other.fields[field] {
            joined.fields[field] = Fill::Perhaps;
        }
    }
    joined.request = joined.request.or(other.request);
    if joined.message != other.message {
        return Err(JoinFault::TakenOnOneWay);
    }
    Ok(())
}

/// What the ways know of an owner, together.
#[derive(Clone, Copy)]
struct Found {
    live: usize,
    owning: usize,
    gone: usize,
    null: usize,
    guarded: usize,
    /// Whether it came to all of them at one place.
    is_same_site: bool,
    site: Option<Site>,
    order: usize,
    is_message: bool,
}

impl Found {
    fn add(&mut self, owner: Owner) {
        self.is_message = owner.is_message;
        match owner.status {
            Status::Gone => self.gone = self.gone.saturating_add(1),
            Status::Null => self.null = self.null.saturating_add(1),
            Status::Owns => self.owning = self.owning.saturating_add(1),
            Status::Maybe => {}
        }
        if !owner.status.is_live() {
            return;
        }
        self.live = self.live.saturating_add(1);
        if owner.is_guarded {
            self.guarded = self.guarded.saturating_add(1);
        }
        self.order = self.order.max(owner.order);
        match self.site {
            None => self.site = Some(owner.site),
            Some(site) => self.is_same_site = self.is_same_site && site == owner.site,
        }
    }
}

/// What is known of an owner where the ways come together, or nothing if one of them does not know it.
fn join_owner(
    ways: &Vec<Way>,
    others: Option<Edge>,
    notes: &mut Notes,
    item: usize,
    id: OwnerId,
) -> Result<Option<Owner>, JoinFault> {
    let mut found = Found {
        live: 0,
        owning: 0,
        gone: 0,
        null: 0,
        guarded: 0,
        is_same_site: true,
        site: None,
        order: 0,
        is_message: false,
    };
    for way in ways {
        match way.state.owner(id) {
            Some(owner) => found.add(owner),
            None => return Ok(None),
        }
    }
    if 0 < found.gone && 0 < found.live {
        if found.is_message {
            return Err(JoinFault::MessageOnOneWay(id));
        }
        delete_elsewhere(ways, others, notes, id)?;
    } else if 0 < found.live && 0 < found.guarded && found.guarded < ways.len() {
        unguard_elsewhere(ways, others, notes, id)?;
    }
    Ok(Some(settled(found, ways.len(), item, id)))
}

fn settled(found: Found, ways: usize, item: usize, id: OwnerId) -> Owner {
    let joined = Site {
        kind: SiteKind::Join,
        item,
    };
    let is_live = 0 < found.live && found.gone == 0;
    let status = if is_live {
        if found.owning == ways {
            Status::Owns
        } else {
            Status::Maybe
        }
    } else if found.null == ways {
        Status::Null
    } else {
        Status::Gone
    };
    Owner {
        id,
        is_message: found.is_message,
        status,
        is_guarded: is_live && found.guarded == ways,
        site: match found.site {
            Some(site) if found.is_same_site => site,
            _ => joined,
        },
        order: found.order,
    }
}

fn delete_elsewhere(
    ways: &Vec<Way>,
    others: Option<Edge>,
    notes: &mut Notes,
    id: OwnerId,
) -> Result<(), JoinFault> {
    for way in ways {
        if is_live(way, id) {
            let edge = way.edge.or(others).ok_or(JoinFault::GuardedOnOneWay(id))?;
            notes.delete(edge, id)?;
        }
    }
    Ok(())
}

fn unguard_elsewhere(
    ways: &Vec<Way>,
    others: Option<Edge>,
    notes: &mut Notes,
    id: OwnerId,
) -> Result<(), JoinFault> {
    for way in ways {
        match way.state.owner(id) {
            Some(owner) if owner.is_guarded && owner.status.is_live() => {
                let edge = way.edge.or(others).ok_or(JoinFault::GuardedOnOneWay(id))?;
                notes.unguard(edge, id)?;
            }
            _ => {}
        }
    }
    Ok(())
}

fn is_live(way: &Way, id: OwnerId) -> bool {
    match way.state.owner(id) {
        Some(owner) => owner.status.is_live(),
        None => false,
    }
}

/// The cleanup stacks are one, unless the method is translated again.
fn join_entries(
    alloc: Global,
    joined: &mut State,
    ways: &Vec<Way>,
    notes: &Notes,
) -> Result<(), JoinFault> {
    if ways
        .iter()
        .all(|way| has_entries(&way.state, &joined.entries))
    {
        return Ok(());
    }
    if !notes.is_new() {
        return Err(JoinFault::OtherEntries);
    }
    let mut shared: Vec<Entry> = Vec::new(alloc);
    for entry in &joined.entries {
        if ways.iter().all(|way| way.state.entries.contains(entry)) {
            shared.push(*entry)?;
        }
    }
    joined.entries = shared;
    Ok(())
}

fn has_entries(state: &State, entries: &Vec<Entry>) -> bool {
    if state.entries.len() != entries.len() {
        return false;
    }
    for at in 0..entries.len() {
        match state.entries.get(at) {
            Some(entry) if *entry == entries[at] => {}
            _ => return false,
        }
    }
    true
}
