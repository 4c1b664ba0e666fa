//! Owners on the move: guards, moves to other registers, deletes.
ghost use Rattle.std.specs.Prelude.{◌≡◌, None, OnOk};
ghost use Rattle.aom_source_code.specs.declared.operation.Operation.TheVariants.{Push};
ghost use Rattle.aom_source_methods.specs.Lines.{EndsWith};

use crate::generator::{Bound, Generator, Local, none, one, register, two};
use aom_source_code::{Note, Operation, Reason};
use aom_source_program::{Fault, FaultKind, Thing};
use aom_source_states::{Entry, OwnerId, Site, SiteKind, Status};

impl<'s, 't, 'a> Generator<'s, 't, 'a> {
    /// Guards the owners that are noted to be guarded where they came to their registers, the first first.
    pub fn settle(&mut self, token: u32) -> Result<(), Fault<'a>> {
        let mut order = 0;
        let count = match &self.state {
            Some(state) => state.owners.len(),
            None => return Ok(()),
        };
        for _ in 0..count {
            let Some(owner) = self.next_owner(order) else {
                return Ok(());
            };
            order = owner.order;
            let is_due = owner.status == Status::Owns
                && !owner.is_guarded
                && !owner.is_message
                && self.notes.is_guarded(owner.id, owner.site);
            if is_due {
                self.guard(owner.id, token)?;
            }
        }
        Ok(())
    }

    /// The owner that came next after an order.
    fn next_owner(&self, order: usize) -> Option<aom_source_states::Owner> {
        let mut found: Option<aom_source_states::Owner> = None;
        if let Some(state) = &self.state {
            for owner in &state.owners {
                let is_next = match found {
                    Some(other) => owner.order < other.order,
                    None => true,
                };
                if order < owner.order && is_next {
                    found = Some(*owner);
                }
            }
        }
        found
    }

    /// Pushes an owner on the cleanup stack, which may leave.
    pub fn guard(&mut self, id: OwnerId, token: u32) -> Result<(), Fault<'a>>
        ensures pushes { OnOk result (self.new.lacking ≡ None → EndsWith self.new.code.lines.items Push token) }
    {
        let local = self.known(id).ok_or(Fault::internal())?;
        self.leave_point(token, b"a guard", Some(id))?;
        let mut owner = self.owner(id);
        owner.status = Status::Owns;
        owner.is_guarded = true;
        self.push_entry(Entry::Guard(id));
        self.set_known(owner);
        let note = Note::added(Reason::Guards, local.name);
        self.emit_added(Operation::Push, one(register(local.register)), token, note);
        Ok(())
    }

    /// Takes the uppermost guard back, to its own register or to another one.
    pub fn pop_top(&mut self, token: u32, to: Option<usize>) -> Result<OwnerId, Fault<'a>> {
        let Some(Entry::Guard(id)) = self.top_entry() else {
            return Err(Fault::at(FaultKind::GuardOrder, token));
        };
        self.pop_entry();
        let local = self.known(id).ok_or(Fault::internal())?;
        let number = match to {
            Some(number) => number,
            None => local.register,
        };
        let note = Note::added(Reason::Unguards, local.name);
        self.emit_added(Operation::Pop, one(register(number)), token, note);
        self.order = self.order.saturating_add(1);
        let mut owner = self.owner(id);
        owner.status = Status::Owns;
        owner.is_guarded = false;
        owner.order = self.order;
        owner.site = Site {
            kind: SiteKind::Pop,
            item: self.item,
        };
        self.set_known(owner);
        Ok(id)
    }

    /// Takes guards back until an owner's is the uppermost.
    pub fn pop_above(&mut self, id: OwnerId, token: u32) -> Result<(), Fault<'a>> {
        let count = self.entry_count();
        for _ in 0..count {
            if self.top_entry() == Some(Entry::Guard(id)) {
                return Ok(());
            }
            self.pop_top(token, None)?;
        }
        Err(Fault::at(FaultKind::GuardOrder, token).about(self.owner_name(id)))
    }

    /// Takes an owner's guard back, if it has one.
    pub fn unguard(&mut self, id: OwnerId, token: u32) -> Result<(), Fault<'a>> {
        if self.owner(id).is_guarded {
            self.pop_above(id, token)?;
            self.pop_top(token, None)?;
        }
        Ok(())
    }

    /// Moves owners to registers, from wherever they are.
    pub fn bring(&mut self, owners: &Vec<(Local<'a>, usize)>, token: u32) -> Result<(), Fault<'a>> {
        let count = self.entry_count();
        let mut done: Vec<OwnerId> = Vec::new(self.alloc);
        for _ in 0..count {
            if !self.is_any_guarded(owners) {
                break;
            }
            let Some(Entry::Guard(id)) = self.top_entry() else {
                return Err(Fault::at(FaultKind::GuardOrder, token));
            };
            let to = wanted(owners, id);
            self.pop_top(token, to)?;
            if to.is_some() {
                done.push(id)?;
                let local = self.known(id).ok_or(Fault::internal())?;
                self.set_gone(local);
            }
        }
        for (local, to) in owners {
            if !done.contains(&local.id) {
                self.move_register(*local, *to, token);
            }
        }
        Ok(())
    }

    /// Moves one owner to a register.
    pub fn bring_one(&mut self, local: Local<'a>, to: usize, token: u32) -> Result<(), Fault<'a>> {
        let mut owners: Vec<(Local<'a>, usize)> = Vec::new(self.alloc);
        owners.push((local, to))?;
        self.bring(&owners, token)
    }

    fn move_register(&mut self, local: Local<'a>, to: usize, token: u32) {
        if local.register != to {
            self.emit(
                Operation::Move,
                two(register(to), register(local.register)),
                token,
            );
        }
        self.set_gone(local);
    }

    fn is_any_guarded(&self, owners: &Vec<(Local<'a>, usize)>) -> bool {
        for (local, _) in owners {
            let owner = self.owner(local.id);
            if owner.is_guarded && owner.status.is_live() {
                return true;
            }
        }
        false
    }

    /// Deletes what a local owns, if it may own anything.
    pub fn delete(
        &mut self,
        local: Local<'a>,
        token: u32,
        note: Note<'a>,
    ) -> Result<(), Fault<'a>> {
        let owner = self.owner(local.id);
        if !owner.status.is_live() {
            return Ok(());
        }
        if local.kind.thing() == Some(Thing::Message) {
            return Err(Fault::at(FaultKind::MessageLost, token).about(local.name));
        }
        if owner.is_guarded {
            self.pop_above(local.id, token)?;
            self.pop_entry();
            self.emit_added(Operation::PopDelete, none(), token, note);
        } else {
            self.emit_added(
                Operation::Delete,
                one(register(local.register)),
                token,
                note,
            );
        }
        self.set_gone(local);
        Ok(())
    }

    /// Ends what a block has brought forth. What is kept only comes from the cleanup stack.
    pub fn drop_one(
        &mut self,
        bound: Bound<'a>,
        token: u32,
        kept: Option<OwnerId>,
    ) -> Result<(), Fault<'a>> {
        match bound {
            Bound::Deferred(item) => self.run_deferred(item, token),
            Bound::Local(local, _) if kept == Some(local.id) => self.unguard(local.id, token),
            Bound::Local(local, _) if local.kind.thing().is_some() => {
                self.delete(local, token, Note::added(Reason::Deletes, local.name))
            }
            Bound::Local(..) => Ok(()),
        }
    }

    /// Runs what a `defer` has put on the cleanup stack.
    fn run_deferred(&mut self, item: usize, token: u32) -> Result<(), Fault<'a>> {
        let count = self.entry_count();
        for _ in 0..count {
            if self.top_entry() == Some(Entry::Deferred(item)) {
                self.pop_entry();
                let note = Note::added(Reason::RunsDeferred, b"");
                self.emit_added(Operation::PopDelete, none(), token, note);
                return Ok(());
            }
            self.pop_top(token, None)?;
        }
        Err(Fault::at(FaultKind::GuardOrder, token))
    }
}

/// The register that is wanted for an owner.
fn wanted<'a>(owners: &Vec<(Local<'a>, usize)>, id: OwnerId) -> Option<usize> {
    for (local, to) in owners {
        if local.id == id {
            return Some(*to);
        }
    }
    None
}
