//! Locals and blocks.
ghost use Rattle.std.specs.Prelude.{◌≡◌, ◌-◌, [], ◌∷◌, ◌++◌, IfSome, None, drop, get_or, length, true};
ghost use Rattle.aom_source_methods.specs.Lines.{name_of, names_of};

use crate::generator::{Bound, Generator, Local, Scope};
use aom_source_code::{Code, NamedRegister};
use aom_source_program::{Fault, FaultKind, ValueKind};
use aom_source_states::{Owner, OwnerId, Site, SiteKind, Status};

impl<'s, 't, 'a> Generator<'s, 't, 'a> {
    /// Opens a block.
    pub fn open(&mut self) {
        let scope = Scope {
            begin: self.bound.len(),
            top: self.top,
            from: self.code.lines.len(),
        };
        let is_done = self.scopes.push(scope).is_ok();
        self.want_memory(is_done);
    }

    /// Ends a block: what it has brought forth goes, the last first.
    pub fn shut(&mut self, token: u32) -> Result<(), Fault<'a>> {
        let scope = self.scopes.pop().ok_or(Fault::internal())?;
        if self.is_reached() {
            self.drop_bound(scope.begin, token, None)?;
            self.forget_bound(scope.begin);
        }
        self.name_registers(scope);
        for _ in scope.begin..self.bound.len() {
            let _ = self.bound.pop();
        }
        self.top = scope.top;
        Ok(())
    }

    /// Deletes what was brought forth from a place on, the last first, but for what is kept.
    pub fn drop_bound(
        &mut self,
        begin: usize,
        token: u32,
        kept: Option<OwnerId>,
    ) -> Result<(), Fault<'a>> {
        for back in 0..self.bound.len().saturating_sub(begin) {
            let Some(bound) = self.bound_before(back) else {
                return Ok(());
            };
            self.drop_one(bound, token, kept)?;
        }
        Ok(())
    }

    /// What was brought forth so many before the last.
    fn bound_before(&self, back: usize) -> Option<Bound<'a>>
        ensures { IfSome result (λ b. b ≡ get_or self.now.bound.items (length self.now.bound.items - 1 - back) b) }
    {
        let last = self.bound.len().checked_sub(1)?;
        self.bound.get(last.checked_sub(back)?).copied()
    }

    /// Forgets what was brought forth from a place on.
    pub fn forget_bound(&mut self, begin: usize) {
        for at in begin..self.bound.len() {
            if let Some(Bound::Local(local, _)) = self.bound.get(at) {
                let id = local.id;
                self.forget(id);
            }
        }
    }

    /// Each local that a block has brought forth is the name of its register, from where it is declared, if that is in the block, to here.
    pub fn name_registers(&mut self, scope: Scope)
        ensures { self.new.lacking ≡ None → self.new.code.names.items ≡ self.old.code.names.items ++ names_of scope.from (length self.old.code.lines.items) (drop scope.begin self.old.bound.items) }
    {
        let begin = scope.begin.min(self.bound.len());
        let is_done = name_locals(&mut self.code, &self.bound[begin..], scope.from);
        self.want_memory(is_done);
    }

    /// A name for a local, from here to the end of the block.
    pub fn bind(&mut self, local: Local<'a>) -> Result<(), Fault<'a>> {
        let is_taken = self.local(local.name).is_some()
            || self.field(local.name).is_some()
            || self.word_number(local.name).is_some();
        if is_taken {
            return Err(Fault::at(FaultKind::DoubleName, local.token).about(local.name));
        }
        let declared = self.code.lines.len();
        self.push_bound(Bound::Local(local, declared));
        Ok(())
    }

    /// What the block has brought forth is one more.
    pub fn push_bound(&mut self, bound: Bound<'a>) {
        let is_done = self.bound.push(bound).is_ok();
        self.want_memory(is_done);
    }

    /// The registers of what a block has brought forth stay taken, and no others.
    pub fn free_registers(&mut self) {
        let Some(scope) = self.scopes.last() else {
            return;
        };
        let (begin, mut top) = (scope.begin, scope.top);
        for at in begin..self.bound.len() {
            if let Bound::Local(local, _) = self.bound[at] {
                top = top.max(local.register.saturating_add(1));
            }
        }
        self.top = top;
    }

    /// What an owner is: its name, kind and register.
    pub fn known(&self, id: OwnerId) -> Option<Local<'a>> {
        for local in &self.owners {
            if local.id == id {
                return Some(*local);
            }
        }
        None
    }

    /// The name of an owner.
    pub fn owner_name(&self, id: OwnerId) -> &'a [u8] {
        match self.known(id) {
            Some(local) => local.name,
            None => b"",
        }
    }

    fn remember(&mut self, local: Local<'a>) {
        let found = self.owners.iter().position(|owner| owner.id == local.id);
        match found {
            Some(at) if at < self.owners.len() => self.owners[at] = local,
            _ => {
                let is_done = self.owners.push(local).is_ok();
                self.want_memory(is_done);
            }
        }
    }

    /// What is known of an owner here. What nothing is known of has gone.
    pub fn owner(&self, id: OwnerId) -> Owner {
        let found = match &self.state {
            Some(state) => state.owner(id),
            None => None,
        };
        match found {
            Some(owner) => owner,
            None => gone(id, false),
        }
    }

    /// Something has come to the register of a local.
    pub fn set_owner(&mut self, local: Local<'a>, status: Status, kind: SiteKind, item: usize) {
        self.order = self.order.saturating_add(1);
        self.remember(local);
        let owner = Owner {
            id: local.id,
            is_message: is_message(local.kind),
            status,
            is_guarded: false,
            site: Site { kind, item },
            order: self.order,
        };
        self.set_known(owner);
    }

    /// What a local owned has gone from it.
    pub fn set_gone(&mut self, local: Local<'a>) {
        let owner = gone(local.id, is_message(local.kind));
        self.set_known(owner);
    }
}

/// Each local among what was brought forth is the name of its register, from an instruction or where it is declared to here, if there is memory for that.
fn name_locals<'a>(code: &mut Code<'a>, bound: &[Bound<'a>], from: usize) -> bool
    ensures { result ≡ true → code.new.names.items ≡ code.old.names.items ++ names_of from (length code.old.lines.items) bound.now }
{
    let mut is_done = true;
    for found in bound {
        if let Bound::Local(local, declared) = *found {
            if !name_register(code, local, from.max(declared)) {
                is_done = false;
            }
        }
    }
    is_done
}

/// A local is the name of its register, from an instruction to here, if there is memory for that.
fn name_register<'a>(code: &mut Code<'a>, local: Local<'a>, from: usize) -> bool
    ensures lines { code.new.lines ≡ code.old.lines }
    ensures named { result ≡ true → code.new.names.items ≡ code.old.names.items ++ name_of from (length code.old.lines.items) local.entry ∷ [] }
{
    let named = NamedRegister {
        name: local.name,
        token: local.token,
        register: local.register,
        from,
        to: code.lines.len(),
    };
    code.names.push(named).is_ok()
}

/// Whether it is a message, or may be one.
pub fn is_message(kind: ValueKind) -> bool {
    match kind.thing() {
        Some(thing) => thing == aom_source_program::Thing::Message,
        None => false,
    }
}

/// What is known of an owner that has been moved or deleted.
pub fn gone(id: OwnerId, is_message: bool) -> Owner {
    Owner {
        id,
        is_message,
        status: Status::Gone,
        is_guarded: false,
        site: Site {
            kind: SiteKind::Let,
            item: 0,
        },
        order: 0,
    }
}
