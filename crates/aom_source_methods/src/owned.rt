//! What is owned, by one item: a local that is moved, a field that is taken, a token, the message.
use crate::expressions::{Machine, Want};
use crate::generator::{Generator, Local, none, one, register, two};
use aom_source_code::{Operand, Operation};
use aom_source_program::{ClassKind, Fault, FaultKind, Role, Thing, ValueKind};
use aom_source_states::{Fill, MessageState, RequestStates, SiteKind, Status};
use aom_source_syntax::Action;

impl<'s, 't, 'a> Generator<'s, 't, 'a> {
    /// The local for which something owned is wanted at an item.
    pub fn want_owner(&self, machine: &Machine<'a>, at: usize) -> Result<Local<'a>, Fault<'a>> {
        match machine.want() {
            Want::Owner(local) if machine.is_root(self.end_of(at)) => Ok(local),
            Want::Owner(_) | Want::Word(_) => Err(self.fault(FaultKind::OwnerAsWord, at)),
            Want::Nothing => Err(self.fault(FaultKind::Syntax, at)),
            Want::Trap(_) => Err(self.fault(FaultKind::WrongTrap, at)),
        }
    }

    /// The item behind the part at an item.
    fn end_of(&self, at: usize) -> usize {
        self.source.partner(at).max(at).saturating_add(1)
    }

    /// Something owned has come to the register of what wants it.
    pub fn has_come(
        &mut self,
        machine: &mut Machine<'a>,
        local: Local<'a>,
        status: Status,
        kind: SiteKind,
        at: usize,
    ) -> Result<(), Fault<'a>> {
        machine.refine(local);
        self.set_owner(local, status, kind, at);
        self.settle(self.source.token(at))
    }

    /// The local of a name, if it may own something.
    pub fn owning_local(&self, name: &[u8]) -> Option<Local<'a>> {
        match self.local(name) {
            Some(local) if local.kind != ValueKind::Word => Some(local),
            _ => None,
        }
    }

    /// What is wrong with a name that is no local which owns, where one is wanted.
    pub fn no_owner_fault(&self, name: &'a [u8]) -> FaultKind {
        let is_word = self.local(name).is_some()
            || self.word_number(name).is_some()
            || self.program.constants.value(name).is_some();
        if is_word {
            FaultKind::WordAsOwner
        } else if self.field(name).is_some() {
            FaultKind::FieldMoved
        } else {
            FaultKind::UnknownName
        }
    }

    /// A local that is moved.
    pub fn move_local(&mut self, machine: &mut Machine<'a>, at: usize) -> Result<(), Fault<'a>> {
        let name = self.text(at);
        let Some(from) = self.owning_local(name) else {
            return Err(self.fault(self.no_owner_fault(name), at).about(name));
        };
        let local = self.want_owner(machine, at)?;
        let token = self.source.token(at);
        self.is_there(from, token)?;
        let status = self.owner(from.id).status;
        self.bring_one(from, local.register, token)?;
        let local = Local {
            kind: from.kind,
            ..local
        };
        self.has_come(machine, local, status, SiteKind::Let, at)
    }

    /// A field that is taken, a token that is handed out, the message.
    pub fn owner_leaf(&mut self, machine: &mut Machine<'a>, at: usize) -> Result<(), Fault<'a>> {
        let local = self.want_owner(machine, at)?;
        match self.source.action(at) {
            Action::Take => self.take_field(machine, local, at),
            Action::Hand => self.hand(machine, local, at),
            Action::Message => self.take_message(machine, local, at),
            _ => Err(self.fault(FaultKind::NoNullHere, at)),
        }
    }

    fn take_field(
        &mut self,
        machine: &mut Machine<'a>,
        local: Local<'a>,
        at: usize,
    ) -> Result<(), Fault<'a>> {
        let name = self.text(at);
        let Some(number) = self.field(name) else {
            return Err(self.fault(FaultKind::UnknownName, at).about(name));
        };
        let thing = self.field_thing(number)?;
        let operands = two(register(local.register), Operand::Field(number));
        self.emit(Operation::Take, operands, self.source.token(at));
        let status = match self.fill(number) {
            Fill::Full => Status::Owns,
            Fill::Perhaps => Status::Maybe,
            Fill::Empty => Status::Null,
        };
        self.set_fill(number, Fill::Empty);
        let local = Local {
            kind: ValueKind::Owner {
                thing,
                is_maybe: status != Status::Owns,
            },
            ..local
        };
        self.has_come(machine, local, status, SiteKind::Take, at)
    }

    fn hand(
        &mut self,
        machine: &mut Machine<'a>,
        local: Local<'a>,
        at: usize,
    ) -> Result<(), Fault<'a>> {
        let token = self.source.token(at);
        self.want_class(self.kind == ClassKind::Token, at)?;
        self.is_idle(at)?;
        self.emit(Operation::Hand, one(register(local.register)), token);
        self.emit(Operation::SetActive, none(), token);
        self.set_request(RequestStates::ACTIVE);
        let local = Local {
            kind: message(true),
            ..local
        };
        self.has_come(machine, local, Status::Maybe, SiteKind::Hand, at)
    }

    fn take_message(
        &mut self,
        machine: &mut Machine<'a>,
        local: Local<'a>,
        at: usize,
    ) -> Result<(), Fault<'a>> {
        self.want_class(self.role == Role::Service, at)?;
        if self.message_state() == MessageState::Taken {
            return Err(self.fault(FaultKind::MessageTakenTwice, at));
        }
        let operands = one(register(local.register));
        self.emit(Operation::TakeMessage, operands, self.source.token(at));
        self.set_message(MessageState::Taken);
        let local = Local {
            kind: message(false),
            ..local
        };
        self.has_come(machine, local, Status::Owns, SiteKind::Message, at)
    }

    /// Whether an expression gives a word, and not something owned.
    pub fn is_word(&self, begin: usize, end: usize) -> Result<bool, Fault<'a>> {
        let last = end.saturating_sub(1);
        match self.source.action(last) {
            Action::Name if end == begin.saturating_add(1) => {
                let name = self.text(last);
                Ok(match self.local(name) {
                    Some(local) => local.kind == ValueKind::Word,
                    None => {
                        self.word_number(name).is_some()
                            || self.program.constants.value(name).is_some()
                    }
                })
            }
            Action::CallEnd => {
                let (_, method) = self.callee(self.source.partner(last))?;
                let gives = self.gives(method);
                if gives == ValueKind::Nothing {
                    return Err(
                        self.fault(FaultKind::WrongKind, last)
                            .about(self.name_of(method)),
                    );
                }
                Ok(gives == ValueKind::Word)
            }
            Action::Take | Action::NewEnd | Action::Hand | Action::Message | Action::None => {
                Ok(false)
            }
            _ => Ok(true),
        }
    }
}

/// A message, or what may be one.
pub fn message(is_maybe: bool) -> ValueKind {
    ValueKind::Owner {
        thing: Thing::Message,
        is_maybe,
    }
}
