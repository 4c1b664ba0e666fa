//! Requests, replies and the rest that is one instruction each.
use crate::generator::{Generator, Local, none, one, register, two};
use aom_source_code::{Note, Operand, Operation, Reason};
use aom_source_program::{ClassKind, Fault, FaultKind, Thing};
use aom_source_states::{Fill, OwnerId, RequestStates};
use aom_source_syntax::Action;

impl<'s, 't, 'a> Generator<'s, 't, 'a> {
    /// Asks that a request may be made here.
    pub fn is_idle(&mut self, at: usize) -> Result<(), Fault<'a>> {
        let request = self.request_states();
        if request.meets(RequestStates::UNLISTED) {
            return Err(self.fault(FaultKind::NotEnlisted, at));
        }
        if !request.is_within(RequestStates::IDLE) {
            return Err(self.fault(FaultKind::AlreadyActive, at));
        }
        Ok(())
    }

    pub fn enlist(&mut self, at: usize) -> Result<(), Fault<'a>> {
        self.want_class(self.kind.is_enlisted(), at)?;
        let (begin, end) = (at.saturating_add(1), self.source.partner(at));
        let priority = self
            .program
            .constants
            .evaluate(self.alloc, self.source, begin, end)?;
        if 2147483647 < priority {
            return Err(self.fault(FaultKind::NumberRange, at));
        }
        if !self.request_states().is_within(RequestStates::UNLISTED) {
            return Err(self.fault(FaultKind::AlreadyEnlisted, at));
        }
        let token = self.source.token(at);
        self.emit(Operation::Enlist, one(Operand::Number(priority)), token);
        self.set_request(RequestStates::IDLE);
        Ok(())
    }

    /// A request with one word, to the provider that a class has.
    pub fn request_one(&mut self, at: usize, kind: ClassKind) -> Result<(), Fault<'a>> {
        self.want_class(self.kind == kind, at)?;
        let word = self.word(at.saturating_add(1), self.source.partner(at), None)?;
        self.issue(at, word, word)
    }

    /// A request to a native: a function and a word.
    pub fn request(&mut self, at: usize) -> Result<(), Fault<'a>> {
        self.want_class(self.kind == ClassKind::Native, at)?;
        let parted = self.source.find(Action::RequestFunction, at)?;
        let function = self.word(at.saturating_add(1), parted, None)?;
        let end = self.source.partner(at);
        let word = self.word(parted.saturating_add(1), end, None)?;
        self.issue(at, function, word)
    }

    fn issue(&mut self, at: usize, first: usize, second: usize) -> Result<(), Fault<'a>> {
        self.is_idle(at)?;
        let token = self.source.token(at);
        let operands = two(register(first), register(second));
        self.emit(Operation::Issue, operands, token);
        self.emit(Operation::SetActive, none(), token);
        self.set_request(RequestStates::ACTIVE);
        Ok(())
    }

    /// Cancels the request: written, or what a destructor does first.
    pub fn cancel(&mut self, token: u32, is_written: bool) -> Result<(), Fault<'a>> {
        if !self.kind.is_active() {
            return Err(Fault::at(FaultKind::WrongKind, token));
        }
        let request = self.request_states();
        if !request.is_within(RequestStates::of_class(self.kind)) {
            return Err(Fault::at(FaultKind::WrongState, token).about(self.method_name()));
        }
        let note = if is_written {
            Note::written()
        } else {
            Note::added(Reason::Cancels, b"")
        };
        self.emit_added(Operation::Cancel, none(), token, note);
        self.summary.cancels = true;
        let rest = request.less(RequestStates::ACTIVE);
        self.set_request(if request.meets(RequestStates::ACTIVE) {
            rest.or(RequestStates::IDLE)
        } else {
            rest
        });
        self.forget_fields();
        Ok(())
    }

    pub fn close(&mut self, at: usize) -> Result<(), Fault<'a>> {
        self.want_class(self.kind == ClassKind::Native, at)?;
        if !self.request_states().is_within(RequestStates(1 | 2)) {
            return Err(self.fault(FaultKind::AlreadyActive, at));
        }
        self.emit(Operation::Close, none(), self.source.token(at));
        Ok(())
    }

    /// Completes a message. The code is computed first, so that the message is held no longer than it has to be.
    pub fn reply(&mut self, at: usize) -> Result<(), Fault<'a>> {
        let token = self.source.token(at);
        let parted = self.source.find(Action::ReplyTo, at)?;
        let code = self.word(parted.saturating_add(1), self.source.partner(at), None)?;
        self.top = self.top.max(code.saturating_add(1));
        let local = self.completed(at.saturating_add(1), parted, at)?;
        if local.kind.thing() != Some(Thing::Message) {
            return Err(self.fault(FaultKind::WrongKind, at).about(local.name));
        }
        self.owns_surely(local, token)?;
        self.bring_one(local, local.register, token)?;
        let operands = two(register(local.register), register(code));
        self.emit(Operation::Reply, operands, token);
        Ok(())
    }

    /// The message that a reply completes.
    fn completed(&mut self, begin: usize, end: usize, at: usize) -> Result<Local<'a>, Fault<'a>> {
        if let Some(local) = self.named_local(begin, end) {
            return Ok(local);
        }
        self.want_taken(begin, end)?;
        let token = self.source.token(at);
        let local = self.temporary(b"the message", OwnerId::temporary(at), token)?;
        self.owned(begin, end, local)
    }

    /// A field is no owner to be moved: it is taken.
    fn want_taken(&self, begin: usize, end: usize) -> Result<(), Fault<'a>> {
        if self.is_word(begin, end)? {
            return Err(self.fault(FaultKind::WordAsOwner, begin));
        }
        Ok(())
    }
}
