//! Statements.
use crate::generator::{After, Bound, Generator, Local, none, one, register, two};
use crate::ifs::Part;
use aom_source_code::{Note, Operand, Operation, Reason};
use aom_source_program::{ClassKind, Fault, FaultKind, Role, ValueKind};
use aom_source_states::{Entry, Fill, OwnerId, SiteKind, Status};
use aom_source_syntax::Action;

impl<'s, 't, 'a> Generator<'s, 't, 'a> {
    /// Translates the statements of all blocks that are open.
    pub fn walk(&mut self) -> Result<(), Fault<'a>> {
        for _ in 0..self.source.items.len().saturating_mul(4).saturating_add(16) {
            let Some(region) = self.regions.pop() else {
                return Ok(());
            };
            if region.end <= region.at {
                self.end_region(region.after)?;
                continue;
            }
            let at = region.at;
            let next = self.source.partner(at).max(at).saturating_add(1);
            self.push_region(crate::generator::Region {
                at: next,
                end: region.end,
                after: region.after,
            });
            if !self.is_reached() {
                return Err(self.fault(FaultKind::Unreachable, at));
            }
            self.item = at;
            self.token = self.source.token(at);
            self.statement(at)?;
        }
        Err(Fault::internal())
    }

    fn end_region(&mut self, after: After<'a>) -> Result<(), Fault<'a>> {
        match after {
            After::Body => Ok(()),
            After::Then(frame) => self.end_then(frame),
            After::Else(frame) => self.end_else(frame),
            After::Loop(frame) => self.end_loop(&frame),
            After::Catch(frame) => self.end_catch(frame),
            After::Deferred(token) => self.shut(token),
        }
    }

    /// What a statement has computed on the way goes: guards are put, registers are free again.
    pub fn end_statement(&mut self, token: u32) -> Result<(), Fault<'a>> {
        self.settle(token)?;
        let count = self.owner_count();
        for back in 0..count {
            let at = count - 1 - back;
            if let Some(owner) = self.owner_at(at) {
                if owner.id.is_temporary && !owner.status.is_live() {
                    self.forget(owner.id);
                }
            }
        }
        self.free_registers();
        Ok(())
    }

    fn statement(&mut self, at: usize) -> Result<(), Fault<'a>> {
        match self.source.action(at) {
            Action::If => self.begin_if(at),
            Action::Loop | Action::While | Action::For => self.begin_loop(at),
            Action::Trap => self.begin_trap(at, None),
            Action::Let => self.begin_let(at),
            Action::AssertBegin => self.begin_assert(at),
            Action::Do => self.begin_do(at),
            action => {
                self.simple(action, at)?;
                self.end_statement(self.source.token(at))
            }
        }
    }

    /// A statement without a block.
    fn simple(&mut self, action: Action, at: usize) -> Result<(), Fault<'a>> {
        let token = self.source.token(at);
        match action {
            Action::Assign => self.assign(at),
            Action::Break => self.leave_loop(at, token, true),
            Action::Continue => self.leave_loop(at, token, false),
            Action::Stop => {
                self.emit(Operation::Stop, none(), token);
                Ok(())
            }
            Action::Cancel => self.cancel(token, true),
            Action::Close => self.close(at),
            Action::Return => self.return_nothing(at),
            Action::ReturnBegin => self.return_value(at),
            Action::Delete => self.delete_local(at),
            Action::DeferBegin => self.defer(at),
            Action::RequestBegin => self.request(at),
            Action::ReplyBegin => self.reply(at),
            action => self.with_word(action, at),
        }
    }

    /// A statement that takes one word.
    fn with_word(&mut self, action: Action, at: usize) -> Result<(), Fault<'a>> {
        match action {
            Action::EnlistBegin => return self.enlist(at),
            Action::AfterBegin => return self.request_one(at, ClassKind::Timer),
            Action::ResumeBegin => return self.request_one(at, ClassKind::Active),
            _ => {}
        }
        let token = self.source.token(at);
        let word = self.word(at.saturating_add(1), self.source.partner(at), None)?;
        match action {
            Action::PrintBegin => {
                self.emit(Operation::Print, one(register(word)), token);
                Ok(())
            }
            Action::LeaveIfBegin => {
                self.leave_point(token, b"leaveif", None)?;
                self.emit(Operation::LeaveIf, one(register(word)), token);
                Ok(())
            }
            Action::LeaveBegin => self.leave_with(word, token),
            _ => Err(Fault::internal()),
        }
    }

    /// Leaves with the code in a register. Owners that are not guarded are deleted first.
    pub fn leave_with(&mut self, code: usize, token: u32) -> Result<(), Fault<'a>> {
        let count = self.bound.len();
        for back in 0..count {
            if let Some(Bound::Local(local, _)) = self.bound.get(count - 1 - back) {
                let local = *local;
                let owner = self.owner(local.id);
                if local.kind.thing().is_none() || owner.is_guarded {
                    continue;
                }
                if owner.is_message && owner.status.is_live() {
                    return Err(Fault::at(FaultKind::MessageAtLeave, token).about(local.name));
                }
                self.delete(local, token, Note::added(Reason::Deletes, local.name))?;
            }
        }
        self.leave_point(token, b"leave", None)?;
        self.emit(Operation::Leave, one(register(code)), token);
        self.state = None;
        Ok(())
    }

    /// A temporary that is to own something.
    pub fn temporary(
        &mut self,
        name: &'a [u8],
        id: OwnerId,
        token: u32,
    ) -> Result<Local<'a>, Fault<'a>> {
        Ok(Local {
            name,
            id,
            kind: crate::owned::message(true),
            register: self.reserve(1, token)?,
            token,
        })
    }

    fn begin_let(&mut self, at: usize) -> Result<(), Fault<'a>> {
        let named = at.saturating_add(1);
        let mut next = named.saturating_add(1);
        if self.source.action(next) == Action::CodeName {
            return self.begin_trap(next.saturating_add(1), Some(named));
        }
        let mut declared = None;
        if self.source.action(next) != Action::Trap && self.is_type(next) {
            declared = Some(self.program.kind_at(self.source, next)?);
            next = next.saturating_add(1);
            if self.source.action(next) == Action::MaybeType {
                next = next.saturating_add(1);
            }
        }
        if self.source.action(next) == Action::Trap {
            if declared.is_some() {
                return Err(self.fault(FaultKind::WrongTrap, named));
            }
            return self.begin_trap(next, Some(named));
        }
        self.let_value(at, named, next, declared)?;
        self.end_statement(self.source.token(at))
    }

    fn is_type(&self, at: usize) -> bool {
        matches!(
            self.source.action(at),
            Action::WordType | Action::MessageType | Action::ClassType
        )
    }

    fn let_value(
        &mut self,
        at: usize,
        named: usize,
        begin: usize,
        declared: Option<ValueKind>,
    ) -> Result<(), Fault<'a>> {
        let end = self.source.partner(at);
        let token = self.source.token(named);
        let name = self.text(named);
        let local = self.temporary(name, OwnerId::local(named), token)?;
        if self.is_word(begin, end)? {
            if matches!(declared, Some(kind) if kind != ValueKind::Word) {
                return Err(self.fault(FaultKind::WordAsOwner, at).about(name));
            }
            self.word(begin, end, Some(local.register))?;
            return self.bind(Local {
                kind: ValueKind::Word,
                ..local
            });
        }
        let found = self.owned(begin, end, local)?;
        let local = match declared {
            None => found,
            Some(kind) => self.declared(found, kind, at)?,
        };
        self.bind(local)
    }

    /// A local of the kind that its `let` declares.
    fn declared(
        &mut self,
        local: Local<'a>,
        kind: ValueKind,
        at: usize,
    ) -> Result<Local<'a>, Fault<'a>> {
        let token = self.source.token(at);
        let Some(thing) = kind.thing() else {
            return Err(self.fault(FaultKind::OwnerAsWord, at).about(local.name));
        };
        let wide = self.widen(local, thing, token)?;
        if let ValueKind::Owner {
            is_maybe: false,
            ..
        } = kind
        {
            self.owns_surely(wide, token)?;
            return Ok(wide);
        }
        Ok(Local { kind, ..wide })
    }

    fn assign(&mut self, at: usize) -> Result<(), Fault<'a>> {
        let named = at.saturating_add(1);
        let name = self.text(named);
        let (begin, end) = (named.saturating_add(1), self.source.partner(at));
        if let Some(local) = self.local(name) {
            if local.kind == ValueKind::Word {
                self.word(begin, end, Some(local.register))?;
                return Ok(());
            }
            if self.is_word(begin, end)? {
                return Err(self.fault(FaultKind::WordAsOwner, at).about(name));
            }
            return self.assign_owner(at, local, begin, end);
        }
        if let Some(number) = self.word_number(name) {
            let word = self.word(begin, end, None)?;
            let operands = two(Operand::Word(number), register(word));
            self.emit(Operation::Store, operands, self.source.token(at));
            return Ok(());
        }
        match self.field(name) {
            Some(number) => {
                if self.is_word(begin, end)? {
                    return Err(self.fault(FaultKind::WordAsOwner, at).about(name));
                }
                self.assign_field(at, number, begin, end)
            }
            None => Err(self.fault(FaultKind::UnknownName, at).about(name)),
        }
    }

    /// Something else comes to a local: what it owned is deleted.
    fn assign_owner(
        &mut self,
        at: usize,
        local: Local<'a>,
        begin: usize,
        end: usize,
    ) -> Result<(), Fault<'a>> {
        let token = self.source.token(at);
        let wanted = local.kind.thing().ok_or(Fault::internal())?;
        let blank = self.temporary(local.name, OwnerId::temporary(at), token)?;
        let found = self.owned(begin, end, blank)?;
        self.want_sure(found, local, at)?;
        let found = self.widen(found, wanted, token)?;
        self.replace(local, found, at)
    }

    /// Asks that what comes to a local that owns surely owns surely.
    fn want_sure(&self, found: Local<'a>, local: Local<'a>, at: usize) -> Result<(), Fault<'a>> {
        let is_sure = matches!(
            local.kind,
            ValueKind::Owner {
                is_maybe: false,
                ..
            }
        );
        if is_sure && self.owner(found.id).status != Status::Owns {
            return Err(self.fault(FaultKind::MayBeNull, at).about(local.name));
        }
        Ok(())
    }

    fn replace(&mut self, local: Local<'a>, found: Local<'a>, at: usize) -> Result<(), Fault<'a>> {
        let token = self.source.token(at);
        self.delete(local, token, Note::added(Reason::Deletes, local.name))?;
        let status = self.owner(found.id).status;
        self.bring_one(found, local.register, token)?;
        self.set_owner(local, status, SiteKind::Set, at);
        Ok(())
    }

    /// Something comes to a field: what it owned is deleted, unless it is known to be empty.
    fn assign_field(
        &mut self,
        at: usize,
        number: usize,
        begin: usize,
        end: usize,
    ) -> Result<(), Fault<'a>> {
        let token = self.source.token(at);
        let name = self.field_name(number);
        let thing = self.field_thing(number)?;
        let source = self.named_or_made((begin, end), name, at)?;
        self.fits(source.kind.thing().ok_or(Fault::internal())?, thing, token)?;
        self.put_field(number, source, token)
    }

    /// What an expression at some items owns: the local that it names alone, or a temporary of a name, for the statement at an item.
    pub fn named_or_made(
        &mut self,
        items: (usize, usize),
        name: &'a [u8],
        at: usize,
    ) -> Result<Local<'a>, Fault<'a>> {
        let (begin, end) = items;
        let token = self.source.token(at);
        if let Some(local) = self.named_local(begin, end) {
            self.is_there(local, token)?;
            return Ok(local);
        }
        let blank = self.temporary(name, OwnerId::temporary(at), token)?;
        self.owned(begin, end, blank)
    }

    fn put_field(&mut self, number: usize, source: Local<'a>, token: u32) -> Result<(), Fault<'a>> {
        if self.fill(number) != Fill::Empty {
            self.delete_old(number, token)?;
        }
        let status = self.owner(source.id).status;
        self.bring_one(source, source.register, token)?;
        let operands = two(Operand::Field(number), register(source.register));
        self.emit(Operation::Put, operands, token);
        let fill = match status {
            Status::Owns => Fill::Full,
            Status::Maybe => Fill::Perhaps,
            Status::Null | Status::Gone => Fill::Empty,
        };
        self.set_fill(number, fill);
        Ok(())
    }

    fn delete_old(&mut self, number: usize, token: u32) -> Result<(), Fault<'a>> {
        let name = self.field_name(number);
        if self.field_thing(number)? == aom_source_program::Thing::Message {
            return Err(Fault::at(FaultKind::FieldFull, token).about(name));
        }
        let old = register(self.reserve(1, token)?);
        let note = Note::added(Reason::DeletesOld, name);
        self.emit_added(
            Operation::Take,
            two(old, Operand::Field(number)),
            token,
            note,
        );
        self.emit_added(Operation::Delete, one(old), token, note);
        Ok(())
    }

    fn delete_local(&mut self, at: usize) -> Result<(), Fault<'a>> {
        let name = self.text(at);
        let token = self.source.token(at);
        let Some(local) = self.owning_local(name) else {
            return Err(self.fault(self.no_owner_fault(name), at).about(name));
        };
        self.is_there(local, token)?;
        self.delete(local, token, Note::written())?;
        self.set_gone(local);
        Ok(())
    }

    /// What is run at the block's end, and at a leave.
    fn defer(&mut self, at: usize) -> Result<(), Fault<'a>> {
        let named = at.saturating_add(1);
        let name = self.text(named);
        let token = self.source.token(at);
        let Some(method) = self.program.function_named(name) else {
            return Err(self.fault(FaultKind::UnknownName, named).about(name));
        };
        if self.program.method(method)?.role != Role::Undo {
            return Err(self.fault(FaultKind::UnknownName, named).about(name));
        }
        let _ = self.summary_of(method);
        let word = self.word(named.saturating_add(1), self.source.partner(at), None)?;
        self.leave_point(token, b"defer", None)?;
        let operands = two(register(word), Operand::Method(method));
        self.emit(Operation::PushOperation, operands, token);
        self.note_call(method);
        self.push_entry(Entry::Deferred(at));
        self.push_bound(Bound::Deferred(at));
        Ok(())
    }

    /// A call as a statement; one behind `?.` is made where the object is there.
    fn begin_do(&mut self, at: usize) -> Result<(), Fault<'a>> {
        let (begin, end) = (at.saturating_add(1), self.source.partner(at));
        let token = self.source.token(at);
        let root = end.saturating_sub(1);
        if self.source.action(root) != Action::CallEnd || self.source.partner(root) != begin {
            return Err(self.fault(FaultKind::Syntax, at));
        }
        let (_, method) = self.callee(begin)?;
        if self.gives(method).thing().is_some() {
            let name = self.name_of(method);
            return Err(self.fault(FaultKind::OwnerDropped, at).about(name));
        }
        if self.source.action(begin) == Action::MaybeCall {
            let frame = self.frame(at, Part::Call { begin, end }, None)?;
            return self.begin_name_test(frame, begin.saturating_add(1));
        }
        self.call_alone(begin, end)?;
        self.end_statement(token)
    }

    /// An assertion leaves with a code of its own where it does not hold.
    fn begin_assert(&mut self, at: usize) -> Result<(), Fault<'a>> {
        let test = at.saturating_add(1);
        let code = self.assertion_code(at);
        let frame = self.frame(at, Part::Fail(code), None)?;
        self.begin_test(
            frame,
            test.saturating_add(1),
            self.source.partner(test),
            true,
        )
    }

    /// -1000 for the first assertion of a source, -1001 for the next, and so on.
    fn assertion_code(&self, at: usize) -> i64 {
        let before = i64::try_from(self.source.assertions_before(at)).unwrap_or(i64::MAX);
        (-1000_i64).saturating_sub(before)
    }

    /// Whether no way leads out of a block: it ends with a return or a leave, or with an `if` both of whose ways do.
    pub fn block_ends(&self, begin: usize, end: usize) -> Result<bool, Fault<'a>> {
        let mut waiting: Vec<(usize, usize)> = Vec::new(self.alloc);
        waiting.push((begin, end))?;
        for _ in 0..=self.source.items.len() {
            let Some((begin, end)) = waiting.pop() else {
                return Ok(true);
            };
            match self.last_statement(begin, end) {
                Some(last) if self.is_end(last) => {}
                Some(last) if self.source.action(last) == Action::If => {
                    let test = last.saturating_add(1);
                    let block = self.source.partner(test).saturating_add(1);
                    let behind = self.source.partner(block).saturating_add(1);
                    if self.source.action(behind) != Action::Else {
                        return Ok(false);
                    }
                    let other = behind.saturating_add(1);
                    waiting.push(self.other_range(other, self.source.partner(last)))?;
                    waiting.push((block.saturating_add(1), self.source.partner(block)))?;
                }
                _ => return Ok(false),
            }
        }
        Ok(false)
    }

    fn other_range(&self, at: usize, end: usize) -> (usize, usize) {
        if self.source.action(at) == Action::BlockBegin {
            (at.saturating_add(1), self.source.partner(at))
        } else {
            (at, end)
        }
    }

    fn is_end(&self, at: usize) -> bool {
        matches!(
            self.source.action(at),
            Action::Return | Action::ReturnBegin | Action::LeaveBegin
        )
    }

    fn last_statement(&self, begin: usize, end: usize) -> Option<usize> {
        let mut last = None;
        let mut at = begin;
        for _ in begin..end {
            if end <= at {
                return last;
            }
            last = Some(at);
            at = self.source.partner(at).max(at).saturating_add(1);
        }
        last
    }
}
