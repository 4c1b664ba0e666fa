//! One method, whole.
use crate::generator::{
    After, Bound, Deferred, Generator, Local, Region, Scope, none, one, register, two,
};
use crate::summary::{Helpers, Summaries, Summary};
use aom_source_code::{Code, Note, Operand, Operation, Reason};
use aom_source_program::{
    Body, ClassId, ClassKind, Fault, FaultKind, Field, MethodId, Program, Role, Source, Thing,
    ValueKind,
};
use aom_source_states::{
    Fill, MessageState, Notes, OwnerId, RequestStates, SiteKind, State, Status,
};
use std::collections::VecDeque;

/// A method that has been translated.
#[derive(Drop)]
pub struct Translated<'a> {
    pub code: Code<'a>,
    pub summary: Summary<'a>,
}

/// What has come of a method.
#[derive(Drop)]
pub enum Outcome<'a> {
    Done(Translated<'a>),
    /// These have to be translated first.
    Needs(Vec<MethodId>),
}

/// The most passes over a method. Each but the last notes one thing more.
const MOST_PASSES: usize = 4096;

/// Translates a method that begins while its request is as far as told.
pub fn translate_method<'s, 't, 'a>(
    source: &'s Source<'t, 'a>,
    program: &'s Program<'a>,
    summaries: &'s Summaries<'a>,
    helpers: &'s Helpers,
    id: MethodId,
    begin: RequestStates,
) -> Result<Outcome<'a>, Fault<'a>> {
    let mut notes = Notes::new(program.alloc);
    for _ in 0..MOST_PASSES {
        notes.begin();
        let mut generator = Generator::new(source, program, summaries, helpers, id, notes, begin)?;
        let made = generator.translate();
        let Generator {
            notes: noted,
            code,
            summary,
            needs,
            lacking,
            ..
        } = generator;
        notes = noted;
        if let Some(fault) = lacking {
            return Err(fault);
        }
        if !needs.is_empty() {
            return Ok(Outcome::Needs(needs));
        }
        if notes.is_new() {
            continue;
        }
        made?;
        return Ok(Outcome::Done(Translated { code, summary }));
    }
    Err(Fault::internal())
}

impl<'s, 't, 'a> Generator<'s, 't, 'a> {
    fn new(
        source: &'s Source<'t, 'a>,
        program: &'s Program<'a>,
        summaries: &'s Summaries<'a>,
        helpers: &'s Helpers,
        id: MethodId,
        notes: Notes,
        begin: RequestStates,
    ) -> Result<Generator<'s, 't, 'a>, Fault<'a>> {
        let alloc = program.alloc;
        let method = program.method(id)?;
        let kind = match method.class {
            Some(class) => program.class(class)?.kind,
            None => ClassKind::Plain,
        };
        let fill = match method.role {
            Role::Construct | Role::Main => Fill::Empty,
            _ => Fill::Perhaps,
        };
        Ok(Generator {
            alloc,
            source,
            program,
            summaries,
            helpers,
            id,
            role: method.role,
            class: method.class,
            kind,
            notes,
            code: Code::new(alloc),
            state: Some(State::new(alloc, fill, begin)),
            ways: Vec::new(alloc),
            scopes: Vec::new(alloc),
            bound: Vec::new(alloc),
            owners: Vec::new(alloc),
            top: 0,
            order: 0,
            item: 0,
            token: method.token,
            loops: Vec::new(alloc),
            regions: Vec::new(alloc),
            deferred: VecDeque::new(alloc),
            summary: Summary::new(alloc, begin),
            needs: Vec::new(alloc),
            lacking: None,
        })
    }

    /// One pass.
    fn translate(&mut self) -> Result<(), Fault<'a>> {
        let program = self.program;
        let method = program.method(self.id)?;
        self.begin_method(method.token)?;
        self.translate_body(method.body)?;
        self.token = method.end_token;
        self.end_method(method.gives, method.end_token)?;
        if let (Body::Block { .. }, Some(block)) = (method.body, self.scopes.last().copied()) {
            self.name_registers(block);
        }
        self.translate_deferred()?;
        if self.code.wants_end() {
            self.emit(Operation::Return, none(), method.end_token);
        }
        self.code.shorten_jumps();
        Ok(())
    }

    /// The method's block is open, with its parameters; the destructor of what is active cancels first.
    fn begin_method(&mut self, token: u32) -> Result<(), Fault<'a>> {
        self.open();
        self.bind_parameters()?;
        self.settle(token)?;
        if self.role == Role::Destruct && self.kind.is_active() {
            self.cancel(token, false)?;
        }
        Ok(())
    }

    fn translate_body(&mut self, body: Body) -> Result<(), Fault<'a>> {
        match body {
            Body::Block { begin, end } => {
                self.item = begin;
                self.push_region(Region {
                    at: begin.saturating_add(1),
                    end,
                    after: After::Body,
                });
                self.walk()
            }
            body => self.added_body(body),
        }
    }

    fn bind_parameters(&mut self) -> Result<(), Fault<'a>> {
        let program = self.program;
        for parameter in &program.method(self.id)?.parameters {
            let local = Local {
                name: parameter.name,
                id: OwnerId::local(parameter.item),
                kind: parameter.kind,
                register: self.reserve(1, parameter.token)?,
                token: parameter.token,
            };
            if let Some(thing) = parameter.kind.thing() {
                self.set_owner(local, Status::Owns, SiteKind::Parameter, parameter.item);
                if let Thing::Object(class) = thing {
                    self.mention(class);
                }
            }
            self.bind(local)?;
        }
        Ok(())
    }

    /// The body of a method that the source does not have.
    fn added_body(&mut self, body: Body) -> Result<(), Fault<'a>> {
        match body {
            Body::Accepts(class) | Body::Makes(class) => self.make_and_return(class),
            Body::Widens(_) => {
                let Some(Bound::Local(local, _)) = self.bound.first().copied() else {
                    return Err(Fault::internal());
                };
                self.return_owner(local, self.token)
            }
            Body::Block { .. } | Body::Empty | Body::Destroys => Ok(()),
        }
    }

    fn make_and_return(&mut self, class: ClassId) -> Result<(), Fault<'a>> {
        let token = self.token;
        let blank = self.temporary(b"", OwnerId::temporary(0), token)?;
        let local = self.make_added(class, blank)?;
        self.return_owner(local, token)
    }

    /// The way that comes to the method's end returns.
    fn end_method(&mut self, gives: ValueKind, token: u32) -> Result<(), Fault<'a>> {
        if !self.is_reached() {
            return Ok(());
        }
        if gives != ValueKind::Nothing {
            return Err(Fault::at(FaultKind::NoResult, token).about(self.method_name()));
        }
        if self.role == Role::Destruct {
            self.shut(token)?;
            self.come_to_rest(token)?;
            self.empty_fields()?;
        }
        self.leave_method(token, None, None)
    }

    /// A destructor ends with no request: what its body may have begun is cancelled too.
    fn come_to_rest(&mut self, token: u32) -> Result<(), Fault<'a>> {
        if self.request_states().meets(RequestStates::ACTIVE) {
            self.cancel(token, false)?;
        }
        Ok(())
    }

    /// A destructor ends by emptying the fields that its class adds.
    fn empty_fields(&mut self) -> Result<(), Fault<'a>> {
        let program = self.program;
        let class = program.class(self.class.ok_or(Fault::internal())?)?;
        for number in class.inherited..class.fields.len() {
            let Some(field) = class.fields.get(number) else {
                return Err(Fault::internal());
            };
            if self.fill(number) != Fill::Empty {
                self.empty_field(number, *field)?;
            }
        }
        Ok(())
    }

    fn empty_field(&mut self, number: usize, field: Field<'a>) -> Result<(), Fault<'a>> {
        let token = field.token;
        let note = Note::added(Reason::Empties, field.name);
        let mark = self.top;
        let taken = register(self.reserve(1, token)?);
        let operands = two(taken, Operand::Field(number));
        self.emit_added(Operation::Take, operands, token, note);
        if field.thing == Thing::Message {
            let behind = self.new_label();
            if self.fill(number) == Fill::Perhaps {
                let operands = two(taken, Operand::Label(behind));
                self.emit_added(Operation::JumpNull, operands, token, note);
            }
            let code = self.word(field.code.0, field.code.1, None)?;
            let operands = two(taken, register(code));
            self.emit_added(Operation::Reply, operands, token, note);
            self.code.place(behind);
        } else {
            self.emit_added(Operation::Delete, one(taken), token, note);
        }
        self.set_fill(number, Fill::Empty);
        self.top = mark;
        Ok(())
    }

    /// Returns, with the register of a result if there is one. What is kept is not deleted.
    pub fn leave_method(
        &mut self,
        token: u32,
        returned: Option<usize>,
        kept: Option<OwnerId>,
    ) -> Result<(), Fault<'a>> {
        self.drop_bound(0, token, kept)?;
        if self.role == Role::Cancel && self.request_states().meets(RequestStates::CANCELLING) {
            let note = Note::added(Reason::Completes, b"");
            self.emit_added(Operation::Abort, none(), token, note);
            self.set_request(RequestStates::CANCELLED);
        }
        if self.role == Role::Service && self.message_state() == MessageState::Here {
            return Err(Fault::at(FaultKind::MessageNotTaken, token));
        }
        if self.role == Role::Destruct {
            self.come_to_rest(token)?;
            self.want_empty_fields(token)?;
        }
        let request = self.request_states();
        self.summary.end = self.summary.end.or(request);
        let operands = match returned {
            Some(number) => one(register(number)),
            None => none(),
        };
        self.emit(Operation::Return, operands, token);
        self.state = None;
        Ok(())
    }

    fn want_empty_fields(&mut self, token: u32) -> Result<(), Fault<'a>> {
        let program = self.program;
        let class = program.class(self.class.ok_or(Fault::internal())?)?;
        for number in class.inherited..class.fields.len() {
            if self.fill(number) != Fill::Empty {
                return Err(Fault::at(FaultKind::ReturnInDestruct, token).about(self.field_name(
                    number,
                )));
            }
        }
        Ok(())
    }

    pub fn return_nothing(&mut self, at: usize) -> Result<(), Fault<'a>> {
        let gives = self.gives(self.id);
        if gives != ValueKind::Nothing {
            return Err(
                self.fault(FaultKind::NoResult, at)
                    .about(self.method_name()),
            );
        }
        self.leave_method(self.source.token(at), None, None)
    }

    pub fn return_value(&mut self, at: usize) -> Result<(), Fault<'a>> {
        let gives = self.gives(self.id);
        let (begin, end) = (at.saturating_add(1), self.source.partner(at));
        let token = self.source.token(at);
        if gives == ValueKind::Nothing {
            return Err(
                self.fault(FaultKind::WrongResult, at)
                    .about(self.method_name()),
            );
        }
        if gives == ValueKind::Word {
            let word = self.word(begin, end, None)?;
            self.top = self.top.max(word.saturating_add(1));
            return self.leave_method(token, Some(word), None);
        }
        if self.is_word(begin, end)? {
            return Err(self.fault(FaultKind::WordAsOwner, at));
        }
        let local = self.named_or_made((begin, end), b"the result", at)?;
        self.return_owner(local, token)
    }

    /// Returns what a local owns.
    fn return_owner(&mut self, local: Local<'a>, token: u32) -> Result<(), Fault<'a>> {
        let gives = self.gives(self.id);
        if let ValueKind::Owner {
            is_maybe: false,
            ..
        } = gives
        {
            self.owns_surely(local, token)?;
        }
        let found = local.kind.thing().ok_or(Fault::internal())?;
        self.fits(found, gives.thing().ok_or(Fault::internal())?, token)?;
        self.unguard_result(local, token)?;
        self.leave_method(token, Some(local.register), Some(local.id))
    }

    /// A result that is no local comes from the cleanup stack before what the blocks have brought forth goes.
    fn unguard_result(&mut self, local: Local<'a>, token: u32) -> Result<(), Fault<'a>> {
        if local.id.is_temporary {
            self.unguard(local.id, token)?;
        }
        Ok(())
    }

    /// The blocks that stand at the method's end.
    fn translate_deferred(&mut self) -> Result<(), Fault<'a>> {
        for _ in 0..=self.source.items.len() {
            let Some(next) = self.deferred.pop_front() else {
                return Ok(());
            };
            self.translate_late(next)?;
        }
        Err(Fault::internal())
    }

    fn translate_late(&mut self, late: Deferred<'a>) -> Result<(), Fault<'a>> {
        let Deferred {
            label,
            begin,
            end,
            bound,
            scopes,
            top,
            item,
            code,
        } = late;
        let token = self.source.token(end);
        if !self.is_led_to(label) {
            if self.code.is_used(label) {
                self.code.place(label);
                self.emit(Operation::Return, none(), token);
            }
            return Ok(());
        }
        self.scopes = scopes;
        self.bound = bound;
        self.top = top;
        self.item = item;
        self.state = None;
        let from = self.code.lines.len();
        self.place(label, None)?;
        self.settle(token)?;
        self.open();
        match code {
            Some(code) => {
                self.fail(code, self.source.token(begin))?;
                self.shut(token)?;
            }
            None => {
                let after = After::Deferred(token);
                self.push_region(Region {
                    at: begin,
                    end,
                    after,
                });
                self.walk()?;
            }
        }
        let begin = 0;
        self.name_registers(Scope { begin, top, from });
        Ok(())
    }
}

/// What a method may be called with: the states in which its request may be as it begins, where the source says nothing.
pub fn first_states<'a>(program: &Program<'a>, id: MethodId) -> Result<RequestStates, Fault<'a>> {
    let method = program.method(id)?;
    Ok(match method.class {
        Some(class) => RequestStates::at_begin(method.role, program.class(class)?.kind),
        None => RequestStates::NONE,
    })
}
