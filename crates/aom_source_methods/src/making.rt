//! New objects, with both phases at once, and the methods that are added for them.
use crate::arguments::Arguments;
use crate::calls::Callee;
use crate::expressions::{Frame, Machine, Want};
use crate::generator::{Bound, Generator, Local, register, two};
use aom_source_code::{LabelId, Note, Operand, Operation, Reason};
use aom_source_program::{
    Body, ClassId, Fault, FaultKind, MethodId, Parameter, Program, Role, Thing, ValueKind,
};
use aom_source_states::{Owner, Site, SiteKind, State, Status};
use aom_source_syntax::Action;

/// An object that is made, whose arguments are being computed.
#[derive(Drop)]
pub struct NewFrame<'a> {
    pub at: usize,
    pub class: ClassId,
    pub construct: Option<MethodId>,
    pub local: Local<'a>,
    pub is_maybe: bool,
    /// Whether an argument owns: then the object is made before the arguments.
    pub takes_owners: bool,
    pub arguments: Option<Arguments<'a>>,
}

impl<'s, 't, 'a> Generator<'s, 't, 'a> {
    /// A new object: its arguments come next.
    pub fn begin_new(&mut self, machine: &mut Machine<'a>, at: usize) -> Result<(), Fault<'a>> {
        let class = self.program.class_at(self.source, at.saturating_add(1))?;
        let is_maybe = self.source.action(at) == Action::MaybeNew;
        if matches!(machine.want(), Want::Trap(_)) && !is_maybe {
            // a trap calls a method, so one is added that makes the object
            let maker = self.helpers.maker(class)?;
            return self.enter_call(machine, at, Callee::Static, maker);
        }
        let local = self.want_owner(machine, at)?;
        self.enter_new(machine, at, class, local, is_maybe)
    }

    fn enter_new(
        &mut self,
        machine: &mut Machine<'a>,
        at: usize,
        class: ClassId,
        local: Local<'a>,
        is_maybe: bool,
    ) -> Result<(), Fault<'a>> {
        let token = self.source.token(at);
        let construct = self.program.role(class, Role::Construct);
        let takes_owners = match construct {
            Some(method) => {
                let _ = self.summary_of(method);
                let parameters = &self.program.method(method)?.parameters;
                parameters
                    .iter()
                    .any(|parameter| parameter.kind != ValueKind::Word)
            }
            None => false,
        };
        self.make_noise(token, self.class_name(class))?;
        self.mention(class);
        if takes_owners && is_maybe {
            return Err(
                self.fault(FaultKind::OwnerIntoMaybe, at)
                    .about(self.class_name(class)),
            );
        }
        let local = Local {
            kind: ValueKind::Owner {
                thing: Thing::Object(class),
                is_maybe: false,
            },
            ..local
        };
        let mut frame = NewFrame {
            at,
            class,
            construct,
            local,
            is_maybe,
            takes_owners,
            arguments: None,
        };
        if takes_owners {
            self.make_object(&frame, token)?;
            self.guard_new(&frame, token)?;
        }
        let name = self.class_name(class);
        frame.arguments = Some(self.begin_arguments(at, construct, name)?);
        self.wait(machine, Frame::New(frame));
        Ok(())
    }

    /// The arguments are there: the object is made, unless it is there, and constructed.
    pub fn end_new(&mut self, machine: &mut Machine<'a>, at: usize) -> Result<(), Fault<'a>> {
        if matches!(machine.frames.last(), Some(Frame::Call(_))) {
            return self.end_call(machine, at);
        }
        let Some(Frame::New(frame)) = machine.frames.pop() else {
            return Err(Fault::internal());
        };
        self.finish_new(machine, &frame)
    }

    fn finish_new(
        &mut self,
        machine: &mut Machine<'a>,
        frame: &NewFrame<'a>,
    ) -> Result<(), Fault<'a>> {
        let token = self.source.token(frame.at);
        let Some(arguments) = &frame.arguments else {
            return Err(Fault::internal());
        };
        self.end_arguments(arguments, token)?;
        let null = self.make_behind(frame, token)?;
        if let Some(construct) = frame.construct {
            self.construct(frame, construct, arguments.base, token)?;
        }
        let mut local = frame.local;
        if frame.is_maybe {
            local.kind = ValueKind::Owner {
                thing: Thing::Object(frame.class),
                is_maybe: true,
            };
        }
        if let Some(label) = null {
            self.place(label, None)?;
        }
        machine.refine(local);
        self.settle(token)
    }

    /// Makes the object behind its arguments, unless it was made before them.
    fn make_behind(
        &mut self,
        frame: &NewFrame<'a>,
        token: u32,
    ) -> Result<Option<LabelId>, Fault<'a>> {
        if frame.takes_owners {
            return Ok(None);
        }
        let null = self.make_object(frame, token)?;
        if frame.construct.is_some() {
            self.guard_new(frame, token)?;
        }
        Ok(null)
    }

    fn site(&self, frame: &NewFrame<'a>) -> Site {
        Site {
            kind: SiteKind::New,
            item: frame.at,
        }
    }

    /// Asks for memory. Where there may be none the object is null behind a label.
    fn make_object(
        &mut self,
        frame: &NewFrame<'a>,
        token: u32,
    ) -> Result<Option<LabelId>, Fault<'a>> {
        let operands = two(register(frame.local.register), Operand::Class(frame.class));
        if !frame.is_maybe {
            self.leave_point(token, self.class_name(frame.class), None)?;
            self.emit(Operation::NewOrLeave, operands, token);
            self.set_owner(frame.local, Status::Owns, SiteKind::New, frame.at);
            return Ok(None);
        }
        self.emit(Operation::New, operands, token);
        if frame.construct.is_none() {
            self.set_owner(frame.local, Status::Maybe, SiteKind::New, frame.at);
            return Ok(None);
        }
        self.set_owner(frame.local, Status::Owns, SiteKind::New, frame.at);
        let label = self.new_label();
        let operands = two(register(frame.local.register), Operand::Label(label));
        self.emit(Operation::JumpNull, operands, token);
        let state = self.with_status(frame.local, Status::Null);
        self.lead(label, state, None);
        Ok(Some(label))
    }

    /// What is known here, with an owner of which more is known.
    pub fn with_status(&mut self, local: Local<'a>, status: Status) -> State {
        let mut owner = self.owner(local.id);
        owner.status = status;
        owner.is_guarded = false;
        let mut state = self.state_copy();
        let is_done = state.set(owner).is_ok();
        self.want_memory(is_done);
        state
    }

    /// Guards an object that is made, where its construct may leave or where that is noted.
    fn guard_new(&mut self, frame: &NewFrame<'a>, token: u32) -> Result<(), Fault<'a>> {
        let leaves = self.construct_leaves(frame);
        let is_noted = self.notes.is_guarded(frame.local.id, self.site(frame));
        if leaves || frame.takes_owners && is_noted {
            self.guard(frame.local.id, token)?;
        }
        Ok(())
    }

    fn construct_leaves(&mut self, frame: &NewFrame<'a>) -> bool {
        let Some(construct) = frame.construct else {
            return false;
        };
        match self.summary_of(construct) {
            Some(summary) => summary.leaves,
            None => false,
        }
    }

    fn construct(
        &mut self,
        frame: &NewFrame<'a>,
        construct: MethodId,
        base: usize,
        token: u32,
    ) -> Result<(), Fault<'a>> {
        self.note_call(construct);
        if self.construct_leaves(frame) {
            self.leave_point(token, self.class_name(frame.class), None)?;
        }
        let on = self.object_operand(frame.local)?;
        let operands = [on, Operand::Method(construct), register(base), register(0)];
        self.emit(Operation::Call, operands, token);
        let site = self.site(frame);
        let is_noted = self.notes.is_guarded(frame.local.id, site);
        if self.owner(frame.local.id).is_guarded && (!is_noted || frame.is_maybe) {
            self.bring_one(frame.local, frame.local.register, token)?;
            self.set_owner(frame.local, Status::Owns, SiteKind::New, frame.at);
        }
        Ok(())
    }

    /// Gives what a local owns as one of a parent class, since owners of two classes cannot come together.
    pub fn widen(
        &mut self,
        local: Local<'a>,
        wanted: Thing,
        token: u32,
    ) -> Result<Local<'a>, Fault<'a>> {
        let found = local.kind.thing().ok_or(Fault::internal())?;
        if found == wanted {
            return Ok(local);
        }
        self.fits(found, wanted, token)?;
        let (Thing::Object(class), ValueKind::Owner { is_maybe, .. }) = (wanted, local.kind) else {
            return Err(Fault::internal());
        };
        let owner = self.owner(local.id);
        let wide = Local {
            kind: ValueKind::Owner {
                thing: wanted,
                is_maybe: is_maybe || owner.status != Status::Owns,
            },
            ..local
        };
        if owner.status == Status::Null {
            return Ok(wide);
        }
        self.widen_owner(local, wide, class, owner, token)?;
        Ok(wide)
    }

    fn widen_owner(
        &mut self,
        local: Local<'a>,
        wide: Local<'a>,
        class: ClassId,
        owner: Owner,
        token: u32,
    ) -> Result<(), Fault<'a>> {
        let method = self.helpers.widener(class)?;
        let _ = self.summary_of(method);
        let mut null = None;
        if owner.status == Status::Maybe {
            let label = self.new_label();
            let operands = two(register(local.register), Operand::Label(label));
            self.emit(Operation::JumpNull, operands, token);
            let state = self.with_status(local, Status::Null);
            self.lead(label, state, None);
            null = Some(label);
        }
        self.bring_one(local, local.register, token)?;
        let own = register(local.register);
        let operands = [Operand::Own, Operand::Method(method), own, own];
        let note = Note::added(Reason::Widens, self.class_name(class));
        self.emit_added(Operation::Call, operands, token, note);
        self.note_call(method);
        self.mention(class);
        self.set_owner(wide, Status::Owns, SiteKind::Widened, self.item);
        if let Some(label) = null {
            self.place(label, None)?;
        }
        self.settle(token)
    }

    /// A new object of a class by arguments that are the method's parameters: what a method that is added does.
    pub fn make_added(&mut self, class: ClassId, local: Local<'a>) -> Result<Local<'a>, Fault<'a>> {
        let token = local.token;
        let owners = self.parameter_owners()?;
        let frame = NewFrame {
            at: 0,
            class,
            construct: self.program.role(class, Role::Construct),
            local: Local {
                kind: owner_of(class),
                ..local
            },
            is_maybe: false,
            takes_owners: !owners.is_empty(),
            arguments: None,
        };
        self.make_noise(token, self.class_name(class))?;
        self.mention(class);
        let _ = self.make_object(&frame, token)?;
        self.construct_added(&frame, &owners, token)?;
        self.settle(token)?;
        Ok(frame.local)
    }

    fn construct_added(
        &mut self,
        frame: &NewFrame<'a>,
        owners: &Vec<(Local<'a>, usize)>,
        token: u32,
    ) -> Result<(), Fault<'a>> {
        if let Some(construct) = frame.construct {
            let _ = self.summary_of(construct);
            self.guard_new(frame, token)?;
            self.bring(owners, token)?;
            self.construct(frame, construct, 0, token)?;
        }
        Ok(())
    }

    /// The parameters that own, each with its register.
    fn parameter_owners(&self) -> Result<Vec<(Local<'a>, usize)>, Fault<'a>> {
        let mut owners: Vec<(Local<'a>, usize)> = Vec::new(self.alloc);
        for bound in &self.bound {
            if let Bound::Local(local, _) = bound {
                if local.kind.thing().is_some() {
                    owners.push((*local, local.register))?;
                }
            }
        }
        Ok(owners)
    }
}

fn owner_of(class: ClassId) -> ValueKind {
    ValueKind::Owner {
        thing: Thing::Object(class),
        is_maybe: false,
    }
}

/// Adds the method that gives an object as one of a class.
pub fn add_widener<'a>(program: &mut Program<'a>, class: ClassId) -> Result<MethodId, Fault<'a>> {
    let (name, token) = (program.class(class)?.name, program.class(class)?.token);
    let gives = owner_of(class);
    let id = program.add(
        name,
        token,
        Role::Function,
        None,
        gives,
        Body::Widens(class),
    )?;
    let parameter = Parameter {
        name: b"x",
        kind: gives,
        item: 0,
        token,
    };
    program.method_mut(id)?.parameters.push(parameter)?;
    Ok(id)
}

/// Adds the method that makes an object of a class, by the arguments of its construct.
pub fn add_maker<'a>(program: &mut Program<'a>, class: ClassId) -> Result<MethodId, Fault<'a>> {
    let (name, token) = (program.class(class)?.name, program.class(class)?.token);
    let gives = owner_of(class);
    let id = program.add(name, token, Role::Function, None, gives, Body::Makes(class))?;
    let mut parameters: Vec<Parameter<'a>> = Vec::new(program.alloc);
    if let Some(construct) = program.role(class, Role::Construct) {
        for parameter in &program.method(construct)?.parameters {
            parameters.push(*parameter)?;
        }
    }
    program.method_mut(id)?.parameters = parameters;
    Ok(id)
}
