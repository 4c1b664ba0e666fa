//! Calls of methods.
use crate::arguments::Arguments;
use crate::expressions::{Frame, Machine, Value, Want};
use crate::generator::{Generator, Local, register};
use crate::summary::Summary;
use aom_source_code::{Operand, Operation};
use aom_source_program::{ClassId, Fault, FaultKind, MethodId, Role, Thing, ValueKind};
use aom_source_states::{Fill, RequestStates, SiteKind, Status};
use aom_source_syntax::Action;

/// What a method is called on.
#[derive(Clone, Copy)]
pub enum Callee<'a> {
    /// The object itself.
    Own,
    /// Nothing: a method of no class.
    Static,
    Local(Local<'a>),
    Field(usize),
}

/// A call whose arguments are being computed.
#[derive(Drop)]
pub struct CallFrame<'a> {
    pub at: usize,
    pub callee: Callee<'a>,
    pub method: MethodId,
    /// The first register that was free before it, and once its result is there.
    pub mark: usize,
    pub kept: usize,
    pub destination: Option<usize>,
    pub is_trapped: bool,
    pub arguments: Option<Arguments<'a>>,
}

impl<'s, 't, 'a> Generator<'s, 't, 'a> {
    /// What is known of a method. One that has not been translated yet is noted, and taken for one that does nothing.
    pub fn summary_of(&mut self, method: MethodId) -> Option<&'s Summary<'a>> {
        let found = match self.summaries.get(method.0) {
            Some(Some(summary)) => Some(summary),
            _ => None,
        };
        if found.is_none() && !self.needs.contains(&method) {
            let is_done = self.needs.push(method).is_ok();
            self.want_memory(is_done);
        }
        found
    }

    /// What the call at an item calls, and on what.
    pub fn callee(&self, at: usize) -> Result<(Callee<'a>, MethodId), Fault<'a>> {
        let next = at.saturating_add(1);
        match self.source.action(at) {
            Action::SuperConstruct => self.super_construct(at),
            // a call of a method runs its nearest overrider, so the overridden one cannot be had
            Action::SuperCall => Err(self.fault(FaultKind::WrongSuper, at)),
            Action::SelfCall => self.own_method(self.text(next), at, false),
            Action::PlainCall => self.own_method(self.text(next), at, true),
            _ => {
                let name = self.text(at.saturating_add(2));
                self.object_method(self.text(next), name, at)
            }
        }
    }

    fn super_construct(&self, at: usize) -> Result<(Callee<'a>, MethodId), Fault<'a>> {
        if self.role == Role::Construct {
            if let Some(class) = self.class {
                if let Some(parent) = self.program.parent(class) {
                    if let Some(method) = self.program.role(parent, Role::Construct) {
                        return Ok((Callee::Own, method));
                    }
                }
            }
        }
        Err(self.fault(FaultKind::WrongSuper, at))
    }

    fn own_method(
        &self,
        name: &'a [u8],
        at: usize,
        may_be_static: bool,
    ) -> Result<(Callee<'a>, MethodId), Fault<'a>> {
        if let Some(class) = self.class {
            if let Some(method) = self.program.find(class, name) {
                return Ok((Callee::Own, method));
            }
        }
        if may_be_static {
            if let Some(method) = self.program.function_named(name) {
                if self.program.method(method)?.role != Role::Function {
                    return Err(self.fault(FaultKind::WrongCall, at).about(name));
                }
                return Ok((Callee::Static, method));
            }
        }
        Err(self.fault(FaultKind::UnknownName, at).about(name))
    }

    fn object_method(
        &self,
        object: &'a [u8],
        name: &'a [u8],
        at: usize,
    ) -> Result<(Callee<'a>, MethodId), Fault<'a>> {
        let (callee, thing) = if let Some(local) = self.local(object) {
            (Callee::Local(local), local.kind.thing())
        } else if let Some(number) = self.field(object) {
            (Callee::Field(number), Some(self.field_thing(number)?))
        } else {
            return Err(self.fault(FaultKind::UnknownName, at).about(object));
        };
        let Some(Thing::Object(class)) = thing else {
            return Err(self.fault(FaultKind::WrongKind, at).about(object));
        };
        match self.program.find(class, name) {
            Some(method) => Ok((callee, method)),
            None => Err(
                self.fault(FaultKind::UnknownName, at)
                    .about(name)
                    .beside(self.class_name(class)),
            ),
        }
    }

    /// A call begins: its result has a register, and its arguments come next.
    pub fn begin_call(&mut self, machine: &mut Machine<'a>, at: usize) -> Result<(), Fault<'a>> {
        let (callee, method) = self.callee(at)?;
        self.enter_call(machine, at, callee, method)
    }

    /// A call of a method on an object.
    pub fn enter_call(
        &mut self,
        machine: &mut Machine<'a>,
        at: usize,
        callee: Callee<'a>,
        method: MethodId,
    ) -> Result<(), Fault<'a>> {
        let token = self.source.token(at);
        let _ = self.summary_of(method);
        let gives = self.gives(method);
        let mark = self.top;
        let end = self.source.partner(at).saturating_add(1);
        let is_trapped = matches!(machine.want(), Want::Trap(_));
        let destination = match machine.want() {
            Want::Trap(register) => Some(register),
            Want::Owner(local) => {
                if gives.thing().is_none() {
                    return Err(
                        self.fault(FaultKind::WordAsOwner, at)
                            .about(self.name_of(method)),
                    );
                }
                Some(local.register)
            }
            Want::Word(_) if gives != ValueKind::Word => {
                return Err(
                    self.fault(FaultKind::WrongKind, at)
                        .about(self.name_of(method)),
                );
            }
            Want::Word(_) => match machine.destination(end) {
                Some(register) => Some(register),
                None => Some(self.reserve(1, token)?),
            },
            Want::Nothing if gives == ValueKind::Nothing => None,
            Want::Nothing => Some(self.reserve(1, token)?),
        };
        let kept = self.top;
        self.check_callee(callee, method, token)?;
        let arguments = self.begin_arguments(at, Some(method), self.name_of(method))?;
        self.wait(
            machine,
            Frame::Call(CallFrame {
                at,
                callee,
                method,
                mark,
                kept,
                destination,
                is_trapped,
                arguments: Some(arguments),
            }),
        );
        Ok(())
    }

    /// Asks that there is an object to be called on.
    fn check_callee(
        &mut self,
        callee: Callee<'a>,
        method: MethodId,
        token: u32,
    ) -> Result<(), Fault<'a>> {
        match callee {
            Callee::Own | Callee::Static => Ok(()),
            Callee::Local(local) => self.owns_surely(local, token),
            Callee::Field(number) => {
                if self.fill(number) == Fill::Full {
                    return Ok(());
                }
                Err(
                    Fault::at(FaultKind::MayBeNull, token)
                        .about(self.field_name(number))
                        .beside(self.name_of(method)),
                )
            }
        }
    }

    /// The name of a field that owns.
    pub fn field_name(&self, number: usize) -> &'a [u8] {
        if self.role == Role::Main {
            return b"root";
        }
        match self.class {
            Some(class) => match self.program.field(class, number) {
                Ok(field) => field.name,
                Err(_) => b"",
            },
            None => b"",
        }
    }

    /// A call ends: its arguments are there, and it is made.
    pub fn end_call(&mut self, machine: &mut Machine<'a>, _at: usize) -> Result<(), Fault<'a>> {
        let Some(Frame::Call(frame)) = machine.frames.pop() else {
            return Err(Fault::internal());
        };
        self.finish_call(machine, &frame)
    }

    fn finish_call(
        &mut self,
        machine: &mut Machine<'a>,
        frame: &CallFrame<'a>,
    ) -> Result<(), Fault<'a>> {
        let token = self.source.token(frame.at);
        let Some(arguments) = &frame.arguments else {
            return Err(Fault::internal());
        };
        self.end_arguments(arguments, token)?;
        self.check_callee(frame.callee, frame.method, token)?;
        self.check_states(frame, token)?;
        self.check_effects(frame, token)?;
        self.make_call(frame, arguments.base, token)?;
        self.top = if frame.is_trapped {
            frame.mark
        } else {
            frame.kept
        };
        self.end_result(machine, frame)
    }

    fn end_result(
        &mut self,
        machine: &mut Machine<'a>,
        frame: &CallFrame<'a>,
    ) -> Result<(), Fault<'a>> {
        let gives = self.gives(frame.method);
        match machine.want() {
            Want::Word(_) => self.give(
                machine,
                Value {
                    register: frame.destination.ok_or(Fault::internal())?,
                    mark: frame.mark,
                },
            ),
            Want::Owner(local) => {
                let status = match gives {
                    ValueKind::Owner { is_maybe: true, .. } => Status::Maybe,
                    _ => Status::Owns,
                };
                let local = Local {
                    kind: gives,
                    ..local
                };
                machine.refine(local);
                self.set_owner(local, status, SiteKind::Call, frame.at);
                self.settle(self.source.token(frame.at))?;
            }
            Want::Nothing | Want::Trap(_) => {}
        }
        Ok(())
    }

    /// Asks that the method may begin while the request is as far as it may be.
    fn check_states(&mut self, frame: &CallFrame<'a>, token: u32) -> Result<(), Fault<'a>> {
        let method = self.program.method(frame.method)?;
        let Some(class) = method.class else {
            return Ok(());
        };
        let kind = self.program.class(class)?.kind;
        let Some(summary) = self.summary_of(frame.method) else {
            return Ok(());
        };
        if !kind.is_enlisted() {
            return Ok(());
        }
        let fits = match frame.callee {
            Callee::Own if method.role == Role::Construct => true,
            Callee::Own => self.request_states().is_within(summary.begin),
            _ => summary.begin == RequestStates::of_class(kind),
        };
        if fits {
            return Ok(());
        }
        Err(Fault::at(FaultKind::WrongState, token).about(method.name))
    }

    /// What the call may do: leave, make noise.
    fn check_effects(&mut self, frame: &CallFrame<'a>, token: u32) -> Result<(), Fault<'a>> {
        if self.source.action(frame.at) == Action::SuperConstruct {
            self.check_parent_fields(token)?;
        }
        if frame.is_trapped {
            self.make_noise(token, b"a trap")?;
        }
        let name = self.name_of(frame.method);
        let mut leaves = false;
        for method in &self.program.family(frame.method)? {
            let Some(summary) = self.summary_of(*method) else {
                continue;
            };
            leaves = leaves || summary.leaves;
            if summary.noise.is_some() {
                self.make_noise(token, name)?;
            }
        }
        if leaves && !frame.is_trapped {
            self.leave_point(token, name, None)?;
        }
        self.note_call(frame.method);
        if let Some(class) = self.gives(frame.method).class() {
            self.mention(class);
        }
        Ok(())
    }

    /// The parent is constructed before its fields are filled.
    fn check_parent_fields(&mut self, token: u32) -> Result<(), Fault<'a>> {
        let class = self.class.ok_or(Fault::internal())?;
        for number in 0..self.program.class(class)?.inherited {
            if self.fill(number) != Fill::Empty {
                return Err(Fault::at(FaultKind::FieldFull, token).about(self.field_name(number)));
            }
        }
        Ok(())
    }

    fn make_call(
        &mut self,
        frame: &CallFrame<'a>,
        base: usize,
        token: u32,
    ) -> Result<(), Fault<'a>> {
        let on = match frame.callee {
            Callee::Own | Callee::Static => Operand::Own,
            Callee::Field(number) => Operand::Field(number),
            Callee::Local(local) => self.object_operand(local)?,
        };
        let operation = if frame.is_trapped {
            Operation::Trap
        } else {
            Operation::Call
        };
        let result = match frame.destination {
            Some(number) => number,
            None => 0,
        };
        let operands = [
            on,
            Operand::Method(frame.method),
            register(base),
            register(result),
        ];
        self.emit(operation, operands, token);
        if let Callee::Own = frame.callee {
            self.forget_own(frame.method, frame.is_trapped);
        }
        Ok(())
    }

    /// Where an object is: in its register, or on the cleanup stack.
    pub fn object_operand(&mut self, local: Local<'a>) -> Result<Operand, Fault<'a>> {
        if !self.owner(local.id).is_guarded {
            return Ok(register(local.register));
        }
        match self.depth(local.id) {
            Some(depth) => Ok(Operand::Entry(depth)),
            None => Err(Fault::internal()),
        }
    }

    /// A method of the object itself may have changed its fields and its request.
    fn forget_own(&mut self, method: MethodId, is_trapped: bool) {
        let all = RequestStates::of_class(self.kind);
        let end = match self.summary_of(method) {
            Some(summary) if !is_trapped && !summary.end.is_none() => summary.end,
            _ => all,
        };
        self.forget_fields();
        if self.kind.is_enlisted() {
            self.set_request(end);
        }
    }

    /// The class of an object that a name owns.
    pub fn class_of_kind(&self, kind: ValueKind) -> Option<ClassId> {
        kind.class()
    }
}
