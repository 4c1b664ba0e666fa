//! Arguments: they come to consecutive registers, and none is moved where they stand so.
use crate::expressions::{Frame, Machine, Target, Want};
use crate::generator::{Generator, Local};
use aom_source_program::{Fault, FaultKind, MethodId, Parameter, Thing, ValueKind};
use aom_source_states::OwnerId;
use aom_source_syntax::Action;

/// How arguments come to their registers.
#[derive(Clone, Copy, PartialEq, Eq, Debug)]
pub enum Passing {
    /// They stand there.
    InPlace,
    /// The one word may be anywhere.
    Single,
    /// Each is computed to its register.
    Spread,
}

/// The arguments of a call, on the way.
#[derive(Drop)]
pub struct Arguments<'a> {
    pub method: Option<MethodId>,
    pub passing: Passing,
    /// The register of the first.
    pub base: usize,
    /// How many have been computed.
    pub done: usize,
    /// Owners that come to their registers once all are computed.
    pub owners: Vec<(Local<'a>, usize)>,
}

impl<'s, 't, 'a> Generator<'s, 't, 'a> {
    /// The items of the arguments of a call: where each begins and ends.
    pub fn arguments_of(&self, at: usize) -> Result<Vec<(usize, usize)>, Fault<'a>> {
        let mut found: Vec<(usize, usize)> = Vec::new(self.alloc);
        let end = self.source.partner(at);
        let mut next = at.saturating_add(1);
        for _ in at..end {
            if end <= next {
                break;
            }
            if self.source.action(next) == Action::Argument {
                let last = self.source.partner(next);
                found.push((next.saturating_add(1), last))?;
                next = last.saturating_add(1);
            } else {
                next = next.saturating_add(1);
            }
        }
        Ok(found)
    }

    /// Begins the arguments of the call at an item.
    pub fn begin_arguments(
        &mut self,
        at: usize,
        method: Option<MethodId>,
        name: &'a [u8],
    ) -> Result<Arguments<'a>, Fault<'a>> {
        let ranges = self.arguments_of(at)?;
        let wanted = match method {
            Some(method) => self.program.method(method)?.parameters.len(),
            None => 0,
        };
        if ranges.len() != wanted {
            return Err(self.fault(FaultKind::WrongArguments, at).about(name));
        }
        let mut arguments = Arguments {
            method,
            passing: Passing::Spread,
            base: 0,
            done: 0,
            owners: Vec::new(self.alloc),
        };
        if wanted == 0 {
            return Ok(arguments);
        }
        if let Some(base) = self.stand_in_place(&ranges) {
            arguments.passing = Passing::InPlace;
            arguments.base = base;
            self.take_in_place(&mut arguments, &ranges)?;
        } else if wanted == 1 && self.parameter(&arguments, 0) == ValueKind::Word {
            arguments.passing = Passing::Single;
        } else {
            arguments.base = self.reserve(wanted, self.source.token(at))?;
        }
        Ok(arguments)
    }

    /// The kind of a parameter.
    pub fn parameter(&self, arguments: &Arguments<'a>, at: usize) -> ValueKind {
        match self.parameter_of(arguments, at) {
            Some(parameter) => parameter.kind,
            None => ValueKind::Nothing,
        }
    }

    fn parameter_name(&self, arguments: &Arguments<'a>, at: usize) -> &'a [u8] {
        match self.parameter_of(arguments, at) {
            Some(parameter) => parameter.name,
            None => b"",
        }
    }

    fn parameter_of(&self, arguments: &Arguments<'a>, at: usize) -> Option<Parameter<'a>> {
        match arguments.method {
            Some(method) => match self.program.methods.get(method.0) {
                Some(method) => method.parameters.get(at).copied(),
                None => None,
            },
            None => None,
        }
    }

    /// The local that an argument names, if it is a name alone.
    pub fn named_local(&self, begin: usize, end: usize) -> Option<Local<'a>> {
        if end != begin.saturating_add(1) || self.source.action(begin) != Action::Name {
            return None;
        }
        self.local(self.text(begin))
    }

    /// The first register of arguments that are locals and stand one after another.
    fn stand_in_place(&self, ranges: &Vec<(usize, usize)>) -> Option<usize> {
        let mut first: Option<usize> = None;
        for at in 0..ranges.len() {
            let (begin, end) = ranges[at];
            let Some(local) = self.named_local(begin, end) else {
                return None;
            };
            match first {
                None => first = Some(local.register),
                Some(base) => {
                    if local.register != base.saturating_add(at) {
                        return None;
                    }
                }
            }
        }
        first
    }

    fn take_in_place(
        &mut self,
        arguments: &mut Arguments<'a>,
        ranges: &Vec<(usize, usize)>,
    ) -> Result<(), Fault<'a>> {
        for at in 0..ranges.len() {
            let (begin, end) = ranges[at];
            let local = self.named_local(begin, end).ok_or(Fault::internal())?;
            let kind = self.parameter(arguments, at);
            self.check_argument(local, kind, self.source.token(begin))?;
            if kind != ValueKind::Word {
                arguments.owners.push((local, local.register))?;
            }
        }
        Ok(())
    }

    /// Asks that a local is what a parameter wants.
    fn check_argument(
        &self,
        local: Local<'a>,
        kind: ValueKind,
        token: u32,
    ) -> Result<(), Fault<'a>> {
        let Some(thing) = kind.thing() else {
            if local.kind != ValueKind::Word {
                return Err(Fault::at(FaultKind::OwnerAsWord, token).about(local.name));
            }
            return Ok(());
        };
        let Some(found) = local.kind.thing() else {
            return Err(Fault::at(FaultKind::WordAsOwner, token).about(local.name));
        };
        self.owns_surely(local, token)?;
        self.fits(found, thing, token)
    }

    /// Asks that what is owned is what is wanted.
    pub fn fits(&self, found: Thing, wanted: Thing, token: u32) -> Result<(), Fault<'a>> {
        let fits = match (found, wanted) {
            (Thing::Message, Thing::Message) => true,
            (Thing::Object(class), Thing::Object(other)) => self.program.descends(class, other),
            _ => false,
        };
        if fits {
            return Ok(());
        }
        Err(
            Fault::at(FaultKind::WrongClass, token)
                .about(self.thing_name(found))
                .beside(self.thing_name(wanted)),
        )
    }

    pub fn thing_name(&self, thing: Thing) -> &'a [u8] {
        match thing {
            Thing::Message => b"msg",
            Thing::Object(class) => self.class_name(class),
        }
    }

    /// An argument begins: the item at which it goes on.
    pub fn begin_argument(
        &mut self,
        machine: &mut Machine<'a>,
        at: usize,
    ) -> Result<usize, Fault<'a>> {
        let (begin, end) = (at.saturating_add(1), self.source.partner(at));
        let is_asked = matches!(machine.frames.last(), Some(Frame::Ask(_)));
        if is_asked {
            self.expect(
                machine,
                Target {
                    end: end.saturating_add(1),
                    want: Want::Word(None),
                },
            );
            return Ok(begin);
        }
        let mut arguments = take_arguments(machine)?;
        let next = self.enter_argument(machine, &mut arguments, at, begin, end);
        give_arguments(machine, arguments)?;
        next
    }

    fn enter_argument(
        &mut self,
        machine: &mut Machine<'a>,
        arguments: &mut Arguments<'a>,
        at: usize,
        begin: usize,
        end: usize,
    ) -> Result<usize, Fault<'a>> {
        if arguments.passing == Passing::InPlace {
            return Ok(end.saturating_add(1));
        }
        let number = arguments.done;
        let to = arguments.base.saturating_add(number);
        let kind = self.parameter(arguments, number);
        if kind == ValueKind::Word {
            let register = match arguments.passing {
                Passing::Single => None,
                _ => Some(to),
            };
            self.expect(
                machine,
                Target {
                    end,
                    want: Want::Word(register),
                },
            );
            return Ok(begin);
        }
        if let Some(local) = self.named_local(begin, end) {
            self.check_argument(local, kind, self.source.token(begin))?;
            if arguments.owners.iter().any(|owner| owner.0.id == local.id) {
                return Err(self.fault(FaultKind::Moved, begin).about(local.name));
            }
            arguments.owners.push((local, to))?;
            arguments.done = number.saturating_add(1);
            return Ok(end.saturating_add(1));
        }
        let local = Local {
            name: self.parameter_name(arguments, number),
            id: OwnerId::temporary(at),
            kind,
            register: to,
            token: self.source.token(begin),
        };
        self.expect(
            machine,
            Target {
                end,
                want: Want::Owner(local),
            },
        );
        Ok(begin)
    }

    /// An argument ends.
    pub fn end_argument(&mut self, machine: &mut Machine<'a>, at: usize) -> Result<(), Fault<'a>> {
        let target = machine.targets.pop().ok_or(Fault::internal())?;
        if matches!(machine.frames.last(), Some(Frame::Ask(_))) {
            return Ok(());
        }
        let mut arguments = take_arguments(machine)?;
        let ended = self.leave_argument(machine, &mut arguments, target.want, at);
        give_arguments(machine, arguments)?;
        ended
    }

    fn leave_argument(
        &mut self,
        machine: &mut Machine<'a>,
        arguments: &mut Arguments<'a>,
        want: Want<'a>,
        at: usize,
    ) -> Result<(), Fault<'a>> {
        let number = arguments.done;
        arguments.done = number.saturating_add(1);
        let Want::Owner(local) = want else {
            let value = self.take_value(machine);
            if arguments.passing == Passing::Single {
                arguments.base = value.register;
            }
            return Ok(());
        };
        let token = self.source.token(at);
        self.owns_surely(local, token)?;
        let found = local.kind.thing().ok_or(Fault::internal())?;
        let wanted = self
            .parameter(arguments, number)
            .thing()
            .ok_or(Fault::internal())?;
        self.fits(found, wanted, token)?;
        arguments
            .owners
            .push((local, local_register(arguments.base, number)))?;
        Ok(())
    }

    /// All arguments are computed: owners come to their registers.
    pub fn end_arguments(
        &mut self,
        arguments: &Arguments<'a>,
        token: u32,
    ) -> Result<(), Fault<'a>> {
        for (local, _) in &arguments.owners {
            self.owns_surely(*local, token)?;
        }
        self.bring(&arguments.owners, token)
    }
}

fn local_register(base: usize, number: usize) -> usize {
    base.saturating_add(number)
}

/// The arguments of the part at hand, out of its frame.
fn take_arguments<'a>(machine: &mut Machine<'a>) -> Result<Arguments<'a>, Fault<'a>> {
    match machine.frames.last_mut() {
        Some(Frame::Call(frame)) => frame.arguments.take().ok_or(Fault::internal()),
        Some(Frame::New(frame)) => frame.arguments.take().ok_or(Fault::internal()),
        _ => Err(Fault::internal()),
    }
}

/// The arguments of the part at hand, back into its frame.
fn give_arguments<'a>(
    machine: &mut Machine<'a>,
    arguments: Arguments<'a>,
) -> Result<(), Fault<'a>> {
    match machine.frames.last_mut() {
        Some(Frame::Call(frame)) => frame.arguments = Some(arguments),
        Some(Frame::New(frame)) => frame.arguments = Some(arguments),
        _ => return Err(Fault::internal()),
    }
    Ok(())
}
