//! Words: numbers, names, operators, questions.
use crate::expressions::{Frame, Machine, Value, Want};
use crate::generator::{Generator, one, register, three, two};
use aom_source_code::{Operand, Operation};
use aom_source_program::{ClassKind, Fault, FaultKind, ValueKind};
use aom_source_syntax::Action;

impl<'s, 't, 'a> Generator<'s, 't, 'a> {
    /// Asks that a word is wanted at an item.
    fn want_word(&self, machine: &Machine<'a>, at: usize) -> Result<(), Fault<'a>> {
        match machine.want() {
            Want::Word(_) => Ok(()),
            Want::Owner(_) => Err(self.fault(FaultKind::WordAsOwner, at)),
            Want::Nothing => Err(self.fault(FaultKind::Syntax, at)),
            Want::Trap(_) => Err(self.fault(FaultKind::WrongTrap, at)),
        }
    }

    /// The register to which the item before a place computes: the one that is wanted, or the next.
    fn result(
        &mut self,
        machine: &Machine<'a>,
        at: usize,
        next: usize,
    ) -> Result<usize, Fault<'a>> {
        match machine.destination(next) {
            Some(register) => Ok(register),
            None => self.reserve(1, self.source.token(at)),
        }
    }

    /// A number.
    pub fn number(&mut self, machine: &mut Machine<'a>, at: usize) -> Result<(), Fault<'a>> {
        let value = match self.source.action(at) {
            Action::Number => self.source.number(at)? as i64,
            Action::NegativeNumber => -(self.source.number(at)? as i64),
            _ => 0,
        };
        if value < -2147483648 {
            return Err(self.fault(FaultKind::NumberRange, at));
        }
        self.constant(machine, at, at.saturating_add(1), value)
    }

    fn constant(
        &mut self,
        machine: &mut Machine<'a>,
        at: usize,
        next: usize,
        value: i64,
    ) -> Result<(), Fault<'a>> {
        self.want_word(machine, at)?;
        let mark = self.top;
        let to = self.result(machine, at, next)?;
        self.load_number(to, value, self.source.token(at));
        self.give(machine, Value { register: to, mark });
        Ok(())
    }

    /// Puts a number into a register. A word has 32 bits, so what is written unsigned may be negative.
    pub fn load_number(&mut self, to: usize, value: i64, token: u32) {
        let signed = if 2147483648 <= value {
            value.saturating_sub(4294967296)
        } else {
            value
        };
        self.emit(
            Operation::Const,
            two(register(to), Operand::Number(signed)),
            token,
        );
    }

    /// A member of an enum: the item behind it.
    pub fn member(&mut self, machine: &mut Machine<'a>, at: usize) -> Result<usize, Fault<'a>> {
        let next = self.source.partner(at).saturating_add(1);
        let of_enum = self.text(at.saturating_add(1));
        let name = self.text(at.saturating_add(2));
        match self.program.constants.member(of_enum, name) {
            Some(value) => self.constant(machine, at, next, value)?,
            None => return Err(self.fault(FaultKind::UnknownName, at).about(name)),
        }
        Ok(next)
    }

    /// A name: of a local, a word of the object or a constant; or of a local that is moved.
    pub fn name(&mut self, machine: &mut Machine<'a>, at: usize) -> Result<(), Fault<'a>> {
        if let Want::Owner(_) = machine.want() {
            return self.move_local(machine, at);
        }
        self.want_word(machine, at)?;
        let name = self.text(at);
        if let Some(local) = self.local(name) {
            if local.kind != ValueKind::Word {
                return Err(self.fault(FaultKind::OwnerAsWord, at).about(name));
            }
            return self.local_word(machine, at, local.register);
        }
        if let Some(number) = self.word_number(name) {
            let mark = self.top;
            let to = self.result(machine, at, at.saturating_add(1))?;
            let operands = two(register(to), Operand::Word(number));
            self.emit(Operation::Load, operands, self.source.token(at));
            self.give(machine, Value { register: to, mark });
            return Ok(());
        }
        if let Some(value) = self.program.constants.value(name) {
            return self.constant(machine, at, at.saturating_add(1), value);
        }
        let kind = if self.field(name).is_some() {
            FaultKind::OwnerAsWord
        } else {
            FaultKind::UnknownName
        };
        Err(self.fault(kind, at).about(name))
    }

    fn local_word(
        &mut self,
        machine: &mut Machine<'a>,
        at: usize,
        from: usize,
    ) -> Result<(), Fault<'a>> {
        let mark = self.top;
        let to = match machine.destination(at.saturating_add(1)) {
            Some(to) => to,
            None => from,
        };
        if to != from {
            self.emit(
                Operation::Copy,
                two(register(to), register(from)),
                self.source.token(at),
            );
        }
        self.give(machine, Value { register: to, mark });
        Ok(())
    }

    /// A word that one instruction gives: the status of a request, or a connection.
    pub fn word_of(
        &mut self,
        machine: &mut Machine<'a>,
        at: usize,
        operation: Operation,
    ) -> Result<(), Fault<'a>> {
        let is_there = match operation {
            Operation::Status => self.kind.is_active(),
            _ => self.kind == ClassKind::Native,
        };
        self.want_class(is_there, at)?;
        self.want_word(machine, at)?;
        let mark = self.top;
        let to = self.result(machine, at, at.saturating_add(1))?;
        self.emit(operation, one(register(to)), self.source.token(at));
        self.give(machine, Value { register: to, mark });
        Ok(())
    }

    /// An operator on the two latest words.
    pub fn binary(
        &mut self,
        machine: &mut Machine<'a>,
        at: usize,
        operation: Operation,
    ) -> Result<(), Fault<'a>> {
        self.want_word(machine, at)?;
        let second = self.take_value(machine);
        let first = self.take_value(machine);
        self.top = first.mark;
        let to = self.result(machine, at, at.saturating_add(1))?;
        let operands = three(
            register(to),
            register(first.register),
            register(second.register),
        );
        self.emit(operation, operands, self.source.token(at));
        self.give(
            machine,
            Value {
                register: to,
                mark: first.mark,
            },
        );
        Ok(())
    }

    /// A question to the native.
    pub fn begin_ask(&mut self, machine: &mut Machine<'a>, at: usize) -> Result<(), Fault<'a>> {
        self.want_class(self.kind == ClassKind::Native, at)?;
        self.want_word(machine, at)?;
        if self.arguments_of(at)?.len() != 2 {
            return Err(self.fault(FaultKind::WrongArguments, at).about(b"ask"));
        }
        self.wait(machine, Frame::Ask(self.top));
        Ok(())
    }

    pub fn end_ask(&mut self, machine: &mut Machine<'a>, at: usize) -> Result<(), Fault<'a>> {
        let Some(Frame::Ask(mark)) = machine.frames.pop() else {
            return Err(Fault::internal());
        };
        let second = self.take_value(machine);
        let first = self.take_value(machine);
        self.top = mark;
        let to = self.result(machine, at, at.saturating_add(1))?;
        let operands = three(
            register(to),
            register(first.register),
            register(second.register),
        );
        self.emit(Operation::Ask, operands, self.source.token(at));
        self.give(machine, Value { register: to, mark });
        Ok(())
    }
}
