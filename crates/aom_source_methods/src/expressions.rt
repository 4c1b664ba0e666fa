//! Expressions: their items in order, with what waits on stacks, since no function calls itself.
//!
//! A target says what is wanted of the items up to its end. The last of them, the root, computes straight to where it is wanted.
use crate::calls::CallFrame;
use crate::generator::{Generator, Local};
use crate::making::NewFrame;
use aom_source_code::Operation;
use aom_source_program::{Fault, FaultKind};
use aom_source_syntax::Action;

/// A word that waits: its register, and the first that was free before it was computed.
#[derive(Clone, Copy)]
pub struct Value {
    pub register: usize,
    pub mark: usize,
}

/// What is wanted of an expression.
#[derive(Clone, Copy)]
pub enum Want<'a> {
    /// A word, in a register if one is told.
    Word(Option<usize>),
    /// Something owned, for a local or a temporary.
    Owner(Local<'a>),
    /// A call, whatever it gives.
    Nothing,
    /// A call under a trap: its result and the code come to a register and the next.
    Trap(usize),
}

/// What is wanted of the items before an end.
#[derive(Clone, Copy)]
pub struct Target<'a> {
    pub end: usize,
    pub want: Want<'a>,
}

/// A part of an expression whose arguments are being computed.
#[derive(Drop)]
pub enum Frame<'a> {
    Call(CallFrame<'a>),
    New(NewFrame<'a>),
    /// A question to a native: the first register that was free before it.
    Ask(usize),
}

/// What waits while an expression is computed.
#[derive(Drop)]
pub struct Machine<'a> {
    pub values: Vec<Value>,
    pub targets: Vec<Target<'a>>,
    pub frames: Vec<Frame<'a>>,
}

impl<'a> Machine<'a> {
    /// What is wanted now.
    pub fn want(&self) -> Want<'a> {
        match self.targets.last() {
            Some(target) => target.want,
            None => Want::Nothing,
        }
    }

    /// Whether the item before a place is the root of what is wanted.
    pub fn is_root(&self, next: usize) -> bool {
        match self.targets.last() {
            Some(target) => target.end == next,
            None => false,
        }
    }

    /// The register to which the item before a place computes, if one is told.
    pub fn destination(&self, next: usize) -> Option<usize> {
        match self.want() {
            Want::Word(register) if self.is_root(next) => register,
            _ => None,
        }
    }

    /// What is wanted is known better now.
    pub fn refine(&mut self, local: Local<'a>) {
        let at = self.targets.len();
        if 0 < at {
            self.targets[at - 1].want = Want::Owner(local);
        }
    }
}

impl<'s, 't, 'a> Generator<'s, 't, 'a> {
    /// A word waits.
    pub fn give(&mut self, machine: &mut Machine<'a>, value: Value) {
        let is_done = machine.values.push(value).is_ok();
        self.want_memory(is_done);
    }

    /// The latest word.
    pub fn take_value(&mut self, machine: &mut Machine<'a>) -> Value {
        match machine.values.pop() {
            Some(value) => value,
            None => {
                self.lack(Fault::internal());
                Value {
                    register: 0,
                    mark: 0,
                }
            }
        }
    }

    /// The items before an end are wanted for something.
    pub fn expect(&mut self, machine: &mut Machine<'a>, target: Target<'a>) {
        let is_done = machine.targets.push(target).is_ok();
        self.want_memory(is_done);
    }

    /// A part waits for its arguments.
    pub fn wait(&mut self, machine: &mut Machine<'a>, frame: Frame<'a>) {
        let is_done = machine.frames.push(frame).is_ok();
        self.want_memory(is_done);
    }

    /// Computes a word, to a register if one is told: the register in which it is.
    pub fn word(
        &mut self,
        begin: usize,
        end: usize,
        register: Option<usize>,
    ) -> Result<usize, Fault<'a>> {
        let mut machine = self.evaluate(begin, end, Want::Word(register))?;
        Ok(self.take_value(&mut machine).register)
    }

    /// Computes what is owned to the register of a local: the local, of the kind that it is.
    pub fn owned(
        &mut self,
        begin: usize,
        end: usize,
        local: Local<'a>,
    ) -> Result<Local<'a>, Fault<'a>> {
        let machine = self.evaluate(begin, end, Want::Owner(local))?;
        match machine.want() {
            Want::Owner(local) => Ok(local),
            _ => Err(Fault::internal()),
        }
    }

    /// Computes the two operands before a comparison: their registers.
    pub fn operands(&mut self, begin: usize, end: usize) -> Result<(usize, usize), Fault<'a>> {
        // no item is the root, so neither is told where to go
        let mark = self.top;
        let mut machine = self.evaluate_before(
            begin,
            end,
            end.saturating_add(1),
            Want::Word(None),
        )?;
        let second = self.take_value(&mut machine);
        let first = self.take_value(&mut machine);
        self.top = mark;
        Ok((first.register, second.register))
    }

    /// A call whose result nobody takes.
    pub fn call_alone(&mut self, begin: usize, end: usize) -> Result<(), Fault<'a>> {
        self.evaluate(begin, end, Want::Nothing)?;
        Ok(())
    }

    /// A call under a trap.
    pub fn call_trapped(
        &mut self,
        begin: usize,
        end: usize,
        register: usize,
    ) -> Result<(), Fault<'a>> {
        self.evaluate(begin, end, Want::Trap(register))?;
        Ok(())
    }

    fn evaluate(
        &mut self,
        begin: usize,
        end: usize,
        want: Want<'a>,
    ) -> Result<Machine<'a>, Fault<'a>> {
        self.evaluate_before(begin, end, end, want)
    }

    fn evaluate_before(
        &mut self,
        begin: usize,
        end: usize,
        root: usize,
        want: Want<'a>,
    ) -> Result<Machine<'a>, Fault<'a>> {
        let mut machine = Machine {
            values: Vec::new(self.alloc),
            targets: Vec::new(self.alloc),
            frames: Vec::new(self.alloc),
        };
        self.expect(&mut machine, Target { end: root, want });
        let mut at = begin;
        for _ in begin..end {
            if end <= at {
                break;
            }
            at = self.step(&mut machine, at)?;
        }
        Ok(machine)
    }

    /// One item of an expression: the next.
    fn step(&mut self, machine: &mut Machine<'a>, at: usize) -> Result<usize, Fault<'a>> {
        match self.source.action(at) {
            Action::Dotted if self.source.action(self.source.partner(at)) == Action::DottedEnd => {
                self.member(machine, at)
            }
            Action::Argument => self.begin_argument(machine, at),
            action => {
                self.leaf(machine, action, at)?;
                Ok(at.saturating_add(1))
            }
        }
    }

    /// An item that is a word or owns something.
    fn leaf(
        &mut self,
        machine: &mut Machine<'a>,
        action: Action,
        at: usize,
    ) -> Result<(), Fault<'a>> {
        match action {
            Action::Number | Action::NegativeNumber | Action::Zero => self.number(machine, at),
            Action::Name => self.name(machine, at),
            Action::Status => self.word_of(machine, at, Operation::Status),
            Action::Connect => self.word_of(machine, at, Operation::Connect),
            Action::Take | Action::Hand | Action::Message | Action::None => {
                self.owner_leaf(machine, at)
            }
            Action::ObjectName | Action::CalledName | Action::NewClass => Ok(()),
            action => self.part(machine, action, at),
        }
    }

    /// An item that begins or ends a part, or works on what waits.
    fn part(
        &mut self,
        machine: &mut Machine<'a>,
        action: Action,
        at: usize,
    ) -> Result<(), Fault<'a>> {
        match action {
            Action::PlainCall
            | Action::SelfCall
            | Action::SuperCall
            | Action::SuperConstruct
            | Action::Dotted
            | Action::MaybeCall => self.begin_call(machine, at),
            Action::CallEnd => self.end_call(machine, at),
            Action::New | Action::MaybeNew => self.begin_new(machine, at),
            Action::NewEnd => self.end_new(machine, at),
            Action::Ask => self.begin_ask(machine, at),
            Action::AskEnd => self.end_ask(machine, at),
            Action::ArgumentEnd => self.end_argument(machine, at),
            action => match operation_of(action) {
                Some(operation) => self.binary(machine, at, operation),
                None => Err(self.fault(FaultKind::ConditionAsWord, at)),
            },
        }
    }
}

/// The instruction of an operator on words.
fn operation_of(action: Action) -> Option<Operation> {
    match action {
        Action::Add => Some(Operation::Add),
        Action::Subtract => Some(Operation::Subtract),
        Action::Multiply => Some(Operation::Multiply),
        Action::BitAnd => Some(Operation::And),
        Action::BitOr => Some(Operation::Or),
        Action::BitXor => Some(Operation::Xor),
        _ => None,
    }
}
