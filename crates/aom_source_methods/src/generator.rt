//! The translation of a method, in its midst.
ghost use Rattle.std.specs.Prelude.{◌≡◌, [], ◌∷◌, ◌++◌, None};

use crate::ifs::IfFrame;
use crate::loops::{LoopFrame, OpenLoop};
use crate::summary::{Helpers, Noise, Summaries, Summary};
use crate::traps::CatchFrame;
use aom_source_code::{Code, LabelId, Note, Operand, Operation};
use aom_source_program::{
    ClassId, ClassKind, Fault, FaultKind, MethodId, Program, Role, Source, Thing, ValueKind,
};
use aom_source_states::{Notes, OwnerId, State, Way};
use std::alloc::Global;
use std::collections::VecDeque;

/// A parameter or local, or what is computed on the way.
#[derive(Clone, Copy)]
pub struct Local<'a> {
    pub name: &'a [u8],
    pub id: OwnerId,
    pub kind: ValueKind,
    pub register: usize,
    pub token: u32,
}

/// What a block has brought forth.
#[derive(Clone, Copy)]
pub enum Bound<'a> {
    /// A parameter or local, and the instruction before which it is declared.
    Local(Local<'a>, usize),
    /// What a `defer` has put on the cleanup stack.
    Deferred(usize),
}

/// A block that is open: where what it has brought forth begins, the first register that was free, and the first instruction.
#[derive(Clone, Copy)]
pub struct Scope {
    pub begin: usize,
    pub top: usize,
    pub from: usize,
}

/// A block whose instructions stand at the method's end.
#[derive(Drop)]
pub struct Deferred<'a> {
    pub label: LabelId,
    pub begin: usize,
    pub end: usize,
    pub bound: Vec<Bound<'a>>,
    pub scopes: Vec<Scope>,
    pub top: usize,
    pub item: usize,
    /// What is left in place of a block: an assertion that fails.
    pub code: Option<i64>,
}

/// What is done where the statements of a block have been translated.
#[derive(Drop)]
pub enum After<'a> {
    /// The method's own block.
    Body,
    Then(IfFrame<'a>),
    Else(IfFrame<'a>),
    Loop(LoopFrame<'a>),
    Catch(CatchFrame<'a>),
    Deferred(u32),
}

/// The statements of a block that are still to be translated.
#[derive(Drop)]
pub struct Region<'a> {
    pub at: usize,
    pub end: usize,
    pub after: After<'a>,
}

/// The translation of a method.
#[derive(Drop)]
pub struct Generator<'s, 't, 'a> {
    pub alloc: Global,
    pub source: &'s Source<'t, 'a>,
    pub program: &'s Program<'a>,
    pub summaries: &'s Summaries<'a>,
    pub helpers: &'s Helpers,
    pub id: MethodId,
    pub role: Role,
    pub class: Option<ClassId>,
    pub kind: ClassKind,
    pub notes: Notes,
    pub code: Code<'a>,
    /// What is known at this place, if a way leads here.
    pub state: Option<State>,
    /// The ways to each label.
    pub ways: Vec<Vec<Way>>,
    pub scopes: Vec<Scope>,
    pub bound: Vec<Bound<'a>>,
    /// Each owner that has been met.
    pub owners: Vec<Local<'a>>,
    /// The first register that is free.
    pub top: usize,
    pub order: usize,
    /// The item of the statement at hand, and the token at which a fault of its end is told.
    pub item: usize,
    pub token: u32,
    pub loops: Vec<OpenLoop>,
    pub regions: Vec<Region<'a>>,
    pub deferred: VecDeque<Deferred<'a>>,
    pub summary: Summary<'a>,
    /// Methods that have to be translated before this one.
    pub needs: Vec<MethodId>,
    /// The first thing that went wrong and that is no fault of the source.
    pub lacking: Option<Fault<'a>>,
}

/// The operands of an instruction.
pub fn none() -> [Operand; 4] {
    [Operand::None; 4]
}

pub fn one(first: Operand) -> [Operand; 4] {
    [first, Operand::None, Operand::None, Operand::None]
}

pub fn two(first: Operand, second: Operand) -> [Operand; 4] {
    [first, second, Operand::None, Operand::None]
}

pub fn three(first: Operand, second: Operand, third: Operand) -> [Operand; 4] {
    [first, second, third, Operand::None]
}

pub fn register(number: usize) -> Operand {
    Operand::Register(number)
}

impl<'s, 't, 'a> Generator<'s, 't, 'a> {
    pub fn is_reached(&self) -> bool {
        self.state.is_some()
    }

    /// A fault at an item.
    pub fn fault(&self, kind: FaultKind, at: usize) -> Fault<'a> {
        self.source.fault(kind, at)
    }

    /// An instruction that says what the source says.
    pub fn emit(&mut self, operation: Operation, operands: [Operand; 4], token: u32) {
        self.emit_added(operation, operands, token, Note::written());
    }

    /// An instruction that is added.
    pub fn emit_added(
        &mut self,
        operation: Operation,
        operands: [Operand; 4],
        token: u32,
        note: Note<'a>,
    )
        ensures added { self.new.lacking ≡ None → self.new.code.lines.items ≡ self.old.code.lines.items ++ record { operation = operation; operands = operands; token = token; note = note.entry } ∷ [] }
    {
        let is_done = self.code.push(operation, operands, token, note).is_ok();
        self.want_memory(is_done);
    }

    /// The statements of a block come next.
    pub fn push_region(&mut self, region: Region<'a>) {
        let is_done = self.regions.push(region).is_ok();
        self.want_memory(is_done);
    }

    /// The next registers.
    pub fn reserve(&mut self, count: usize, token: u32) -> Result<usize, Fault<'a>> {
        let first = self.top;
        self.top = self.top.saturating_add(count);
        if 16 < self.top {
            return Err(Fault::at(FaultKind::TooManyLocals, token));
        }
        Ok(first)
    }

    /// A new label, to which no way leads yet.
    pub fn new_label(&mut self) -> LabelId {
        let is_done = self.ways.push(Vec::new(self.alloc)).is_ok();
        self.want_memory(is_done);
        match self.code.new_label() {
            Ok(label) => label,
            Err(_) => {
                self.want_memory(false);
                LabelId(0)
            }
        }
    }

    /// The number of a field that owns: of the class, or the root of main.
    pub fn field(&self, name: &[u8]) -> Option<usize> {
        if self.role == Role::Main {
            if self.program.root.is_some() && name == b"root".as_slice() {
                return Some(0);
            }
            return None;
        }
        match self.class {
            Some(class) => match self.program.classes.get(class.0) {
                Some(class) => class.field(name),
                None => None,
            },
            None => None,
        }
    }

    /// What a field owns.
    pub fn field_thing(&self, number: usize) -> Result<Thing, Fault<'a>> {
        if self.role == Role::Main {
            let root = self.program.root.ok_or(Fault::internal())?;
            return Ok(Thing::Object(root));
        }
        let class = self.class.ok_or(Fault::internal())?;
        Ok(self.program.field(class, number)?.thing)
    }

    /// How many fields that own there are.
    pub fn field_count(&self) -> usize {
        if self.role == Role::Main {
            return 1;
        }
        match self.class {
            Some(class) => match self.program.classes.get(class.0) {
                Some(class) => class.fields.len(),
                None => 0,
            },
            None => 0,
        }
    }

    /// The number of a word of the object.
    pub fn word_number(&self, name: &[u8]) -> Option<usize> {
        match self.class {
            Some(class) => match self.program.classes.get(class.0) {
                Some(class) => class.word(name),
                None => None,
            },
            None => None,
        }
    }

    /// The parameter or local of a name.
    pub fn local(&self, name: &[u8]) -> Option<Local<'a>> {
        for back in 0..self.bound.len() {
            if let Bound::Local(local, _) = self.bound[self.bound.len() - 1 - back] {
                if local.name == name {
                    return Some(local);
                }
            }
        }
        None
    }

    /// The method's name, as a fault tells it.
    pub fn method_name(&self) -> &'a [u8] {
        match self.program.methods.get(self.id.0) {
            Some(method) => method.name,
            None => b"",
        }
    }

    pub fn class_name(&self, class: ClassId) -> &'a [u8] {
        match self.program.classes.get(class.0) {
            Some(class) => class.name,
            None => b"",
        }
    }

    /// The name of a method.
    pub fn name_of(&self, method: MethodId) -> &'a [u8] {
        match self.program.methods.get(method.0) {
            Some(method) => method.name,
            None => b"",
        }
    }

    /// Notes something that a quiet method may not do.
    pub fn make_noise(&mut self, token: u32, what: &'a [u8]) -> Result<(), Fault<'a>> {
        if self.role.is_quiet() {
            return Err(
                Fault::at(FaultKind::NotQuiet, token)
                    .about(self.method_name())
                    .beside(what),
            );
        }
        if self.summary.noise.is_none() {
            self.summary.noise = Some(Noise { token, what });
        }
        Ok(())
    }

    /// Asks that something is so of the class.
    pub fn want_class(&self, is_so: bool, at: usize) -> Result<(), Fault<'a>> {
        if is_so {
            Ok(())
        } else {
            Err(self.fault(FaultKind::WrongKind, at))
        }
    }
}
