//! The instructions of a method.
ghost use Rattle.std.specs.Prelude.{◌≡◌, ◌<◌, [], ◌∷◌, ◌++◌, IfOk, IsErr, None, OnOk, Some, get_or, length, map, set};

use crate::line::{Line, Note, Operand};
use crate::operation::Operation;
use std::alloc::{AllocError, Global};

/// A label, by number.
#[derive(Clone, Copy, PartialEq, Eq, Debug)]
pub struct LabelId(pub usize);

/// The name that a register has, from one instruction to the one before another.
#[derive(Clone, Copy)]
pub struct NamedRegister<'a> {
    pub name: &'a [u8],
    /// The token that declares it.
    pub token: u32,
    pub register: usize,
    pub from: usize,
    pub to: usize,
}

/// The instructions of a method, each with its place in the source. A label is the number of the instruction at which it stands.
#[derive(Drop)]
pub struct Code<'a> {
    pub lines: Vec<Line<'a>>,
    pub labels: Vec<Option<usize>>,
    pub names: Vec<NamedRegister<'a>>,
}

impl<'a> Code<'a> {
    /// No instruction.
    pub fn new(alloc: Global) -> Code<'a>
        ensures lines { result.lines.items ≡ [] }
        ensures labels { result.labels.items ≡ [] }
        ensures names { result.names.items ≡ [] }
    {
        Code {
            lines: Vec::new(alloc),
            labels: Vec::new(alloc),
            names: Vec::new(alloc),
        }
    }

    /// Adds an instruction.
    pub fn push(
        &mut self,
        operation: Operation,
        operands: [Operand; 4],
        token: u32,
        note: Note<'a>,
    ) -> Result<(), AllocError>
        ensures added { OnOk result (self.new.lines.items ≡ self.old.lines.items ++ record { operation = operation; operands = operands; token = token; note = note.entry } ∷ []) }
        ensures refused { IsErr result → self.new.lines.items ≡ self.old.lines.items }
        ensures labels { self.new.labels.items ≡ self.old.labels.items }
        ensures names { self.new.names.items ≡ self.old.names.items }
    {
        self.lines.push(Line {
            operation,
            operands,
            token,
            note,
        })?;
        Ok(())
    }

    /// A label that stands nowhere yet.
    pub fn new_label(&mut self) -> Result<LabelId, AllocError>
        ensures number { IfOk result (λ label. label.0 ≡ length self.old.labels.items) }
        ensures nowhere { OnOk result (self.new.labels.items ≡ self.old.labels.items ++ None ∷ []) }
        ensures lines { self.new.lines.items ≡ self.old.lines.items }
    {
        let label = LabelId(self.labels.len());
        self.labels.push(None)?;
        Ok(label)
    }

    /// Puts a label where the next instruction comes.
    pub fn place(&mut self, label: LabelId)
        ensures here { label.0 < length self.old.labels.items → self.new.labels.items ≡ set self.old.labels.items label.0 (Some (length self.old.lines.items)) }
        ensures lines { self.new.lines.items ≡ self.old.lines.items }
    {
        if label.0 < self.labels.len() {
            self.labels[label.0] = Some(self.lines.len());
        }
    }

    /// The instruction at which a label stands.
    pub fn place_of(&self, label: LabelId) -> Option<usize>
        ensures { result ≡ get_or self.now.labels.items label.0 None }
    {
        match self.labels.get(label.0) {
            Some(place) => *place,
            None => None,
        }
    }

    /// Whether an instruction leads to a place.
    pub fn is_target(&self, place: usize) -> bool {
        self.lines.iter().any(|line| match line.label() {
            Some(label) => self.place_of(label) == Some(place),
            None => false,
        })
    }

    /// Whether an instruction leads to a label.
    pub fn is_used(&self, label: LabelId) -> bool {
        self.lines.iter().any(|line| line.label() == Some(label))
    }

    /// Whether one more instruction is wanted at the end, since a label stands there or the last goes on.
    pub fn wants_end(&self) -> bool {
        let ends = match self.lines.last() {
            Some(line) => line.operation.ends(),
            None => false,
        };
        !ends || self.is_label_at_end()
    }

    fn is_label_at_end(&self) -> bool {
        let end = Some(self.lines.len());
        self.labels.iter().any(|place| *place == end)
    }

    /// A jump to a `ret` becomes that `ret`, and a jump to a jump leads where the second does.
    pub fn shorten_jumps(&mut self)
        ensures map { map (λ l. l.token) self.new.lines.items ≡ map (λ l. l.token) self.old.lines.items }
    {
        let count = self.lines.len();
        for back in 0..count {
            let at = count - 1 - back;
            if at < self.lines.len() && self.lines[at].operation == Operation::Jump {
                self.shorten_jump(at);
            }
        }
    }

    fn shorten_jump(&mut self, at: usize)
        ensures map { map (λ l. l.token) self.new.lines.items ≡ map (λ l. l.token) self.old.lines.items }
    {
        if self.lines.len() <= at {
            return;
        }
        let Some(label) = self.lines[at].label() else {
            return;
        };
        let Some(target) = self.place_of(label) else {
            return;
        };
        if self.lines.len() <= target {
            return;
        }
        let line = self.lines[target];
        if line.operation == Operation::Return || line.operation == Operation::Jump {
            let own = self.lines[at];
            self.lines[at] = Line {
                operation: line.operation,
                operands: line.operands,
                ..own
            };
        }
    }
}
