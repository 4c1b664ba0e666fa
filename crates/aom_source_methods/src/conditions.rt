//! Conditions: each comparison leads where the whole then goes.
//!
//! A condition is taken apart from its root: what is still to be translated waits on a stack, the left part above the right one.
use crate::generator::{Generator, none, one, register, two};
use aom_source_code::{LabelId, Operand, Operation};
use aom_source_program::{Fault, FaultKind, ValueKind};
use aom_source_states::{Fill, Owner, RequestStates, SiteKind, State, Status};
use aom_source_syntax::Action;

/// Where a condition leads, and whether what comes next is the one way or the other.
#[derive(Clone, Copy)]
pub struct Branches {
    pub on_true: LabelId,
    pub on_false: LabelId,
    /// Whether the place behind is where it holds.
    pub falls_true: bool,
}

impl Branches {
    fn turned(self) -> Branches {
        Branches {
            on_true: self.on_false,
            on_false: self.on_true,
            falls_true: !self.falls_true,
        }
    }
}

/// A part of a condition that is still to be translated: its items, where it leads, and the label that stands before it.
#[derive(Clone, Copy)]
struct Waiting {
    begin: usize,
    end: usize,
    branches: Branches,
    before: Option<LabelId>,
}

/// A test: its instruction, whether it jumps where it holds, and what is known on both ways.
#[derive(Drop)]
pub struct Tested {
    operation: Operation,
    operands: [Operand; 4],
    jumps_on_true: bool,
    on_true: Option<State>,
    on_false: Option<State>,
}

impl<'s, 't, 'a> Generator<'s, 't, 'a> {
    /// Whether the instruction of a condition leads on where it holds.
    pub fn falls_on_true(&self, begin: usize, end: usize) -> bool {
        let (mut last, mut begin) = (end, begin);
        let mut is_turned = false;
        for _ in 0..end.saturating_sub(begin).saturating_add(1) {
            let root = last.saturating_sub(1);
            match self.source.action(root) {
                Action::Not => {
                    is_turned = !is_turned;
                    last = root;
                }
                Action::OrEnd | Action::AndEnd => {
                    begin = self.source.partner(root).saturating_add(1);
                    last = root;
                }
                action => return is_turned != !jumps_on_true(action),
            }
        }
        let _ = begin;
        true
    }

    /// Translates a condition.
    pub fn condition(
        &mut self,
        begin: usize,
        end: usize,
        branches: Branches,
    ) -> Result<(), Fault<'a>> {
        let mut waiting: Vec<Waiting> = Vec::new(self.alloc);
        waiting.push(Waiting {
            begin,
            end,
            branches,
            before: None,
        })?;
        for _ in begin..=end.saturating_add(end) {
            let Some(part) = waiting.pop() else {
                return Ok(());
            };
            if let Some(label) = part.before {
                self.place(label, None)?;
            }
            if self.is_reached() {
                self.condition_part(&mut waiting, part)?;
            }
        }
        Ok(())
    }

    fn condition_part(
        &mut self,
        waiting: &mut Vec<Waiting>,
        part: Waiting,
    ) -> Result<(), Fault<'a>> {
        let root = part.end.saturating_sub(1);
        match self.source.action(root) {
            Action::Not => waiting.push(Waiting {
                begin: part.begin,
                end: root,
                branches: part.branches.turned(),
                before: None,
            })?,
            Action::AndEnd => {
                let middle = self.new_label();
                let left = Branches {
                    on_true: middle,
                    on_false: part.branches.on_false,
                    falls_true: true,
                };
                self.part_in_two(waiting, part, root, left, middle)?;
            }
            Action::OrEnd => {
                let middle = self.new_label();
                let left = Branches {
                    on_true: part.branches.on_true,
                    on_false: middle,
                    falls_true: false,
                };
                self.part_in_two(waiting, part, root, left, middle)?;
            }
            _ => self.atom(part.begin, part.end, part.branches)?,
        }
        Ok(())
    }

    fn part_in_two(
        &self,
        waiting: &mut Vec<Waiting>,
        part: Waiting,
        root: usize,
        left: Branches,
        middle: LabelId,
    ) -> Result<(), Fault<'a>> {
        let parted = self.source.partner(root);
        waiting.push(Waiting {
            begin: parted.saturating_add(1),
            end: root,
            branches: part.branches,
            before: Some(middle),
        })?;
        waiting.push(Waiting {
            begin: part.begin,
            end: parted,
            branches: left,
            before: None,
        })?;
        Ok(())
    }

    /// One test: it jumps on the one way, and goes on or jumps on the other.
    fn atom(&mut self, begin: usize, end: usize, branches: Branches) -> Result<(), Fault<'a>> {
        let token = self.source.token(end.saturating_sub(1));
        let tested = self.test(begin, end)?;
        self.lead_on(tested, branches, token)
    }

    /// The instruction of a test, with its two ways.
    pub fn lead_on(
        &mut self,
        tested: Tested,
        branches: Branches,
        token: u32,
    ) -> Result<(), Fault<'a>> {
        let Tested {
            operation,
            mut operands,
            jumps_on_true,
            on_true,
            on_false,
        } = tested;
        let (here, there) = if jumps_on_true {
            (branches.on_true, branches.on_false)
        } else {
            (branches.on_false, branches.on_true)
        };
        let (jumping, going) = if jumps_on_true {
            (on_true, on_false)
        } else {
            (on_false, on_true)
        };
        put_label(&mut operands, here);
        self.emit(operation, operands, token);
        if let Some(state) = jumping {
            self.lead(here, state, None);
        }
        self.state = going;
        if branches.falls_true == jumps_on_true {
            self.jump(there, token, None);
        }
        Ok(())
    }

    fn test(&mut self, begin: usize, end: usize) -> Result<Tested, Fault<'a>> {
        let root = end.saturating_sub(1);
        match self.source.action(root) {
            Action::Equal
            | Action::NotEqual
            | Action::Less
            | Action::AtMost
            | Action::Greater
            | Action::AtLeast => self.comparison(begin, root),
            Action::IsActive => {
                self.want_class(self.kind.is_active(), root)?;
                // active, being cancelled, cancelled
                Ok(self.request_test(Operation::JumpActive, RequestStates(8 | 16 | 32)))
            }
            Action::IsEnlisted => {
                self.want_class(self.kind.is_enlisted(), root)?;
                Ok(self.request_test(Operation::JumpAdded, RequestStates(2 | 4 | 8 | 16 | 32)))
            }
            Action::Name if end == begin.saturating_add(1) => self.name_test(root),
            _ => Err(self.fault(FaultKind::NoCondition, root)),
        }
    }

    fn comparison(&mut self, begin: usize, root: usize) -> Result<Tested, Fault<'a>> {
        let (first, second) = self.operands(begin, root)?;
        let action = self.source.action(root);
        let operands = match action {
            Action::Greater | Action::AtMost => two(register(second), register(first)),
            _ => two(register(first), register(second)),
        };
        let operation = match action {
            Action::Equal | Action::NotEqual => Operation::JumpEqual,
            _ => Operation::JumpLess,
        };
        let on_false = self.state_copy();
        Ok(Tested {
            operation,
            operands,
            jumps_on_true: jumps_on_true(action),
            on_true: self.state.take(),
            on_false: Some(on_false),
        })
    }

    /// What is known here where the request is no further than told, if that may be.
    fn with_request(&mut self, request: RequestStates) -> Option<State> {
        if request.is_none() {
            return None;
        }
        let mut state = self.state_copy();
        state.request = request;
        Some(state)
    }

    /// A test of how far the request is.
    fn request_test(&mut self, operation: Operation, holds: RequestStates) -> Tested {
        let request = self.request_states();
        let on_true = self.with_request(request.and(holds));
        let on_false = self.with_request(request.less(holds));
        Tested {
            operation,
            operands: none(),
            jumps_on_true: true,
            on_true,
            on_false,
        }
    }

    /// A test for null, of a local or a field.
    pub fn name_test(&mut self, at: usize) -> Result<Tested, Fault<'a>> {
        let name = self.text(at);
        if let Some(local) = self.local(name) {
            if local.kind != ValueKind::Word {
                return self.local_test(local, at);
            }
        } else if let Some(number) = self.field(name) {
            return Ok(self.field_test(number));
        }
        Err(self.fault(FaultKind::NoCondition, at).about(name))
    }

    fn local_test(
        &mut self,
        local: crate::generator::Local<'a>,
        at: usize,
    ) -> Result<Tested, Fault<'a>> {
        self.is_there(local, self.source.token(at))?;
        let owner = self.owner(local.id);
        if owner.status == Status::Owns {
            return Err(self.fault(FaultKind::NoTestNeeded, at).about(local.name));
        }
        let on_false = self.with_status(local, Status::Null);
        let on_true = if owner.status == Status::Null {
            None
        } else {
            self.order = self.order.saturating_add(1);
            let found = Owner {
                status: Status::Owns,
                is_guarded: false,
                site: aom_source_states::Site {
                    kind: SiteKind::Test,
                    item: at,
                },
                order: self.order,
                ..owner
            };
            let mut state = self.state_copy();
            state.set(found)?;
            Some(state)
        };
        Ok(Tested {
            operation: Operation::JumpNull,
            operands: one(register(local.register)),
            jumps_on_true: false,
            on_true,
            on_false: Some(on_false),
        })
    }

    fn field_test(&mut self, number: usize) -> Tested {
        let on_true = self.with_fill(number, Fill::Full, Fill::Empty);
        let on_false = self.with_fill(number, Fill::Empty, Fill::Full);
        Tested {
            operation: Operation::JumpEmpty,
            operands: one(Operand::Field(number)),
            jumps_on_true: false,
            on_true,
            on_false,
        }
    }

    /// What is known here where a field is as told, unless it is surely the other.
    fn with_fill(&mut self, number: usize, fill: Fill, other: Fill) -> Option<State> {
        if self.fill(number) == other {
            return None;
        }
        let mut state = self.state_copy();
        state.set_fill(number, fill);
        Some(state)
    }
}

/// Whether the instruction of a test jumps where the test holds.
fn jumps_on_true(action: Action) -> bool {
    matches!(
        action,
        Action::Equal | Action::Less | Action::Greater | Action::IsActive | Action::IsEnlisted
    )
}

/// The label behind the operands that are there.
fn put_label(operands: &mut [Operand; 4], label: LabelId) {
    for at in 0..4 {
        if operands[at] == Operand::None {
            operands[at] = Operand::Label(label);
            return;
        }
    }
}
