//! `if`, and what is translated as one: tests for null of a call, the condition of a loop, assertions.
use crate::conditions::Branches;
use crate::generator::{After, Bound, Deferred, Generator, Local, Region, Scope, register, two};
use aom_source_code::{LabelId, Operand, Operation};
use aom_source_program::{Fault, FaultKind};
use aom_source_states::{Edge, OwnerId, SiteKind, Status, Turn};
use aom_source_syntax::Action;

/// What is done on a way.
#[derive(Clone, Copy, PartialEq, Eq, Debug)]
pub enum Part {
    /// The statements of a block, by their items, and the item at which it ends.
    Block {
        begin: usize,
        end: usize,
        last: usize,
    },
    /// A call, by its items.
    Call {
        begin: usize,
        end: usize,
    },
    /// Out of the loop.
    Break,
    /// A leave with a code.
    Fail(i64),
}

/// An `if` on its way: its labels, and what is done where.
#[derive(Clone, Copy)]
pub struct IfFrame<'a> {
    pub item: usize,
    pub then: Part,
    pub other: Option<Part>,
    /// The local of an `if let`.
    pub local: Option<Local<'a>>,
    /// The first register that was free before that local.
    pub top: usize,
    pub on_true: LabelId,
    pub on_false: LabelId,
    pub end: LabelId,
    /// Whether the way on which it does not hold has instructions.
    pub has_other: bool,
    pub is_then_first: bool,
}

impl<'s, 't, 'a> Generator<'s, 't, 'a> {
    /// An `if` of the source.
    pub fn begin_if(&mut self, at: usize) -> Result<(), Fault<'a>> {
        let test = at.saturating_add(1);
        let block = self.source.partner(test).saturating_add(1);
        let (then, behind) = self.block_at(block);
        let other = if self.source.action(behind) == Action::Else {
            Some(self.other_part(behind.saturating_add(1), self.source.partner(at)))
        } else {
            None
        };
        let frame = self.frame(at, then, other)?;
        if self.source.action(test) == Action::IfLet {
            return self.begin_if_let(frame, test);
        }
        let end = self.source.partner(test);
        self.begin_test(frame, test.saturating_add(1), end, false)
    }

    /// The block at an item, and the item behind it.
    pub fn block_at(&self, at: usize) -> (Part, usize) {
        let last = self.source.partner(at);
        let part = Part::Block {
            begin: at.saturating_add(1),
            end: last,
            last,
        };
        (part, last.saturating_add(1))
    }

    fn other_part(&self, at: usize, end: usize) -> Part {
        if self.source.action(at) == Action::BlockBegin {
            return self.block_at(at).0;
        }
        Part::Block {
            begin: at,
            end,
            last: end,
        }
    }

    /// A frame with new labels.
    pub fn frame(
        &mut self,
        item: usize,
        then: Part,
        other: Option<Part>,
    ) -> Result<IfFrame<'a>, Fault<'a>> {
        let otherwise = Edge {
            item,
            turn: Turn::Else,
        };
        Ok(IfFrame {
            item,
            then,
            other,
            local: None,
            top: self.top,
            on_true: self.new_label(),
            on_false: self.new_label(),
            end: self.new_label(),
            has_other: other.is_some() || self.notes.is_noted(otherwise),
            is_then_first: true,
        })
    }

    fn begin_if_let(&mut self, mut frame: IfFrame<'a>, test: usize) -> Result<(), Fault<'a>> {
        let named = test.saturating_add(1);
        let token = self.source.token(named);
        let local = self.temporary(self.text(named), OwnerId::local(named), token)?;
        let (begin, end) = (test.saturating_add(2), self.source.partner(test));
        if self.is_word(begin, end)? {
            return Err(self.fault(FaultKind::WordAsOwner, named).about(local.name));
        }
        let local = self.owned(begin, end, local)?;
        if self.owner(local.id).status != Status::Maybe {
            return Err(self.fault(FaultKind::NoTestNeeded, named).about(local.name));
        }
        let mut null = self.state_copy();
        null.forget(local.id);
        let (label, edge) = if frame.has_other {
            (frame.on_false, None)
        } else {
            (frame.end, Some(self.edge(frame.item, Turn::Else)))
        };
        let operands = two(register(local.register), Operand::Label(label));
        self.emit(Operation::JumpNull, operands, token);
        self.lead(label, null, edge);
        self.set_owner(local, Status::Owns, SiteKind::Test, named);
        frame.local = Some(local);
        self.begin_parts(frame)
    }

    /// A condition, which is turned or not, and its parts.
    pub fn begin_test(
        &mut self,
        mut frame: IfFrame<'a>,
        begin: usize,
        end: usize,
        is_turned: bool,
    ) -> Result<(), Fault<'a>> {
        let falls_true = self.falls_on_true(begin, end) != is_turned;
        let is_late = !frame.has_other
            && !falls_true
            && self.loops.is_empty()
            && self.part_ends(frame.then)?;
        let on_false = if frame.has_other || !falls_true && !is_late {
            frame.on_false
        } else {
            frame.end
        };
        let branches = Branches {
            on_true: frame.on_true,
            on_false,
            falls_true,
        };
        self.condition_turned(begin, end, branches, is_turned)?;
        if is_late {
            self.defer_part(frame)?;
            self.place(frame.end, None)?;
            return self.if_done(frame);
        }
        frame.is_then_first = falls_true;
        self.begin_parts(frame)
    }

    /// A test for null of the name at an item, and what is done where the object is there.
    pub fn begin_name_test(&mut self, frame: IfFrame<'a>, at: usize) -> Result<(), Fault<'a>> {
        let on_false = if frame.has_other {
            frame.on_false
        } else {
            frame.end
        };
        let branches = Branches {
            on_true: frame.on_true,
            on_false,
            falls_true: true,
        };
        let tested = self.name_test(at)?;
        self.lead_on(tested, branches, self.source.token(at))?;
        self.begin_parts(frame)
    }

    fn condition_turned(
        &mut self,
        begin: usize,
        end: usize,
        branches: Branches,
        is_turned: bool,
    ) -> Result<(), Fault<'a>> {
        if !is_turned {
            return self.condition(begin, end, branches);
        }
        let turned = Branches {
            on_true: branches.on_false,
            on_false: branches.on_true,
            falls_true: !branches.falls_true,
        };
        self.condition(begin, end, turned)
    }

    /// Puts a part off to the method's end.
    fn defer_part(&mut self, frame: IfFrame<'a>) -> Result<(), Fault<'a>> {
        let (begin, end, code) = match frame.then {
            Part::Block { begin, end, .. } => (begin, end, None),
            Part::Fail(code) => (frame.item, frame.item, Some(code)),
            Part::Call { .. } | Part::Break => return Err(Fault::internal()),
        };
        self.defer_block(frame.on_true, begin, end, code, None);
        Ok(())
    }

    /// Puts a block off to the method's end, with the names that it sees, and one more if one is told.
    pub fn defer_block(
        &mut self,
        label: LabelId,
        begin: usize,
        end: usize,
        code: Option<i64>,
        more: Option<Local<'a>>,
    ) {
        let (bound, scopes) = (self.bound_copy(more), self.scopes_copy(more.is_some()));
        let deferred = Deferred {
            label,
            begin,
            end,
            bound,
            scopes,
            top: self.top,
            item: self.item,
            code,
        };
        let is_done = self.deferred.push_back(deferred).is_ok();
        self.want_memory(is_done);
    }

    fn bound_copy(&mut self, more: Option<Local<'a>>) -> Vec<Bound<'a>> {
        let mut copy: Vec<Bound<'a>> = Vec::new(self.alloc);
        let mut is_done = true;
        for it in &self.bound {
            is_done = copy.push(*it).is_ok() && is_done;
        }
        if let Some(local) = more {
            let bound = Bound::Local(local, self.code.lines.len());
            is_done = copy.push(bound).is_ok() && is_done;
        }
        self.want_memory(is_done);
        copy
    }

    fn scopes_copy(&mut self, has_more: bool) -> Vec<Scope> {
        let mut copy: Vec<Scope> = Vec::new(self.alloc);
        let mut is_done = true;
        for it in &self.scopes {
            is_done = copy.push(*it).is_ok() && is_done;
        }
        if has_more {
            let scope = Scope {
                begin: self.bound.len(),
                top: self.top,
                from: self.code.lines.len(),
            };
            is_done = copy.push(scope).is_ok() && is_done;
        }
        self.want_memory(is_done);
        copy
    }

    fn begin_parts(&mut self, frame: IfFrame<'a>) -> Result<(), Fault<'a>> {
        let is_open = if frame.is_then_first {
            self.enter_then(frame)?
        } else {
            self.enter_other(frame)?
        };
        if is_open {
            Ok(())
        } else {
            self.first_done(frame)
        }
    }

    /// The way on which it holds begins. Whether its statements are still to be translated.
    fn enter_then(&mut self, frame: IfFrame<'a>) -> Result<bool, Fault<'a>> {
        if frame.local.is_none() {
            self.place(frame.on_true, None)?;
        }
        if !self.is_reached() {
            return Ok(false);
        }
        let token = self.source.token(frame.item);
        self.settle(token)?;
        self.open();
        if let Some(local) = frame.local {
            self.set_scope_top(frame.top);
            self.bind(local)?;
        }
        if let Part::Block { begin, end, .. } = frame.then {
            self.push_region(Region {
                at: begin,
                end,
                after: After::Then(frame),
            });
            return Ok(true);
        }
        self.simple_part(frame, token)?;
        Ok(false)
    }

    /// A part that has no statements.
    fn simple_part(&mut self, frame: IfFrame<'a>, token: u32) -> Result<(), Fault<'a>> {
        match frame.then {
            Part::Block { .. } => return Err(Fault::internal()),
            Part::Call { begin, end } => self.call_alone(begin, end)?,
            Part::Break => self.leave_loop(frame.item, token, true)?,
            Part::Fail(code) => self.fail(code, token)?,
        }
        self.settle(token)?;
        self.shut(token)?;
        self.end_way(self.edge(frame.item, Turn::Then), token)
    }

    fn set_scope_top(&mut self, top: usize) {
        let count = self.scopes.len();
        if 0 < count {
            self.scopes[count - 1].top = top;
        }
    }

    /// The way on which it does not hold begins. Whether its statements are still to be translated.
    fn enter_other(&mut self, frame: IfFrame<'a>) -> Result<bool, Fault<'a>> {
        self.place(frame.on_false, None)?;
        if !self.is_reached() {
            return Ok(false);
        }
        let token = self.source.token(frame.item);
        self.settle(token)?;
        if let Some(Part::Block { begin, end, .. }) = frame.other {
            self.open();
            self.push_region(Region {
                at: begin,
                end,
                after: After::Else(frame),
            });
            return Ok(true);
        }
        self.end_way(self.edge(frame.item, Turn::Else), token)?;
        Ok(false)
    }

    /// The statements of a way have been translated.
    pub fn end_then(&mut self, frame: IfFrame<'a>) -> Result<(), Fault<'a>> {
        self.end_part(frame, frame.then, Turn::Then)?;
        if frame.is_then_first {
            self.first_done(frame)
        } else {
            self.second_done(frame)
        }
    }

    pub fn end_else(&mut self, frame: IfFrame<'a>) -> Result<(), Fault<'a>> {
        self.end_part(frame, frame.other.ok_or(Fault::internal())?, Turn::Else)?;
        if frame.is_then_first {
            self.second_done(frame)
        } else {
            self.first_done(frame)
        }
    }

    fn end_part(&mut self, frame: IfFrame<'a>, part: Part, turn: Turn) -> Result<(), Fault<'a>> {
        let last = match part {
            Part::Block { last, .. } => last,
            _ => frame.item,
        };
        let token = self.source.token(last);
        self.shut(token)?;
        self.item = frame.item;
        self.token = token;
        self.end_way(self.edge(frame.item, turn), token)
    }

    /// The turns of the way that comes first and of the other.
    fn turns(&self, frame: IfFrame<'a>) -> (Edge, Edge) {
        let then = self.edge(frame.item, Turn::Then);
        let other = self.edge(frame.item, Turn::Else);
        if frame.is_then_first {
            (then, other)
        } else {
            (other, then)
        }
    }

    fn first_done(&mut self, frame: IfFrame<'a>) -> Result<(), Fault<'a>> {
        let (first, second) = self.turns(frame);
        if !frame.has_other && frame.is_then_first {
            self.place_among(frame.end, Some(first), Some(second))?;
            return self.if_done(frame);
        }
        self.jump(frame.end, self.source.token(frame.item), Some(first));
        let is_open = if frame.is_then_first {
            self.enter_other(frame)?
        } else {
            self.enter_then(frame)?
        };
        if is_open {
            Ok(())
        } else {
            self.second_done(frame)
        }
    }

    fn second_done(&mut self, frame: IfFrame<'a>) -> Result<(), Fault<'a>> {
        let (_, second) = self.turns(frame);
        self.place(frame.end, Some(second))?;
        self.if_done(frame)
    }

    fn if_done(&mut self, frame: IfFrame<'a>) -> Result<(), Fault<'a>> {
        self.settle(self.source.token(frame.item))?;
        self.end_statement(self.source.token(frame.item))
    }

    /// Whether no way leads out of a part.
    pub fn part_ends(&self, part: Part) -> Result<bool, Fault<'a>> {
        match part {
            Part::Block { begin, end, .. } => self.block_ends(begin, end),
            Part::Fail(_) => Ok(true),
            Part::Call { .. } | Part::Break => Ok(false),
        }
    }

    /// Leaves with a code.
    pub fn fail(&mut self, code: i64, token: u32) -> Result<(), Fault<'a>> {
        let number = self.reserve(1, token)?;
        self.load_number(number, code, token);
        self.leave_with(number, token)
    }
}
