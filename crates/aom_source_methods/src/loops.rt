//! Loops: each says its rounds. What a round may change is not known as a round begins.
use crate::generator::{After, Generator, Local, Region, three, two};
use crate::ifs::Part;
use aom_source_code::{LabelId, Operand, Operation};
use aom_source_program::{Fault, FaultKind, ValueKind};
use aom_source_states::{Edge, Fill, Owner, OwnerId, Site, SiteKind, State, Status, Turn};
use aom_source_syntax::Action;

/// A loop that is open: where its rounds end and where it ends, and how many blocks lie around its own.
#[derive(Clone, Copy)]
pub struct OpenLoop {
    pub next: LabelId,
    pub end: LabelId,
    pub scopes: usize,
}

/// A loop on its way.
#[derive(Drop)]
pub struct LoopFrame<'a> {
    pub item: usize,
    pub level: i64,
    pub head: LabelId,
    pub next: LabelId,
    pub end: LabelId,
    /// The number of its notes.
    pub notes: usize,
    /// What was known as the first round began.
    pub start: State,
    /// The local that counts.
    pub counter: Option<Local<'a>>,
    /// The item at which its block ends.
    pub last: usize,
}

/// The items of a loop: its rounds, its block, and the first number of what it counts.
#[derive(Clone, Copy)]
struct LoopItems {
    rounds: i64,
    block: usize,
    first: i64,
}

impl<'s, 't, 'a> Generator<'s, 't, 'a> {
    fn constant_at(&self, at: usize) -> Result<i64, Fault<'a>> {
        self.program.constants.constant(self.alloc, self.source, at)
    }

    fn loop_items(&self, at: usize) -> Result<LoopItems, Fault<'a>> {
        let next = at.saturating_add(1);
        if self.source.action(at) == Action::For {
            let first = next.saturating_add(1);
            let last = self.source.partner(first).saturating_add(2);
            let (from, to) = (self.constant_at(first)?, self.constant_at(last)?);
            return Ok(LoopItems {
                rounds: to.saturating_sub(from),
                block: self.source.partner(last).saturating_add(2),
                first: from,
            });
        }
        let rounds = if self.source.action(at) == Action::While {
            self.source.partner(next).saturating_add(1)
        } else {
            next
        };
        Ok(LoopItems {
            rounds: self.constant_at(rounds)?,
            block: self.source.partner(rounds).saturating_add(2),
            first: 0,
        })
    }

    /// A loop begins.
    pub fn begin_loop(&mut self, at: usize) -> Result<(), Fault<'a>> {
        let items = self.loop_items(at)?;
        if items.rounds < 1 || 65535 < items.rounds {
            return Err(self.fault(FaultKind::BadRounds, at));
        }
        if 4 <= self.loops.len() {
            return Err(self.fault(FaultKind::LoopsTooDeep, at));
        }
        let token = self.source.token(at);
        self.open();
        let counter = self.counter(at, items.first)?;
        let level = self.loops.len() as i64;
        let notes = self.notes.loop_at(at)?;
        self.unguard_widened(notes, token)?;
        let operands = two(Operand::Number(level), Operand::Number(items.rounds));
        self.emit(Operation::Loop, operands, token);
        self.widen_start(at, notes)?;
        let labels = (self.new_label(), self.new_label(), self.new_label());
        self.code.place(labels.0);
        let start = self.state_copy();
        let frame = LoopFrame {
            item: at,
            level,
            head: labels.0,
            next: labels.1,
            end: labels.2,
            notes,
            start,
            counter,
            last: self.source.partner(items.block),
        };
        self.begin_rounds(frame, items.block)
    }

    /// The local that counts, and its first number.
    fn counter(&mut self, at: usize, first: i64) -> Result<Option<Local<'a>>, Fault<'a>> {
        if self.source.action(at) != Action::For {
            return Ok(None);
        }
        let named = at.saturating_add(1);
        let token = self.source.token(named);
        let local = Local {
            name: self.text(named),
            id: OwnerId::local(named),
            kind: ValueKind::Word,
            register: self.reserve(1, token)?,
            token,
        };
        self.load_number(local.register, first, token);
        self.bind(local)?;
        Ok(Some(local))
    }

    /// What may be null as a round begins cannot be guarded there.
    fn unguard_widened(&mut self, notes: usize, token: u32) -> Result<(), Fault<'a>> {
        for id in &self.widened_owners(notes)? {
            self.unguard(*id, token)?;
        }
        Ok(())
    }

    fn widened_owners(&self, notes: usize) -> Result<Vec<OwnerId>, Fault<'a>> {
        let mut owners: Vec<OwnerId> = Vec::new(self.alloc);
        if let Some(found) = self.notes.of_loop(notes) {
            for id in &found.owners {
                owners.push(*id)?;
            }
        }
        Ok(owners)
    }

    /// What the rounds may change is not known as the first begins.
    fn widen_start(&mut self, at: usize, notes: usize) -> Result<(), Fault<'a>> {
        for id in &self.widened_owners(notes)? {
            self.widen_owner_here(*id, at);
        }
        let Some(found) = self.notes.of_loop(notes) else {
            return Err(Fault::internal());
        };
        let (fields, request) = (found.fields, found.request);
        for field in 0..8 {
            if fields[field] {
                self.set_fill(field, Fill::Perhaps);
            }
        }
        self.set_request(self.request_states().or(request));
        Ok(())
    }

    fn widen_owner_here(&mut self, id: OwnerId, at: usize) {
        if let Some(owner) = self.known_here(id) {
            let widened = Owner {
                status: Status::Maybe,
                is_guarded: false,
                site: Site {
                    kind: SiteKind::Loop,
                    item: at,
                },
                ..owner
            };
            self.set_known(widened);
        }
    }

    fn begin_rounds(&mut self, frame: LoopFrame<'a>, block: usize) -> Result<(), Fault<'a>> {
        let (at, last) = (frame.item, frame.last);
        let open = OpenLoop {
            next: frame.next,
            end: frame.end,
            scopes: self.scopes.len(),
        };
        self.push_region(Region {
            at: block.saturating_add(1),
            end: last,
            after: After::Loop(frame),
        });
        self.loops.push(open)?;
        self.open();
        if self.source.action(at) == Action::While {
            let test = at.saturating_add(1);
            self.item = test;
            let exit = self.frame(test, Part::Break, None)?;
            let end = self.source.partner(test);
            self.begin_test(exit, test.saturating_add(1), end, true)?;
        }
        Ok(())
    }

    /// Out of the innermost loop, or on to its next round.
    pub fn leave_loop(&mut self, item: usize, token: u32, is_break: bool) -> Result<(), Fault<'a>> {
        let Some(open) = self.loops.last().copied() else {
            return Err(Fault::at(FaultKind::NoLoop, token));
        };
        let begin = match self.scopes.get(open.scopes) {
            Some(scope) => scope.begin,
            None => self.bound.len(),
        };
        self.drop_bound(begin, token, None)?;
        self.forget_bound(begin);
        let edge = self.edge(item, Turn::Out);
        self.end_way(edge, token)?;
        let label = if is_break { open.end } else { open.next };
        self.jump(label, token, Some(edge));
        Ok(())
    }

    /// The statements of a loop have been translated.
    pub fn end_loop(&mut self, frame: &LoopFrame<'a>) -> Result<(), Fault<'a>> {
        let token = self.source.token(frame.last);
        self.end_round(frame, token)?;
        let operands = two(Operand::Number(frame.level), Operand::Label(frame.head));
        self.emit(Operation::Next, operands, token);
        let out = self.edge(frame.item, Turn::Out);
        self.end_way(out, token)?;
        self.place(frame.end, Some(out))?;
        self.shut(token)?;
        self.end_statement(self.source.token(frame.item))
    }

    /// The end of a round: the ways to it come together, and what the round leaves behind is compared.
    fn end_round(&mut self, frame: &LoopFrame<'a>, token: u32) -> Result<(), Fault<'a>> {
        self.shut(token)?;
        self.item = frame.item;
        self.token = token;
        let end = self.edge(frame.item, Turn::End);
        self.end_way(end, token)?;
        self.place(frame.next, Some(end))?;
        let _ = self.loops.pop();
        if self.is_reached() {
            let round = self.edge(frame.item, Turn::Round);
            self.end_way(round, token)?;
            self.count(frame, token)?;
            self.compare_rounds(frame, round)?;
        }
        Ok(())
    }

    fn count(&mut self, frame: &LoopFrame<'a>, token: u32) -> Result<(), Fault<'a>> {
        let Some(counter) = frame.counter else {
            return Ok(());
        };
        let one = self.reserve(1, token)?;
        self.load_number(one, 1, token);
        let own = Operand::Register(counter.register);
        self.emit(
            Operation::Add,
            three(own, own, Operand::Register(one)),
            token,
        );
        Ok(())
    }

    /// What a round leaves behind has to be what the next one begins with.
    fn compare_rounds(&mut self, frame: &LoopFrame<'a>, round: Edge) -> Result<(), Fault<'a>> {
        for at in 0..frame.start.owners.len() {
            let before = frame.start.owners[at];
            self.compare_owner(frame, round, before)?;
        }
        for field in 0..self.field_count().min(8) {
            let (before, after) = (frame.start.fill(field), self.fill(field));
            if before != Fill::Perhaps && before != after {
                self.notes.widen_field(frame.notes, field);
            }
        }
        let request = self.request_states();
        if !request.is_within(frame.start.request) {
            self.notes.widen_request(frame.notes, request);
        }
        Ok(())
    }

    fn compare_owner(
        &mut self,
        frame: &LoopFrame<'a>,
        round: Edge,
        before: Owner,
    ) -> Result<(), Fault<'a>> {
        let after = self.owner(before.id);
        let name = self.owner_name(before.id);
        if before.status.is_live() && after.status == Status::Gone {
            return Err(self.fault(FaultKind::MovedInLoop, frame.item).about(name));
        }
        if before.status == Status::Gone && after.status.is_live() {
            self.notes.delete(round, before.id)?;
        } else if before.status.is_live()
            && after.status.is_live()
            && before.is_guarded != after.is_guarded
        {
            if after.is_guarded {
                self.notes.unguard(round, before.id)?;
            } else if !self.notes.is_new() {
                return Err(self.fault(FaultKind::GuardOrder, frame.item).about(name));
            }
        }
        let may_be_null = before.status == Status::Owns
            && matches!(after.status, Status::Maybe | Status::Null)
            || before.status == Status::Null && after.status.is_live();
        if may_be_null {
            self.notes.widen_owner(frame.notes, before.id)?;
        }
        Ok(())
    }
}
