//! Traps: a call whose leave is caught.
use crate::generator::{After, Generator, Local, Region, three, two};
use aom_source_code::{LabelId, Operand, Operation};
use aom_source_program::{Fault, FaultKind, ValueKind};
use aom_source_states::{OwnerId, SiteKind, Status, Turn};
use aom_source_syntax::Action;

/// A `catch` on its way.
#[derive(Clone, Copy)]
pub struct CatchFrame<'a> {
    pub item: usize,
    /// Where nothing was caught.
    pub returned: LabelId,
    /// The registers that stay taken behind it.
    pub top: usize,
    /// The item at which its block ends.
    pub last: usize,
    pub code: Local<'a>,
}

/// The items of a trap.
#[derive(Clone, Copy)]
struct TrapItems {
    /// Its call.
    begin: usize,
    end: usize,
    /// The name of the local for the result, and for the code.
    named: Option<usize>,
    coded: usize,
    /// The block behind `catch`.
    block: Option<usize>,
}

impl<'s, 't, 'a> Generator<'s, 't, 'a> {
    /// A trap, with the item of the name for its result, if there is one.
    pub fn begin_trap(&mut self, at: usize, named: Option<usize>) -> Result<(), Fault<'a>> {
        let items = self.trap_items(at, named)?;
        let gives = self.trapped_kind(items, at)?;
        let token = self.source.token(at);
        let register = self.reserve(2, token)?;
        if named.is_some() && gives == ValueKind::Nothing {
            return Err(self.fault(FaultKind::WrongKind, at));
        }
        if named.is_none() && gives.thing().is_some() {
            return Err(self.fault(FaultKind::OwnerDropped, at));
        }
        self.call_trapped(items.begin, items.end, register)?;
        let local = match named {
            Some(named) => Some(self.trap_local(named, gives, register)?),
            None => None,
        };
        let code = Local {
            name: self.text(items.coded),
            id: OwnerId::local(items.coded),
            kind: ValueKind::Word,
            register: register.saturating_add(1),
            token: self.source.token(items.coded),
        };
        self.top = register.saturating_add(2);
        let Some(block) = items.block else {
            self.bind(code)?;
            return self.end_statement(token);
        };
        let kept = if named.is_some() {
            register.saturating_add(1)
        } else {
            register
        };
        let frame = CatchFrame {
            item: at,
            returned: self.new_label(),
            top: kept,
            last: self.source.partner(block),
            code,
        };
        match (local, gives) {
            (
                Some(local),
                ValueKind::Owner {
                    is_maybe: false,
                    ..
                },
            ) => { self.catch_null(frame, local, block) }
            _ => self.catch_code(frame, block),
        }
    }

    fn trap_items(&self, at: usize, named: Option<usize>) -> Result<TrapItems, Fault<'a>> {
        let begin = at.saturating_add(1);
        let end = self.source.partner(begin).saturating_add(1);
        match self.source.action(end) {
            Action::CatchName => Ok(TrapItems {
                begin,
                end,
                named,
                coded: end,
                block: Some(end.saturating_add(1)),
            }),
            Action::TrapEnd => Ok(TrapItems {
                begin,
                end,
                named,
                coded: at.saturating_sub(1),
                block: None,
            }),
            _ => Err(self.fault(FaultKind::WrongTrap, at)),
        }
    }

    /// What the call under a trap gives.
    fn trapped_kind(&self, items: TrapItems, at: usize) -> Result<ValueKind, Fault<'a>> {
        let method = match self.source.action(items.begin) {
            Action::New => {
                let class = self
                    .program
                    .class_at(self.source, items.begin.saturating_add(1))?;
                self.helpers.maker(class)?
            }
            Action::PlainCall | Action::SelfCall | Action::Dotted | Action::SuperConstruct => {
                self.callee(items.begin)?.1
            }
            _ => return Err(self.fault(FaultKind::WrongTrap, at)),
        };
        let _ = items.named;
        Ok(self.gives(method))
    }

    /// The local for what a trapped call gives.
    fn trap_local(
        &mut self,
        named: usize,
        gives: ValueKind,
        register: usize,
    ) -> Result<Local<'a>, Fault<'a>> {
        let kind = match gives.thing() {
            Some(thing) => ValueKind::Owner {
                thing,
                is_maybe: true,
            },
            None => ValueKind::Word,
        };
        let local = Local {
            name: self.text(named),
            id: OwnerId::local(named),
            kind,
            register,
            token: self.source.token(named),
        };
        if kind != ValueKind::Word {
            self.set_owner(local, Status::Maybe, SiteKind::Trap, named);
        }
        self.bind(local)?;
        Ok(local)
    }

    /// What gives an owner surely gives null where it was caught.
    fn catch_null(
        &mut self,
        frame: CatchFrame<'a>,
        local: Local<'a>,
        block: usize,
    ) -> Result<(), Fault<'a>> {
        let token = self.source.token(frame.item);
        let caught = self.new_label();
        let operands = two(Operand::Register(local.register), Operand::Label(caught));
        self.emit(Operation::JumpNull, operands, token);
        let null = self.with_status(local, Status::Null);
        self.lead(caught, null, None);
        self.set_owner(local, Status::Owns, SiteKind::Test, frame.item);
        self.settle(token)?;
        let returned = self.edge(frame.item, Turn::Returned);
        self.end_way(returned, token)?;
        if self.loops.is_empty() && self.block_ends(block.saturating_add(1), frame.last)? {
            let begin = block.saturating_add(1);
            self.defer_block(caught, begin, frame.last, None, Some(frame.code));
            self.end_statement(token)?;
            return Ok(());
        }
        self.jump(frame.returned, token, Some(returned));
        self.begin_catch(frame, caught, block)
    }

    /// What gives no owner has left where the code is not 0.
    fn catch_code(&mut self, frame: CatchFrame<'a>, block: usize) -> Result<(), Fault<'a>> {
        let token = self.source.token(frame.item);
        let (caught, good) = (self.new_label(), self.new_label());
        let zero = self.reserve(1, token)?;
        self.load_number(zero, 0, token);
        let returned = self.edge(frame.item, Turn::Returned);
        let is_noted = self.notes.is_noted(returned);
        let to = if is_noted { good } else { frame.returned };
        let operands = three(
            Operand::Register(frame.code.register),
            Operand::Register(zero),
            Operand::Label(to),
        );
        self.emit(Operation::JumpEqual, operands, token);
        let state = self.state_copy();
        let edge = if is_noted { None } else { Some(returned) };
        self.lead(to, state, edge);
        self.top = frame.code.register.saturating_add(1);
        if is_noted {
            self.jump(caught, token, None);
            self.place(good, None)?;
            self.end_way(returned, token)?;
            self.jump(frame.returned, token, Some(returned));
        }
        self.begin_catch(frame, caught, block)
    }

    fn begin_catch(
        &mut self,
        frame: CatchFrame<'a>,
        caught: LabelId,
        block: usize,
    ) -> Result<(), Fault<'a>> {
        self.place(caught, None)?;
        self.open();
        self.bind(frame.code)?;
        self.push_region(Region {
            at: block.saturating_add(1),
            end: frame.last,
            after: After::Catch(frame),
        });
        Ok(())
    }

    /// The statements of a `catch` have been translated.
    pub fn end_catch(&mut self, frame: CatchFrame<'a>) -> Result<(), Fault<'a>> {
        let token = self.source.token(frame.last);
        self.shut(token)?;
        self.item = frame.item;
        self.token = token;
        let caught = self.edge(frame.item, Turn::Then);
        self.end_way(caught, token)?;
        self.place(frame.returned, Some(caught))?;
        self.top = frame.top;
        self.end_statement(self.source.token(frame.item))
    }
}
