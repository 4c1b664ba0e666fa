//! The items of a source, with the end of each part.
use crate::fault::{Fault, FaultKind};
use aom_source_syntax::{Action, Item};
use aom_source_tokens::{Kind, Tokens};
use std::alloc::Global;

/// The tokens and items of a source. The item that begins a part knows the one that ends it, and the other way round.
#[derive(Drop)]
pub struct Source<'t, 'a> {
    pub tokens: &'t Tokens<'a>,
    pub items: &'t [Item],
    partners: Vec<usize>,
    /// The items at which assertions begin, in their order.
    assertions: Vec<usize>,
}

/// Whether an item begins or ends a part.
#[derive(Clone, Copy, PartialEq, Eq, Debug)]
enum Side {
    Begins,
    Ends,
    Alone,
}

fn side_of(action: Action) -> Side {
    if begins(action) {
        Side::Begins
    } else if ends(action) {
        Side::Ends
    } else {
        Side::Alone
    }
}

fn begins(action: Action) -> bool {
    begins_declaration(action) || begins_statement(action) || begins_expression(action)
}

fn begins_declaration(action: Action) -> bool {
    matches!(
        action,
        Action::ConstBegin
            | Action::EnumBegin
            | Action::PlainClass
            | Action::TimerClass
            | Action::ActiveClass
            | Action::TokenClass
            | Action::SessionClass
            | Action::ServerClass
            | Action::NativeClass
            | Action::Function
            | Action::Undo
            | Action::Main
            | Action::Construct
            | Action::Destruct
            | Action::Run
            | Action::CancelMethod
            | Action::Accept
            | Action::Error
            | Action::Service
            | Action::MessageElse
            | Action::BlockBegin
    )
}

fn begins_statement(action: Action) -> bool {
    matches!(
        action,
        Action::Let
            | Action::Trap
            | Action::If
            | Action::IfLet
            | Action::Test
            | Action::Loop
            | Action::While
            | Action::For
            | Action::ReturnBegin
            | Action::LeaveBegin
            | Action::LeaveIfBegin
            | Action::PrintBegin
            | Action::EnlistBegin
            | Action::AfterBegin
            | Action::ResumeBegin
            | Action::AssertBegin
            | Action::RequestBegin
            | Action::ReplyBegin
            | Action::DeferBegin
            | Action::Assign
            | Action::Do
    )
}

fn begins_expression(action: Action) -> bool {
    matches!(
        action,
        Action::ConstantBegin
            | Action::Or
            | Action::And
            | Action::New
            | Action::MaybeNew
            | Action::Ask
            | Action::SuperConstruct
            | Action::SuperCall
            | Action::SelfCall
            | Action::PlainCall
            | Action::Dotted
            | Action::MaybeCall
            | Action::Argument
    )
}

fn ends(action: Action) -> bool {
    ends_declaration_or_expression(action) || ends_statement(action)
}

fn ends_declaration_or_expression(action: Action) -> bool {
    matches!(
        action,
        Action::Const
            | Action::EnumEnd
            | Action::ClassEnd
            | Action::MethodEnd
            | Action::OwnMessage
            | Action::BlockEnd
            | Action::ConstantEnd
            | Action::OrEnd
            | Action::AndEnd
            | Action::NewEnd
            | Action::AskEnd
            | Action::CallEnd
            | Action::DottedEnd
            | Action::ArgumentEnd
    )
}

fn ends_statement(action: Action) -> bool {
    matches!(
        action,
        Action::LetEnd
            | Action::TrapEnd
            | Action::IfEnd
            | Action::IfLetEnd
            | Action::TestEnd
            | Action::LoopEnd
            | Action::ReturnValue
            | Action::Leave
            | Action::LeaveIf
            | Action::Print
            | Action::Enlist
            | Action::After
            | Action::Resume
            | Action::Assert
            | Action::Request
            | Action::Reply
            | Action::Defer
            | Action::AssignEnd
            | Action::DoEnd
    )
}

impl<'t, 'a> Source<'t, 'a> {
    /// The items with their partners. A `let` of a trap ends with the trap.
    pub fn of(
        alloc: Global,
        tokens: &'t Tokens<'a>,
        items: &'t [Item],
    ) -> Result<Source<'t, 'a>, Fault<'a>> {
        let mut partners = Vec::with_capacity(alloc, items.len())?;
        let mut assertions: Vec<usize> = Vec::new(alloc);
        let mut open: Vec<usize> = Vec::new(alloc);
        for at in 0..items.len() {
            partners.push(at)?;
            let action = items[at].action;
            if action == Action::AssertBegin {
                assertions.push(at)?;
            }
            match side_of(action) {
                Side::Begins => open.push(at)?,
                Side::Ends => {
                    let begin = open.pop().ok_or(Fault::internal())?;
                    couple(&mut partners, begin, at);
                    if action == Action::TrapEnd && is_let(items, &open) {
                        let begin = open.pop().ok_or(Fault::internal())?;
                        if begin < partners.len() {
                            partners[begin] = at;
                        }
                    }
                }
                Side::Alone => {}
            }
        }
        Ok(Source {
            tokens,
            items,
            partners,
            assertions,
        })
    }

    /// What the item at a place is. Behind the last it is the program's end.
    pub fn action(&self, at: usize) -> Action {
        match self.items.get(at) {
            Some(item) => item.action,
            None => Action::ProgramEnd,
        }
    }

    /// The token of the item at a place.
    pub fn token(&self, at: usize) -> u32 {
        match self.items.get(at) {
            Some(item) => item.token,
            None => 0,
        }
    }

    /// The other end of the part that the item at a place begins or ends.
    pub fn partner(&self, at: usize) -> usize {
        match self.partners.get(at) {
            Some(partner) => *partner,
            None => at,
        }
    }

    /// How many assertions begin before the item at a place.
    pub fn assertions_before(&self, at: usize) -> usize {
        self.assertions.partition_point(|begin| *begin < at)
    }

    /// The name at the item at a place.
    pub fn name(&self, at: usize) -> Result<&'a [u8], Fault<'a>> {
        match self.tokens.get(self.token(at) as usize).kind {
            Kind::Name(name) => Ok(name),
            _ => Err(Fault::internal()),
        }
    }

    /// The number at the item at a place.
    pub fn number(&self, at: usize) -> Result<u32, Fault<'a>> {
        match self.tokens.get(self.token(at) as usize).kind {
            Kind::Number(number) => Ok(number),
            _ => Err(Fault::internal()),
        }
    }

    /// The place of the next item of a kind, from a place on.
    pub fn find(&self, action: Action, from: usize) -> Result<usize, Fault<'a>> {
        for at in from..self.items.len() {
            if self.action(at) == action {
                return Ok(at);
            }
        }
        Err(Fault::internal())
    }

    /// A fault at the item at a place.
    pub fn fault(&self, kind: FaultKind, at: usize) -> Fault<'a> {
        Fault::at(kind, self.token(at))
    }
}

fn couple(partners: &mut Vec<usize>, begin: usize, end: usize) {
    if begin < partners.len() && end < partners.len() {
        partners[begin] = end;
        partners[end] = begin;
    }
}

fn is_let(items: &[Item], open: &Vec<usize>) -> bool {
    match open.last() {
        Some(at) => match items.get(*at) {
            Some(item) => item.action == Action::Let,
            None => false,
        },
        None => false,
    }
}
