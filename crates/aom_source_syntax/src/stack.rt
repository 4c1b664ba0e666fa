//! What is still to come.
ghost use Rattle.std.specs.Prelude.{◌≡◌, [], ◌++◌, map, reverse, OnOk, IfNone, option_to_list};
ghost use Rattle.aom_source_syntax.specs.Reading.{waiting};

use crate::symbol::Symbol;
use std::alloc::{AllocError, Global};
use std::marker::Model;

/// A symbol that is still to come, and the number of the first token of its production.
#[derive(Clone, Copy)]
pub struct Waiting {
    pub symbol: Symbol,
    pub token: u32,
}

/// The symbols that are still to come. Contracts see the next one first.
#[derive(Drop)]
pub struct Stack {
    waiting: Vec<Waiting>,
}

impl Model for Stack {
    ghost use Rattle.std.specs.Prelude.{List, reverse};
    ghost use Rattle.aom_source_syntax.specs.declared.stack.Waiting.{Waiting};

    ghost Value = { List Waiting };

    ghost view = { λ s. reverse s.waiting.items };
}

impl Stack {
    pub fn new(alloc: Global) -> Stack
        ensures { result ≡ [] }
    {
        Stack {
            waiting: Vec::new(alloc),
        }
    }

    /// The next one, which waits no more.
    pub fn pop(&mut self) -> Option<Waiting>
        ensures next { self.old ≡ option_to_list result ++ self.new }
        ensures none { IfNone result (self.old ≡ []) }
    {
        self.waiting.pop()
    }

    /// The symbols of a production that begins at this token come next.
    pub fn push(&mut self, symbols: &[Symbol], token: u32) -> Result<(), AllocError>
        ensures { OnOk result (self.new ≡ map (waiting token) symbols.now ++ self.old) }
    {
        push_reversed(&mut self.waiting, symbols, token)
    }
}

/// Adds the symbols, the first last.
fn push_reversed(stack: &mut Vec<Waiting>, symbols: &[Symbol], token: u32) -> Result<(), AllocError>
    ensures { OnOk result (reverse stack.new.items ≡ map (waiting token) symbols.now ++ reverse stack.old.items) }
{
    let mut count = symbols.len();
    while count > 0 {
        count -= 1;
        stack.push(Waiting {
            symbol: symbols[count],
            token,
        })?;
    }
    Ok(())
}
