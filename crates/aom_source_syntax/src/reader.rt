//! The reader: what is still to come, and the items of what has been read.
ghost use Rattle.std.specs.Prelude.{◌≡◌, ◌≤◌, ◌<◌, ◌+◌, ◌^◌, [], ◌∷◌, ◌++◌, length, OnOk, IfOk, IfErr};
ghost use Rattle.aom_source_syntax.specs.Programs.{classes_of, IsProgram};
ghost use Rattle.aom_source_syntax.specs.Reading.{Stands, expecting, Refuses, RefusesNoProgram, IsOnlyProgram, IsShallow, IsChosen, IsRefused};
ghost use Rattle.aom_source_syntax.specs.declared.fault.SyntaxFaultKind.TheVariants.{OutOfMemory};

use crate::cursor::{Cursor, class_at};
use crate::declarations::DeclarationPart;
use crate::grammar::production;
use crate::stack::Stack;
use crate::symbol::{Part, Symbol};
use crate::{Class, Item, SyntaxFault, SyntaxFaultKind};
use aom_source_tokens::Tokens;
use std::alloc::{AllocError, Global};

/// What has been read left these items, and this is still to come.
#[derive(Drop)]
struct Reader {
    stack: Stack,
    items: Vec<Item>,
}

/// The items of a program.
pub fn read_program(alloc: Global, tokens: &Tokens<'_>) -> Result<Vec<Item>, SyntaxFault>
    ensures program { IfOk result (λ items. IsProgram (classes_of tokens.now.tokens) items.items) }
    ensures shallow { OnOk result (IsShallow (classes_of tokens.now.tokens)) }
    ensures refused { IfErr result (λ f. Refuses (classes_of tokens.now.tokens) f) }
    ensures complete { IfErr result (λ f. RefusesNoProgram (classes_of tokens.now.tokens) f) }
    ensures only { IfOk result (λ items. IsOnlyProgram (classes_of tokens.now.tokens) items.items) }
{
    match classes_of(alloc, tokens) {
        Ok(text) => read(alloc, &text),
        Err(_) => Err(SyntaxFault {
            token: 0,
            kind: SyntaxFaultKind::OutOfMemory,
        }),
    }
}

/// The classes of the tokens, and of the end.
fn classes_of(alloc: Global, tokens: &Tokens<'_>) -> Result<Vec<Class>, AllocError>
    ensures classes { IfOk result (λ v. v.items ≡ classes_of tokens.now.tokens) }
    ensures few { IfOk result (λ v. length v.items ≤ 2 ^ 20 + 1) }
{
    let mut classes = Vec::new(alloc);
    for at in 0..tokens.len() {
        classes.push(Class::of(tokens.get(at).kind))?;
    }
    classes.push(Class::End)?;
    Ok(classes)
}

/// The items of a program of which each token is of the class that the text has there.
fn read(alloc: Global, text: &[Class]) -> Result<Vec<Item>, SyntaxFault>
    requires { length text.now < 2 ^ 31 }
    ensures program { IfOk result (λ items. IsProgram text.now items.items) }
    ensures shallow { OnOk result (IsShallow text.now) }
    ensures refused { IfErr result (λ f. Refuses text.now f) }
{
    let mut reader = Reader::of(alloc, text)?;
    let mut cursor = Cursor::FIRST;
    while let Some(class) = reader.expected(text, cursor.at)? {
        cursor = cursor.pass(text, class)?;
    }
    if (cursor.at as usize) < text.len() {
        return Err(SyntaxFault {
            token: cursor.at,
            kind: SyntaxFaultKind::Token(Class::End),
        });
    }
    Ok(reader.items)
}

impl Reader {
    /// A program is still to come.
    fn of(alloc: Global, text: &[Class]) -> Result<Reader, SyntaxFault>
        ensures stands { IfOk result (λ r. Stands text.now r.items.items r.stack 0) }
        ensures refused { IfErr result (λ f. f ≡ record { token = 0; kind = OutOfMemory }) }
    {
        let mut stack = Stack::new(alloc);
        match stack.push(
            &[Symbol::Part(Part::Declaration(DeclarationPart::Program))],
            0,
        ) {
            Ok(()) => Ok(Reader {
                stack,
                items: Vec::new(alloc),
            }),
            Err(_) => Err(out_of_memory(0)),
        }
    }

    /// Does what comes before the next token, and says of which class that has to be: none at the end of a program.
    fn expected(&mut self, text: &[Class], at: u32) -> Result<Option<Class>, SyntaxFault>
        requires { Stands text.now self.old.items.items self.old.stack at }
        ensures stands { IfOk result (λ class. Stands text.now self.new.items.items (expecting class self.new.stack) at) }
        ensures refused { IfErr result (λ f. Refuses text.now f) }
    {
        while let Some(waiting) = self.stack.pop() {
            match waiting.symbol {
                Symbol::Token(class) => return Ok(Some(class)),
                Symbol::Action(action) => self.leave(Item {
                    action,
                    token: waiting.token,
                })?,
                Symbol::Part(part) => self.choose(part, text, at)?,
            }
        }
        Ok(None)
    }

    /// An item is left.
    fn leave(&mut self, item: Item) -> Result<(), SyntaxFault>
        ensures items { OnOk result (self.new.items.items ≡ self.old.items.items ++ item ∷ []) }
        ensures stack { self.new.stack ≡ self.old.stack }
        ensures refused { IfErr result (λ f. f ≡ record { token = item.token; kind = OutOfMemory }) }
    {
        match self.items.push(item) {
            Ok(()) => Ok(()),
            Err(_) => Err(out_of_memory(item.token)),
        }
    }

    /// A part is what its production says.
    fn choose(&mut self, part: Part, text: &[Class], at: u32) -> Result<(), SyntaxFault>
        ensures chosen { OnOk result (IsChosen text.now at part self.old.stack self.new.stack) }
        ensures items { self.new.items.items ≡ self.old.items.items }
        ensures refused { IfErr result (λ f. IsRefused text.now at part f) }
    {
        let at_next = at as usize + 1;
        match production(part, class_at(text, at as usize), class_at(text, at_next)) {
            Some(symbols) => match self.stack.push(symbols, at) {
                Ok(()) => Ok(()),
                Err(_) => Err(out_of_memory(at)),
            },
            None => Err(SyntaxFault {
                token: at,
                kind: SyntaxFaultKind::Part(part),
            }),
        }
    }
}

fn out_of_memory(token: u32) -> SyntaxFault
    ensures { result ≡ record { token = token; kind = OutOfMemory } }
{
    SyntaxFault {
        token,
        kind: SyntaxFaultKind::OutOfMemory,
    }
}
