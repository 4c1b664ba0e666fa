//! A place in the classes of a text's tokens.
ghost use Rattle.std.specs.Prelude.{◌≡◌, ◌≤◌, ◌<◌, ◌+◌, ◌^◌, ◌⊎◌, ◌↔◌, length, IsTrue, Some, OnOk, IfOk, IfErr, slice_get};
ghost use Rattle.aom_source_syntax.specs.Programs.{class_at, depth_behind};
ghost use Rattle.aom_source_syntax.specs.Reading.{Mismatch};

use crate::{Class, SyntaxFault, SyntaxFaultKind};
use aom_source_tokens::Mark;

/// How many brackets may be open at once.
const MOST_OPEN: u32 = 64;

/// The number of the next token, and how many brackets are open before it.
#[derive(Clone, Copy)]
pub struct Cursor {
    pub at: u32,
    pub depth: u32,
}

impl Cursor {
    pub const FIRST: Cursor = Cursor { at: 0, depth: 0 };

    /// Behind the next token, which has to be of this class.
    pub fn pass(self, text: &[Class], class: Class) -> Result<Cursor, SyntaxFault>
        requires small { length text.now < 2 ^ 31 }
        requires depth { self.depth ≤ 64 }
        ensures found { OnOk result (slice_get text.now self.at ≡ Some class) }
        ensures at { IfOk result (λ c. c.at ≡ self.at + 1) }
        ensures depth { IfOk result (λ c. c.depth ≡ depth_behind self.depth class) }
        ensures shallow { IfOk result (λ c. c.depth ≤ 64) }
        ensures token { IfErr result (λ f. f.token ≡ self.at) }
        ensures refused { IfErr result (λ f. Mismatch text.now self.at self.depth class f.kind) }
    {
        if !has(text, self.at as usize, class) {
            return Err(self.fault(SyntaxFaultKind::Token(class)));
        }
        let depth = depth_behind(self.depth, class);
        if depth > MOST_OPEN {
            return Err(self.fault(SyntaxFaultKind::TooDeep));
        }
        Ok(Cursor {
            at: self.at + 1,
            depth,
        })
    }

    fn fault(self, kind: SyntaxFaultKind) -> SyntaxFault
        ensures { result ≡ record { token = self.at; kind = kind } }
    {
        SyntaxFault {
            token: self.at,
            kind,
        }
    }
}

/// Whether the token of that number is of this class.
fn has(text: &[Class], at: usize, class: Class) -> bool
    ensures { IsTrue result ↔ (slice_get text.now at ≡ Some class) }
{
    match text.get(at) {
        Some(found) => found.is(class),
        None => false,
    }
}

/// The class of the token of that number; the end behind the last.
pub fn class_at(text: &[Class], at: usize) -> Class
    ensures { result ≡ class_at text.now at }
{
    match text.get(at) {
        Some(class) => *class,
        None => Class::End,
    }
}

/// How many brackets are open behind a token of this class.
fn depth_behind(depth: u32, class: Class) -> u32
    requires { depth ≤ 64 }
    ensures { result ≡ depth_behind depth class }
{
    match class {
        Class::Mark(Mark::OpenParenthesis) | Class::Mark(Mark::OpenBrace) => depth + 1,
        Class::Mark(Mark::CloseParenthesis) => depth.saturating_sub(1),
        Class::Mark(Mark::CloseBrace) => depth.saturating_sub(1),
        _ => depth,
    }
}
