//! Why tokens are no program.
use crate::{Class, Part};

/// What is wrong with a token.
#[derive(Clone, Copy, PartialEq, Eq, Debug)]
pub enum SyntaxFaultKind {
    /// A token of this class was expected.
    Token(Class),
    /// No such part begins with the token.
    Part(Part),
    /// More than 64 brackets `(` and `{` are open at once.
    TooDeep,
    OutOfMemory,
}

/// The number of a token, and what is wrong with it.
#[derive(Clone, Copy, PartialEq, Eq, Debug)]
pub struct SyntaxFault {
    pub token: u32,
    pub kind: SyntaxFaultKind,
}
