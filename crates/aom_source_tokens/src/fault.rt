//! Why a text has no tokens.
use crate::Place;

/// What is wrong.
#[derive(Clone, Copy, PartialEq, Eq, Debug)]
pub enum TokenFaultKind {
    /// A byte with which no token begins, or a digit that its number cannot have.
    BadByte,
    /// A number of 2 ^ 32 or more.
    NumberRange,
    /// A text above 1 MiB; its place is the first.
    TextTooLong,
    OutOfMemory,
}

/// What is wrong first in a text, and where.
#[derive(Clone, Copy, PartialEq, Eq, Debug)]
pub struct TokenFault {
    pub kind: TokenFaultKind,
    pub place: Place,
}
