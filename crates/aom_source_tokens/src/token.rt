//! Tokens.
use crate::{Keyword, Mark, Place};

/// What a token is.
#[derive(Clone, Copy)]
pub enum Kind<'a> {
    Number(u32),
    /// A letter, then letters, digits and `_`: no keyword.
    Name(&'a [u8]),
    Keyword(Keyword),
    Mark(Mark),
    /// The end of the text.
    End,
}

/// A token, and where it begins.
#[derive(Clone, Copy)]
pub struct Token<'a> {
    pub kind: Kind<'a>,
    pub place: Place,
}
