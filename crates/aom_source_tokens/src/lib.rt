//! From the bytes of a source to tokens, each with the place at which it begins.
#![tactic(auto)]

mod bytes;
mod cursor;
mod fault;
mod keyword;
mod lexeme;
mod mark;
mod place;
mod token;
mod tokens;

pub use fault::{TokenFault, TokenFaultKind};
pub use keyword::Keyword;
pub use mark::Mark;
pub use place::Place;
pub use token::{Kind, Token};
pub use tokens::Tokens;
