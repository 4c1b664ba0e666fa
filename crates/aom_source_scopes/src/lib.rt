//! Where names hold, by the tokens of a source alone: which token declares a name, and where the block ends in which it holds.
//!
//! It knows no grammar: a block is what stands between braces, and a statement or a head ends at a brace or a semicolon.
#![tactic(auto)]

mod blocks;
mod scopes;
mod words;

pub use scopes::Scopes;
