//! From the tokens of a source to the items of its program, by a grammar that is a table.
#![tactic(auto)]

macro_rules! symbol {
    (Class $name:ident) => {
        Symbol::Token(Class::$name)
    };
    (Keyword $name:ident) => {
        Symbol::Token(Class::Keyword(Keyword::$name))
    };
    (Mark $name:ident) => {
        Symbol::Token(Class::Mark(Mark::$name))
    };
    (Action $name:ident) => {
        Symbol::Action(Action::$name)
    };
    (Declaration $name:ident) => {
        Symbol::Part(Part::Declaration(DeclarationPart::$name))
    };
    (Member $name:ident) => {
        Symbol::Part(Part::Member(MemberPart::$name))
    };
    (Statement $name:ident) => {
        Symbol::Part(Part::Statement(StatementPart::$name))
    };
    (Expression $name:ident) => {
        Symbol::Part(Part::Expression(ExpressionPart::$name))
    };
    (Name $name:ident) => {
        Symbol::Part(Part::Name(NamePart::$name))
    };
}

macro_rules! symbols {
    ($($kind:ident $name:ident),*) => {
        Some(&[$(symbol!($kind $name)),*])
    };
}

mod cursor;
mod declarations;
mod expressions;
mod fault;
mod grammar;
mod item;
mod laws;
mod members;
mod names;
mod reader;
mod stack;
mod statements;
mod symbol;
#[cfg(test)]
mod tests;

pub use declarations::DeclarationPart;
pub use expressions::ExpressionPart;
pub use fault::{SyntaxFault, SyntaxFaultKind};
pub use item::{Action, Item};
pub use laws::a_text_has_one_program;
pub use members::MemberPart;
pub use names::NamePart;
pub use reader::read_program;
pub use statements::StatementPart;
pub use symbol::{Class, Part};
