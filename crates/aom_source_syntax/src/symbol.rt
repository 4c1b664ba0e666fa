//! What the grammar speaks of: classes of tokens, parts and symbols.
ghost use Rattle.std.specs.Prelude.{◌≡◌, ◌↔◌, IsTrue};
ghost use Rattle.aom_source_syntax.specs.Programs.{class_of};
ghost use Rattle.aom_source_tokens.specs.Tokens.{word_of};

use crate::Action;
use crate::declarations::DeclarationPart;
use crate::expressions::ExpressionPart;
use crate::members::MemberPart;
use crate::names::NamePart;
use crate::statements::StatementPart;
use aom_source_tokens::{Keyword, Kind, Mark};

/// What the grammar sees of a token.
#[derive(Clone, Copy, PartialEq, Eq, Debug)]
pub enum Class {
    Number,
    Name,
    Keyword(Keyword),
    Mark(Mark),
    End,
}

impl Class {
    pub fn of(kind: Kind<'_>) -> Class
        ensures { result ≡ class_of (word_of kind.entry) }
    {
        match kind {
            Kind::Number(_) => Class::Number,
            Kind::Name(_) => Class::Name,
            Kind::Keyword(keyword) => Class::Keyword(keyword),
            Kind::Mark(mark) => Class::Mark(mark),
            Kind::End => Class::End,
        }
    }

    /// Whether it is the same.
    pub fn is(self, other: Class) -> bool
        ensures { IsTrue result ↔ (self ≡ other) }
    {
        match (self, other) {
            (Class::Number, Class::Number)
            | (Class::Name, Class::Name)
            | (Class::End, Class::End) => true,
            (Class::Keyword(keyword), Class::Keyword(other)) => keyword == other,
            (Class::Mark(mark), Class::Mark(other)) => mark == other,
            _ => false,
        }
    }
}

/// A part of a program.
#[derive(Clone, Copy, PartialEq, Eq, Debug)]
pub enum Part {
    Declaration(DeclarationPart),
    Member(MemberPart),
    Statement(StatementPart),
    Expression(ExpressionPart),
    Name(NamePart),
}

/// What a production is made of.
#[derive(Clone, Copy, PartialEq, Eq, Debug)]
pub enum Symbol {
    Token(Class),
    Part(Part),
    Action(Action),
}

/// The symbols of a production.
pub type Symbols = &'static [Symbol];
