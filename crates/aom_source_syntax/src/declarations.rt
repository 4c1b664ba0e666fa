//! The productions of programs, declarations and heads of classes.
ghost use Rattle.std.specs.Prelude.{◌≡◌, option_map};
ghost use Rattle.aom_source_syntax.specs.Grammar.{declaration_rule, declarations_symbols, declaration_symbols, enum_members_symbols, enum_more_members_symbols};
ghost use Rattle.aom_source_syntax.specs.Grammar.{enum_value_symbols, parent_symbols, sessions_symbols, class_budget_symbols, class_body_symbols};

use crate::Action;
use crate::expressions::ExpressionPart;
use crate::members::MemberPart;
use crate::names::NamePart;
use crate::statements::StatementPart;
use crate::symbol::{Class, Part, Symbol, Symbols};
use aom_source_tokens::{Keyword, Mark};

/// A part of programs, declarations and heads of classes.
#[derive(Clone, Copy, PartialEq, Eq, Debug)]
pub enum DeclarationPart {
    Program,
    Declarations,
    Declaration,
    EnumMembers,
    EnumMoreMembers,
    EnumMember,
    EnumValue,
    UndoName,
    ClassRest,
    Parent,
    Sessions,
    ClassBudget,
    ClassBody,
    ClassClose,
}

/// What such a part is made of where a token of this class is next.
pub fn declaration_production(part: DeclarationPart, here: Class) -> Option<Symbols>
    ensures { option_map (λ s. s.now) result ≡ declaration_rule part here }
{
    match part {
        DeclarationPart::Program =>
            symbols![Declaration Declarations, Class End, Action ProgramEnd],
        DeclarationPart::Declarations => declarations_symbols(here),
        DeclarationPart::Declaration => declaration_symbols(here),
        DeclarationPart::EnumMembers => enum_members_symbols(here),
        DeclarationPart::EnumMoreMembers => enum_more_members_symbols(here),
        DeclarationPart::EnumMember => symbols![Name MemberName, Declaration EnumValue],
        DeclarationPart::EnumValue => enum_value_symbols(here),
        DeclarationPart::UndoName => symbols![Class Name, Action Parameter, Action WordType],
        DeclarationPart::ClassRest =>
            symbols![Name ClassName, Declaration Parent, Declaration Sessions, Declaration ClassBudget, Declaration ClassBody],
        DeclarationPart::Parent => parent_symbols(here),
        DeclarationPart::Sessions => sessions_symbols(here),
        DeclarationPart::ClassBudget => class_budget_symbols(here),
        DeclarationPart::ClassBody => class_body_symbols(here),
        DeclarationPart::ClassClose => symbols![Mark CloseBrace, Action ClassEnd],
    }
}

fn declarations_symbols(here: Class) -> Option<Symbols>
    ensures { option_map (λ s. s.now) result ≡ declarations_symbols here }
{
    match here {
        Class::End => symbols![],
        _ => symbols![Declaration Declaration, Declaration Declarations],
    }
}

fn declaration_symbols(here: Class) -> Option<Symbols>
    ensures { option_map (λ s. s.now) result ≡ declaration_symbols here }
{
    match here {
        Class::Keyword(Keyword::Cells) =>
            symbols![Keyword Cells, Expression Constant, Mark Semicolon, Action Cells],
        Class::Keyword(Keyword::Messages) =>
            symbols![Keyword Messages, Expression Constant, Mark Semicolon, Action Messages],
        Class::Keyword(Keyword::Natives) =>
            symbols![Keyword Natives, Expression Constant, Mark Semicolon, Action Natives],
        Class::Keyword(Keyword::Budget) =>
            symbols![Keyword Budget, Expression Constant, Mark Semicolon, Action MainBudget],
        Class::Name => symbols![Name RootWord, Name RootClass, Mark Semicolon],
        Class::Keyword(Keyword::Const) =>
            symbols![Action ConstBegin, Keyword Const, Name ConstName, Mark Assign, Expression Constant, Mark Semicolon, Action Const],
        Class::Keyword(Keyword::Enum) =>
            symbols![Action EnumBegin, Keyword Enum, Name EnumName, Mark OpenBrace, Declaration EnumMembers, Mark CloseBrace, Action EnumEnd],
        Class::Keyword(Keyword::Class) =>
            symbols![Action PlainClass, Keyword Class, Declaration ClassRest],
        Class::Keyword(Keyword::Timer) =>
            symbols![Action TimerClass, Keyword Timer, Keyword Class, Declaration ClassRest],
        Class::Keyword(Keyword::Active) =>
            symbols![Action ActiveClass, Keyword Active, Keyword Class, Declaration ClassRest],
        Class::Keyword(Keyword::Token) =>
            symbols![Action TokenClass, Keyword Token, Keyword Class, Declaration ClassRest],
        Class::Keyword(Keyword::Session) =>
            symbols![Action SessionClass, Keyword Session, Keyword Class, Declaration ClassRest],
        Class::Keyword(Keyword::Server) =>
            symbols![Action ServerClass, Keyword Server, Keyword Class, Declaration ClassRest],
        Class::Keyword(Keyword::Native) =>
            symbols![Action NativeClass, Keyword Native, Expression Constant, Action NativeNumber, Keyword Class, Declaration ClassRest],
        Class::Keyword(Keyword::Fn) => symbols![Member Function],
        Class::Keyword(Keyword::Undo) => symbols![
                Action Undo, Keyword Undo, Name MethodName, Mark OpenParenthesis,
                Declaration UndoName, Mark CloseParenthesis, Statement Block, Action MethodEnd
            ],
        Class::Keyword(Keyword::Main) =>
            symbols![Action Main, Keyword Main, Statement Block, Action MethodEnd],
        _ => None,
    }
}

fn enum_members_symbols(here: Class) -> Option<Symbols>
    ensures { option_map (λ s. s.now) result ≡ enum_members_symbols here }
{
    match here {
        Class::Mark(Mark::CloseBrace) => symbols![],
        _ => symbols![Declaration EnumMember, Declaration EnumMoreMembers],
    }
}

fn enum_more_members_symbols(here: Class) -> Option<Symbols>
    ensures { option_map (λ s. s.now) result ≡ enum_more_members_symbols here }
{
    match here {
        Class::Mark(Mark::Comma) => symbols![Mark Comma, Declaration EnumMembers],
        _ => symbols![],
    }
}

fn enum_value_symbols(here: Class) -> Option<Symbols>
    ensures { option_map (λ s. s.now) result ≡ enum_value_symbols here }
{
    match here {
        Class::Mark(Mark::Assign) => symbols![Mark Assign, Expression Constant, Action EnumValue],
        _ => symbols![],
    }
}

fn parent_symbols(here: Class) -> Option<Symbols>
    ensures { option_map (λ s. s.now) result ≡ parent_symbols here }
{
    match here {
        Class::Mark(Mark::Colon) => symbols![Mark Colon, Name ParentName],
        _ => symbols![],
    }
}

fn sessions_symbols(here: Class) -> Option<Symbols>
    ensures { option_map (λ s. s.now) result ≡ sessions_symbols here }
{
    match here {
        Class::Keyword(Keyword::Of) =>
            symbols![Keyword Of, Name SessionName, Keyword Max, Expression Constant, Action MostSessions],
        _ => symbols![],
    }
}

fn class_budget_symbols(here: Class) -> Option<Symbols>
    ensures { option_map (λ s. s.now) result ≡ class_budget_symbols here }
{
    match here {
        Class::Keyword(Keyword::Budget) =>
            symbols![Keyword Budget, Expression Constant, Action ClassBudget],
        _ => symbols![],
    }
}

fn class_body_symbols(here: Class) -> Option<Symbols>
    ensures { option_map (λ s. s.now) result ≡ class_body_symbols here }
{
    match here {
        Class::Mark(Mark::Semicolon) => symbols![Mark Semicolon, Action ClassEnd],
        Class::Mark(Mark::OpenBrace) =>
            symbols![Mark OpenBrace, Member Members, Declaration ClassClose],
        _ => None,
    }
}
