//! The productions of blocks and statements.
ghost use Rattle.std.specs.Prelude.{◌≡◌, option_map};
ghost use Rattle.aom_source_syntax.specs.Grammar.{statement_rule, statements_symbols, statement_symbols, worded_statement_symbols, statement_at_return};
ghost use Rattle.aom_source_syntax.specs.Grammar.{statement_at_name, let_rest_symbols, let_value_symbols, condition_symbols, else_symbols};
ghost use Rattle.aom_source_syntax.specs.Grammar.{else_rest_symbols};

use crate::Action;
use crate::expressions::ExpressionPart;
use crate::members::MemberPart;
use crate::names::NamePart;
use crate::symbol::{Class, Part, Symbol, Symbols};
use aom_source_tokens::{Keyword, Mark};

/// A part of blocks and statements.
#[derive(Clone, Copy, PartialEq, Eq, Debug)]
pub enum StatementPart {
    Block,
    BlockClose,
    Statements,
    Statement,
    LetRest,
    LetValue,
    TrapRest,
    IfStatement,
    Condition,
    Else,
    ElseRest,
    ChangedName,
}

/// What such a part is made of where a token of the first class is next, and one of the second behind it.
pub fn statement_production(part: StatementPart, here: Class, next: Class) -> Option<Symbols>
    ensures { option_map (λ s. s.now) result ≡ statement_rule part here next }
{
    match part {
        StatementPart::Block =>
            symbols![Mark OpenBrace, Action BlockBegin, Statement Statements, Statement BlockClose],
        StatementPart::BlockClose => symbols![Mark CloseBrace, Action BlockEnd],
        StatementPart::Statements => statements_symbols(here),
        StatementPart::Statement => statement_symbols(here, next),
        StatementPart::LetRest => let_rest_symbols(here),
        StatementPart::LetValue => let_value_symbols(here),
        StatementPart::TrapRest =>
            symbols![Action Trap, Keyword Trap, Expression Expression, Keyword Catch, Name CatchName, Statement Block, Action TrapEnd],
        StatementPart::IfStatement =>
            symbols![Action If, Keyword If, Statement Condition, Statement Block, Statement Else, Action IfEnd],
        StatementPart::Condition => condition_symbols(here),
        StatementPart::Else => else_symbols(here),
        StatementPart::ElseRest => else_rest_symbols(here),
        StatementPart::ChangedName => symbols![Class Name, Action AssignedName, Action Name],
    }
}

fn statements_symbols(here: Class) -> Option<Symbols>
    ensures { option_map (λ s. s.now) result ≡ statements_symbols here }
{
    match here {
        Class::Mark(Mark::CloseBrace) => symbols![],
        _ => symbols![Statement Statement, Statement Statements],
    }
}

fn statement_symbols(here: Class, next: Class) -> Option<Symbols>
    ensures { option_map (λ s. s.now) result ≡ statement_symbols here next }
{
    match here {
        Class::Keyword(Keyword::Let) =>
            symbols![Action Let, Keyword Let, Name LetName, Statement LetRest],
        Class::Keyword(Keyword::Trap) => symbols![Statement TrapRest],
        Class::Keyword(Keyword::If) => symbols![Statement IfStatement],
        Class::Keyword(Keyword::Loop) =>
            symbols![Action Loop, Keyword Loop, Expression Constant, Action Rounds, Statement Block, Action LoopEnd],
        Class::Keyword(Keyword::While) => symbols![
                Action While, Keyword While, Action Test, Expression Expression, Action TestEnd,
                Keyword Max, Expression Constant, Action Rounds, Statement Block, Action LoopEnd
            ],
        Class::Keyword(Keyword::For) => symbols![
                Action For, Keyword For, Name ForName, Keyword In, Expression Constant,
                Action ForFrom, Mark DotDot, Expression Constant, Action ForTo, Statement Block, Action LoopEnd
            ],
        Class::Keyword(Keyword::Break) => symbols![Keyword Break, Mark Semicolon, Action Break],
        Class::Keyword(Keyword::Continue) =>
            symbols![Keyword Continue, Mark Semicolon, Action Continue],
        Class::Keyword(Keyword::Stop) => symbols![Keyword Stop, Mark Semicolon, Action Stop],
        Class::Keyword(Keyword::Cancel) => symbols![Keyword Cancel, Mark Semicolon, Action Cancel],
        Class::Keyword(Keyword::Close) => symbols![Keyword Close, Mark Semicolon, Action Close],
        Class::Keyword(Keyword::Return) => statement_at_return(next),
        Class::Name => statement_at_name(next),
        _ => worded_statement_symbols(here),
    }
}

fn worded_statement_symbols(here: Class) -> Option<Symbols>
    ensures { option_map (λ s. s.now) result ≡ worded_statement_symbols here }
{
    match here {
        Class::Keyword(Keyword::Leave) =>
            symbols![Action LeaveBegin, Keyword Leave, Expression Expression, Mark Semicolon, Action Leave],
        Class::Keyword(Keyword::LeaveIf) =>
            symbols![Action LeaveIfBegin, Keyword LeaveIf, Expression Expression, Mark Semicolon, Action LeaveIf],
        Class::Keyword(Keyword::Print) =>
            symbols![Action PrintBegin, Keyword Print, Expression Expression, Mark Semicolon, Action Print],
        Class::Keyword(Keyword::Enlist) =>
            symbols![Action EnlistBegin, Keyword Enlist, Expression Expression, Mark Semicolon, Action Enlist],
        Class::Keyword(Keyword::After) =>
            symbols![Action AfterBegin, Keyword After, Expression Expression, Mark Semicolon, Action After],
        Class::Keyword(Keyword::Resume) =>
            symbols![Action ResumeBegin, Keyword Resume, Expression Expression, Mark Semicolon, Action Resume],
        Class::Keyword(Keyword::Assert) =>
            symbols![Action AssertBegin, Keyword Assert, Action Test, Expression Expression, Action TestEnd, Mark Semicolon, Action Assert],
        Class::Keyword(Keyword::Request) => symbols![
                Action RequestBegin, Keyword Request, Expression Expression, Action RequestFunction,
                Mark Comma, Expression Expression, Mark Semicolon, Action Request
            ],
        Class::Keyword(Keyword::Reply) => symbols![
                Action ReplyBegin, Keyword Reply, Expression Expression, Action ReplyTo,
                Mark Comma, Expression Expression, Mark Semicolon, Action Reply
            ],
        Class::Keyword(Keyword::Delete) =>
            symbols![Keyword Delete, Name DeletedName, Mark Semicolon],
        Class::Keyword(Keyword::Defer) => symbols![
                Action DeferBegin, Keyword Defer, Name DeferredName, Mark OpenParenthesis,
                Expression Expression, Mark CloseParenthesis, Mark Semicolon, Action Defer
            ],
        _ => symbols![Action Do, Expression Expression, Mark Semicolon, Action DoEnd],
    }
}

fn statement_at_return(next: Class) -> Option<Symbols>
    ensures { option_map (λ s. s.now) result ≡ statement_at_return next }
{
    match next {
        Class::Mark(Mark::Semicolon) => symbols![Keyword Return, Mark Semicolon, Action Return],
        _ =>
            symbols![Action ReturnBegin, Keyword Return, Expression Expression, Mark Semicolon, Action ReturnValue],
    }
}

fn statement_at_name(next: Class) -> Option<Symbols>
    ensures { option_map (λ s. s.now) result ≡ statement_at_name next }
{
    match next {
        Class::Mark(Mark::Assign) =>
            symbols![Action Assign, Name AssignedName, Mark Assign, Expression Expression, Mark Semicolon, Action AssignEnd],
        Class::Mark(Mark::PlusAssign) =>
            symbols![Action Assign, Statement ChangedName, Mark PlusAssign, Expression Expression, Action Add, Mark Semicolon, Action AssignEnd],
        Class::Mark(Mark::MinusAssign) =>
            symbols![Action Assign, Statement ChangedName, Mark MinusAssign, Expression Expression, Action Subtract, Mark Semicolon, Action AssignEnd],
        Class::Mark(Mark::TimesAssign) =>
            symbols![Action Assign, Statement ChangedName, Mark TimesAssign, Expression Expression, Action Multiply, Mark Semicolon, Action AssignEnd],
        Class::Mark(Mark::AndAssign) =>
            symbols![Action Assign, Statement ChangedName, Mark AndAssign, Expression Expression, Action BitAnd, Mark Semicolon, Action AssignEnd],
        Class::Mark(Mark::OrAssign) =>
            symbols![Action Assign, Statement ChangedName, Mark OrAssign, Expression Expression, Action BitOr, Mark Semicolon, Action AssignEnd],
        Class::Mark(Mark::XorAssign) =>
            symbols![Action Assign, Statement ChangedName, Mark XorAssign, Expression Expression, Action BitXor, Mark Semicolon, Action AssignEnd],
        _ => symbols![Action Do, Expression Expression, Mark Semicolon, Action DoEnd],
    }
}

fn let_rest_symbols(here: Class) -> Option<Symbols>
    ensures { option_map (λ s. s.now) result ≡ let_rest_symbols here }
{
    match here {
        Class::Mark(Mark::Comma) =>
            symbols![Mark Comma, Name CodeName, Mark Assign, Action Trap, Keyword Trap, Expression Expression, Mark Semicolon, Action TrapEnd],
        Class::Mark(Mark::Colon) =>
            symbols![Mark Colon, Member Type, Mark Assign, Statement LetValue],
        Class::Mark(Mark::Assign) => symbols![Mark Assign, Statement LetValue],
        _ => None,
    }
}

fn let_value_symbols(here: Class) -> Option<Symbols>
    ensures { option_map (λ s. s.now) result ≡ let_value_symbols here }
{
    match here {
        Class::Keyword(Keyword::Trap) => symbols![Statement TrapRest],
        _ => symbols![Expression Expression, Mark Semicolon, Action LetEnd],
    }
}

fn condition_symbols(here: Class) -> Option<Symbols>
    ensures { option_map (λ s. s.now) result ≡ condition_symbols here }
{
    match here {
        Class::Keyword(Keyword::Let) =>
            symbols![Action IfLet, Keyword Let, Name IfName, Mark Assign, Expression Expression, Action IfLetEnd],
        _ => symbols![Action Test, Expression Expression, Action TestEnd],
    }
}

fn else_symbols(here: Class) -> Option<Symbols>
    ensures { option_map (λ s. s.now) result ≡ else_symbols here }
{
    match here {
        Class::Keyword(Keyword::Else) => symbols![Action Else, Keyword Else, Statement ElseRest],
        _ => symbols![],
    }
}

fn else_rest_symbols(here: Class) -> Option<Symbols>
    ensures { option_map (λ s. s.now) result ≡ else_rest_symbols here }
{
    match here {
        Class::Keyword(Keyword::If) => symbols![Statement IfStatement],
        _ => symbols![Statement Block],
    }
}
