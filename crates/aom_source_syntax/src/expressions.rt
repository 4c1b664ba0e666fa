//! The productions of expressions.
ghost use Rattle.std.specs.Prelude.{◌≡◌, option_map};
ghost use Rattle.aom_source_syntax.specs.Grammar.{expression_rule, more_or_symbols, more_and_symbols, more_comparison_symbols, more_bit_or_symbols};
ghost use Rattle.aom_source_syntax.specs.Grammar.{unary_symbols, unary_at_minus, primary_symbols, primary_at_super, primary_at_name};
ghost use Rattle.aom_source_syntax.specs.Grammar.{new_arguments_symbols, dotted_rest_symbols, argument_list_symbols, more_arguments_symbols, more_bit_xor_symbols};
ghost use Rattle.aom_source_syntax.specs.Grammar.{more_bit_and_symbols, more_sum_symbols, more_product_symbols};

use crate::Action;
use crate::names::NamePart;
use crate::symbol::{Class, Part, Symbol, Symbols};
use aom_source_tokens::{Keyword, Mark};

/// A part of expressions.
#[derive(Clone, Copy, PartialEq, Eq, Debug)]
pub enum ExpressionPart {
    Constant,
    Expression,
    MoreOr,
    AndTerm,
    MoreAnd,
    Comparison,
    MoreComparison,
    BitOrTerm,
    MoreBitOr,
    BitXorTerm,
    BitAndTerm,
    Sum,
    Product,
    Unary,
    NegativeNumber,
    Primary,
    NewArguments,
    DottedRest,
    Arguments,
    ArgumentList,
    MoreArguments,
    MoreBitXor,
    MoreBitAnd,
    MoreSum,
    MoreProduct,
}

/// What such a part is made of where a token of the first class is next, and one of the second behind it.
pub fn expression_production(part: ExpressionPart, here: Class, next: Class) -> Option<Symbols>
    ensures { option_map (λ s. s.now) result ≡ expression_rule part here next }
{
    match part {
        ExpressionPart::Constant =>
            symbols![Action ConstantBegin, Expression Expression, Action ConstantEnd],
        ExpressionPart::Expression => symbols![Expression AndTerm, Expression MoreOr],
        ExpressionPart::MoreOr => more_or_symbols(here),
        ExpressionPart::AndTerm => symbols![Expression Comparison, Expression MoreAnd],
        ExpressionPart::MoreAnd => more_and_symbols(here),
        ExpressionPart::Comparison => symbols![Expression BitOrTerm, Expression MoreComparison],
        ExpressionPart::MoreComparison => more_comparison_symbols(here),
        ExpressionPart::BitOrTerm => symbols![Expression BitXorTerm, Expression MoreBitOr],
        ExpressionPart::MoreBitOr => more_bit_or_symbols(here),
        ExpressionPart::BitXorTerm => symbols![Expression BitAndTerm, Expression MoreBitXor],
        ExpressionPart::BitAndTerm => symbols![Expression Sum, Expression MoreBitAnd],
        ExpressionPart::Sum => symbols![Expression Product, Expression MoreSum],
        ExpressionPart::Product => symbols![Expression Unary, Expression MoreProduct],
        ExpressionPart::Unary => unary_symbols(here, next),
        ExpressionPart::NegativeNumber => symbols![Class Number, Action NegativeNumber],
        ExpressionPart::Primary => primary_symbols(here, next),
        ExpressionPart::NewArguments => new_arguments_symbols(here),
        ExpressionPart::DottedRest => dotted_rest_symbols(here),
        ExpressionPart::Arguments =>
            symbols![Mark OpenParenthesis, Expression ArgumentList, Mark CloseParenthesis],
        ExpressionPart::ArgumentList => argument_list_symbols(here),
        ExpressionPart::MoreArguments => more_arguments_symbols(here),
        ExpressionPart::MoreBitXor => more_bit_xor_symbols(here),
        ExpressionPart::MoreBitAnd => more_bit_and_symbols(here),
        ExpressionPart::MoreSum => more_sum_symbols(here),
        ExpressionPart::MoreProduct => more_product_symbols(here),
    }
}

fn more_or_symbols(here: Class) -> Option<Symbols>
    ensures { option_map (λ s. s.now) result ≡ more_or_symbols here }
{
    match here {
        Class::Mark(Mark::Or) =>
            symbols![Mark Or, Action Or, Expression AndTerm, Action OrEnd, Expression MoreOr],
        _ => symbols![],
    }
}

fn more_and_symbols(here: Class) -> Option<Symbols>
    ensures { option_map (λ s. s.now) result ≡ more_and_symbols here }
{
    match here {
        Class::Mark(Mark::And) =>
            symbols![Mark And, Action And, Expression Comparison, Action AndEnd, Expression MoreAnd],
        _ => symbols![],
    }
}

fn more_comparison_symbols(here: Class) -> Option<Symbols>
    ensures { option_map (λ s. s.now) result ≡ more_comparison_symbols here }
{
    match here {
        Class::Mark(Mark::Equal) =>
            symbols![Mark Equal, Expression BitOrTerm, Action Equal, Expression MoreComparison],
        Class::Mark(Mark::NotEqual) =>
            symbols![Mark NotEqual, Expression BitOrTerm, Action NotEqual, Expression MoreComparison],
        Class::Mark(Mark::Less) =>
            symbols![Mark Less, Expression BitOrTerm, Action Less, Expression MoreComparison],
        Class::Mark(Mark::AtMost) =>
            symbols![Mark AtMost, Expression BitOrTerm, Action AtMost, Expression MoreComparison],
        Class::Mark(Mark::Greater) =>
            symbols![Mark Greater, Expression BitOrTerm, Action Greater, Expression MoreComparison],
        Class::Mark(Mark::AtLeast) =>
            symbols![Mark AtLeast, Expression BitOrTerm, Action AtLeast, Expression MoreComparison],
        _ => symbols![],
    }
}

fn more_bit_or_symbols(here: Class) -> Option<Symbols>
    ensures { option_map (λ s. s.now) result ≡ more_bit_or_symbols here }
{
    match here {
        Class::Mark(Mark::BitOr) =>
            symbols![Mark BitOr, Expression BitXorTerm, Action BitOr, Expression MoreBitOr],
        _ => symbols![],
    }
}

fn unary_symbols(here: Class, next: Class) -> Option<Symbols>
    ensures { option_map (λ s. s.now) result ≡ unary_symbols here next }
{
    match here {
        Class::Mark(Mark::Not) => symbols![Mark Not, Expression Unary, Action Not],
        Class::Mark(Mark::Minus) => unary_at_minus(next),
        _ => symbols![Expression Primary],
    }
}

fn unary_at_minus(next: Class) -> Option<Symbols>
    ensures { option_map (λ s. s.now) result ≡ unary_at_minus next }
{
    match next {
        Class::Number => symbols![Mark Minus, Expression NegativeNumber],
        _ => symbols![Action Zero, Mark Minus, Expression Unary, Action Subtract],
    }
}

fn primary_symbols(here: Class, next: Class) -> Option<Symbols>
    ensures { option_map (λ s. s.now) result ≡ primary_symbols here next }
{
    match here {
        Class::Number => symbols![Class Number, Action Number],
        Class::Mark(Mark::OpenParenthesis) =>
            symbols![Mark OpenParenthesis, Expression Expression, Mark CloseParenthesis],
        Class::Keyword(Keyword::Maybe) =>
            symbols![Action MaybeNew, Keyword Maybe, Keyword New, Name NewClass, Expression NewArguments, Action NewEnd],
        Class::Keyword(Keyword::New) =>
            symbols![Action New, Keyword New, Name NewClass, Expression NewArguments, Action NewEnd],
        Class::Keyword(Keyword::Take) => symbols![Keyword Take, Name TakenName],
        Class::Keyword(Keyword::Hand) => symbols![Keyword Hand, Action Hand],
        Class::Keyword(Keyword::Message) => symbols![Keyword Message, Action Message],
        Class::Keyword(Keyword::Status) => symbols![Keyword Status, Action Status],
        Class::Keyword(Keyword::Connect) => symbols![Keyword Connect, Action Connect],
        Class::Keyword(Keyword::Active) => symbols![Keyword Active, Action IsActive],
        Class::Keyword(Keyword::Enlisted) => symbols![Keyword Enlisted, Action IsEnlisted],
        Class::Keyword(Keyword::NoObject) => symbols![Keyword NoObject, Action None],
        Class::Keyword(Keyword::Ask) =>
            symbols![Action Ask, Keyword Ask, Expression Arguments, Action AskEnd],
        Class::Keyword(Keyword::Super) => primary_at_super(next),
        Class::Keyword(Keyword::This) =>
            symbols![Action SelfCall, Keyword This, Mark Dot, Name CalledName, Expression Arguments, Action CallEnd],
        Class::Name => primary_at_name(next),
        _ => None,
    }
}

fn primary_at_super(next: Class) -> Option<Symbols>
    ensures { option_map (λ s. s.now) result ≡ primary_at_super next }
{
    match next {
        Class::Mark(Mark::OpenParenthesis) =>
            symbols![Action SuperConstruct, Keyword Super, Expression Arguments, Action CallEnd],
        _ =>
            symbols![Action SuperCall, Keyword Super, Mark Dot, Name CalledName, Expression Arguments, Action CallEnd],
    }
}

fn primary_at_name(next: Class) -> Option<Symbols>
    ensures { option_map (λ s. s.now) result ≡ primary_at_name next }
{
    match next {
        Class::Mark(Mark::OpenParenthesis) =>
            symbols![Action PlainCall, Name CalledName, Expression Arguments, Action CallEnd],
        Class::Mark(Mark::Dot) =>
            symbols![Action Dotted, Name ObjectName, Mark Dot, Name CalledName, Expression DottedRest],
        Class::Mark(Mark::MaybeDot) =>
            symbols![Action MaybeCall, Name ObjectName, Mark MaybeDot, Name CalledName, Expression Arguments, Action CallEnd],
        _ => symbols![Class Name, Action Name],
    }
}

fn new_arguments_symbols(here: Class) -> Option<Symbols>
    ensures { option_map (λ s. s.now) result ≡ new_arguments_symbols here }
{
    match here {
        Class::Mark(Mark::OpenParenthesis) => symbols![Expression Arguments],
        _ => symbols![],
    }
}

fn dotted_rest_symbols(here: Class) -> Option<Symbols>
    ensures { option_map (λ s. s.now) result ≡ dotted_rest_symbols here }
{
    match here {
        Class::Mark(Mark::OpenParenthesis) => symbols![Expression Arguments, Action CallEnd],
        _ => symbols![Action DottedEnd],
    }
}

fn argument_list_symbols(here: Class) -> Option<Symbols>
    ensures { option_map (λ s. s.now) result ≡ argument_list_symbols here }
{
    match here {
        Class::Mark(Mark::CloseParenthesis) => symbols![],
        _ =>
            symbols![Action Argument, Expression Expression, Action ArgumentEnd, Expression MoreArguments],
    }
}

fn more_arguments_symbols(here: Class) -> Option<Symbols>
    ensures { option_map (λ s. s.now) result ≡ more_arguments_symbols here }
{
    match here {
        Class::Mark(Mark::Comma) => symbols![Mark Comma, Expression ArgumentList],
        _ => symbols![],
    }
}

fn more_bit_xor_symbols(here: Class) -> Option<Symbols>
    ensures { option_map (λ s. s.now) result ≡ more_bit_xor_symbols here }
{
    match here {
        Class::Mark(Mark::BitXor) =>
            symbols![Mark BitXor, Expression BitAndTerm, Action BitXor, Expression MoreBitXor],
        _ => symbols![],
    }
}

fn more_bit_and_symbols(here: Class) -> Option<Symbols>
    ensures { option_map (λ s. s.now) result ≡ more_bit_and_symbols here }
{
    match here {
        Class::Mark(Mark::BitAnd) =>
            symbols![Mark BitAnd, Expression Sum, Action BitAnd, Expression MoreBitAnd],
        _ => symbols![],
    }
}

fn more_sum_symbols(here: Class) -> Option<Symbols>
    ensures { option_map (λ s. s.now) result ≡ more_sum_symbols here }
{
    match here {
        Class::Mark(Mark::Plus) =>
            symbols![Mark Plus, Expression Product, Action Add, Expression MoreSum],
        Class::Mark(Mark::Minus) =>
            symbols![Mark Minus, Expression Product, Action Subtract, Expression MoreSum],
        _ => symbols![],
    }
}

fn more_product_symbols(here: Class) -> Option<Symbols>
    ensures { option_map (λ s. s.now) result ≡ more_product_symbols here }
{
    match here {
        Class::Mark(Mark::Times) =>
            symbols![Mark Times, Expression Unary, Action Multiply, Expression MoreProduct],
        _ => symbols![],
    }
}
