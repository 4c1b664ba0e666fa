//! The productions of members of classes, methods and types.
ghost use Rattle.std.specs.Prelude.{◌≡◌, option_map};
ghost use Rattle.aom_source_syntax.specs.Grammar.{member_rule, members_symbols, member_symbols, more_words_symbols, own_type_symbols};
ghost use Rattle.aom_source_syntax.specs.Grammar.{parameter_list_symbols, more_parameters_symbols, role_parameters_symbols, more_role_parameters_symbols, result_symbols};
ghost use Rattle.aom_source_syntax.specs.Grammar.{no_leave_symbols, type_symbols, question_symbols};

use crate::Action;
use crate::expressions::ExpressionPart;
use crate::names::NamePart;
use crate::statements::StatementPart;
use crate::symbol::{Class, Part, Symbol, Symbols};
use aom_source_tokens::{Keyword, Mark};

/// A part of members of classes, methods and types.
#[derive(Clone, Copy, PartialEq, Eq, Debug)]
pub enum MemberPart {
    Members,
    Member,
    MoreWords,
    OwnType,
    Function,
    Parameters,
    ParameterList,
    MoreParameters,
    Parameter,
    RoleParameters,
    MoreRoleParameters,
    RoleParameter,
    Result,
    NoLeave,
    Type,
    Question,
}

/// What such a part is made of where a token of this class is next.
pub fn member_production(part: MemberPart, here: Class) -> Option<Symbols>
    ensures { option_map (λ s. s.now) result ≡ member_rule part here }
{
    match part {
        MemberPart::Members => members_symbols(here),
        MemberPart::Member => member_symbols(here),
        MemberPart::MoreWords => more_words_symbols(here),
        MemberPart::OwnType => own_type_symbols(here),
        MemberPart::Function =>
            symbols![Action Function, Keyword Fn, Name MethodName, Member Parameters, Member Result, Member NoLeave, Statement Block, Action MethodEnd],
        MemberPart::Parameters =>
            symbols![Mark OpenParenthesis, Member ParameterList, Mark CloseParenthesis],
        MemberPart::ParameterList => parameter_list_symbols(here),
        MemberPart::MoreParameters => more_parameters_symbols(here),
        MemberPart::Parameter => symbols![Name ParameterName, Mark Colon, Member Type],
        MemberPart::RoleParameters => role_parameters_symbols(here),
        MemberPart::MoreRoleParameters => more_role_parameters_symbols(here),
        MemberPart::RoleParameter => symbols![Class Name, Action Parameter, Action WordType],
        MemberPart::Result => result_symbols(here),
        MemberPart::NoLeave => no_leave_symbols(here),
        MemberPart::Type => type_symbols(here),
        MemberPart::Question => question_symbols(here),
    }
}

fn members_symbols(here: Class) -> Option<Symbols>
    ensures { option_map (λ s. s.now) result ≡ members_symbols here }
{
    match here {
        Class::Mark(Mark::CloseBrace) => symbols![],
        _ => symbols![Member Member, Member Members],
    }
}

fn member_symbols(here: Class) -> Option<Symbols>
    ensures { option_map (λ s. s.now) result ≡ member_symbols here }
{
    match here {
        Class::Keyword(Keyword::Word) =>
            symbols![Keyword Word, Name WordName, Member MoreWords, Mark Semicolon],
        Class::Keyword(Keyword::Own) =>
            symbols![Keyword Own, Name OwnName, Mark Colon, Member OwnType, Mark Semicolon],
        Class::Keyword(Keyword::Construct) =>
            symbols![Action Construct, Keyword Construct, Member Parameters, Statement Block, Action MethodEnd],
        Class::Keyword(Keyword::Destruct) =>
            symbols![Action Destruct, Keyword Destruct, Statement Block, Action MethodEnd],
        Class::Keyword(Keyword::Run) =>
            symbols![Action Run, Keyword Run, Statement Block, Action MethodEnd],
        Class::Keyword(Keyword::Cancel) =>
            symbols![Action CancelMethod, Keyword Cancel, Statement Block, Action MethodEnd],
        Class::Keyword(Keyword::Accept) =>
            symbols![Action Accept, Keyword Accept, Statement Block, Action MethodEnd],
        Class::Keyword(Keyword::Error) =>
            symbols![Action Error, Keyword Error, Mark OpenParenthesis, Member RoleParameters, Mark CloseParenthesis, Statement Block, Action MethodEnd],
        Class::Keyword(Keyword::Service) => symbols![
                Action Service, Keyword Service, Mark OpenParenthesis,
                Member RoleParameters, Mark CloseParenthesis, Statement Block, Action MethodEnd
            ],
        Class::Keyword(Keyword::Fn) => symbols![Member Function],
        Class::Keyword(Keyword::Override) =>
            symbols![Action Override, Keyword Override, Member Function],
        _ => None,
    }
}

fn more_words_symbols(here: Class) -> Option<Symbols>
    ensures { option_map (λ s. s.now) result ≡ more_words_symbols here }
{
    match here {
        Class::Mark(Mark::Comma) => symbols![Mark Comma, Name WordName, Member MoreWords],
        _ => symbols![],
    }
}

fn own_type_symbols(here: Class) -> Option<Symbols>
    ensures { option_map (λ s. s.now) result ≡ own_type_symbols here }
{
    match here {
        Class::Keyword(Keyword::Msg) =>
            symbols![Action MessageElse, Keyword Msg, Keyword Else, Expression Expression, Action OwnMessage],
        _ => symbols![Name OwnClass],
    }
}

fn parameter_list_symbols(here: Class) -> Option<Symbols>
    ensures { option_map (λ s. s.now) result ≡ parameter_list_symbols here }
{
    match here {
        Class::Mark(Mark::CloseParenthesis) => symbols![],
        _ => symbols![Member Parameter, Member MoreParameters],
    }
}

fn more_parameters_symbols(here: Class) -> Option<Symbols>
    ensures { option_map (λ s. s.now) result ≡ more_parameters_symbols here }
{
    match here {
        Class::Mark(Mark::Comma) => symbols![Mark Comma, Member ParameterList],
        _ => symbols![],
    }
}

fn role_parameters_symbols(here: Class) -> Option<Symbols>
    ensures { option_map (λ s. s.now) result ≡ role_parameters_symbols here }
{
    match here {
        Class::Mark(Mark::CloseParenthesis) => symbols![],
        _ => symbols![Member RoleParameter, Member MoreRoleParameters],
    }
}

fn more_role_parameters_symbols(here: Class) -> Option<Symbols>
    ensures { option_map (λ s. s.now) result ≡ more_role_parameters_symbols here }
{
    match here {
        Class::Mark(Mark::Comma) => symbols![Mark Comma, Member RoleParameters],
        _ => symbols![],
    }
}

fn result_symbols(here: Class) -> Option<Symbols>
    ensures { option_map (λ s. s.now) result ≡ result_symbols here }
{
    match here {
        Class::Mark(Mark::Arrow) => symbols![Mark Arrow, Action Result, Member Type],
        _ => symbols![],
    }
}

fn no_leave_symbols(here: Class) -> Option<Symbols>
    ensures { option_map (λ s. s.now) result ≡ no_leave_symbols here }
{
    match here {
        Class::Keyword(Keyword::NoLeave) => symbols![Keyword NoLeave, Action NoLeave],
        _ => symbols![],
    }
}

fn type_symbols(here: Class) -> Option<Symbols>
    ensures { option_map (λ s. s.now) result ≡ type_symbols here }
{
    match here {
        Class::Keyword(Keyword::Word) => symbols![Keyword Word, Action WordType],
        Class::Keyword(Keyword::Msg) => symbols![Keyword Msg, Action MessageType, Member Question],
        _ => symbols![Name TypeName, Member Question],
    }
}

fn question_symbols(here: Class) -> Option<Symbols>
    ensures { option_map (λ s. s.now) result ≡ question_symbols here }
{
    match here {
        Class::Mark(Mark::Question) => symbols![Mark Question, Action MaybeType],
        _ => symbols![],
    }
}
