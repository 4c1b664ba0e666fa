//! What single tokens are.
ghost use Rattle.std.specs.Prelude.{◌≡◌};
ghost use Rattle.aom_source_tokens.specs.Tokens.{word_of};
ghost use Rattle.aom_source_names.specs.Words.{are_same_name, begins_role, is_class, is_colon, is_enum, is_name, is_open_parenthesis};

use aom_source_tokens::{Keyword, Kind, Mark};

pub fn is_name(kind: Kind<'_>) -> bool
    ensures { result ≡ is_name (word_of kind.entry) }
{
    matches!(kind, Kind::Name(_))
}

pub fn is_class(kind: Kind<'_>) -> bool
    ensures { result ≡ is_class (word_of kind.entry) }
{
    matches!(kind, Kind::Keyword(Keyword::Class))
}

pub fn is_enum(kind: Kind<'_>) -> bool
    ensures { result ≡ is_enum (word_of kind.entry) }
{
    matches!(kind, Kind::Keyword(Keyword::Enum))
}

pub fn is_colon(kind: Kind<'_>) -> bool
    ensures { result ≡ is_colon (word_of kind.entry) }
{
    matches!(kind, Kind::Mark(Mark::Colon))
}

pub fn is_open_parenthesis(kind: Kind<'_>) -> bool
    ensures { result ≡ is_open_parenthesis (word_of kind.entry) }
{
    matches!(kind, Kind::Mark(Mark::OpenParenthesis))
}

/// Whether the parameters behind it have no types.
pub fn begins_role(kind: Kind<'_>) -> bool
    ensures { result ≡ begins_role (word_of kind.entry) }
{
    matches!(
        kind,
        Kind::Keyword(Keyword::Service | Keyword::Error | Keyword::Undo)
    )
}

pub fn are_same_name(one: Kind<'_>, other: Kind<'_>) -> bool
    ensures { result ≡ are_same_name (word_of one.entry) (word_of other.entry) }
{
    match (one, other) {
        (Kind::Name(one), Kind::Name(other)) => one == other,
        _ => false,
    }
}
