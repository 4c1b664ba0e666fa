//! What single tokens are.
ghost use Rattle.std.specs.Prelude.{◌≡◌};
ghost use Rattle.aom_source_tokens.specs.Tokens.{word_of};
ghost use Rattle.aom_source_scopes.specs.Words.{is_end, is_if, is_let, may_declare};

use aom_source_tokens::{Keyword, Kind, Mark};

pub fn is_let(kind: Kind<'_>) -> bool
    ensures { result ≡ is_let (word_of kind.entry) }
{
    matches!(kind, Kind::Keyword(Keyword::Let))
}

pub fn is_if(kind: Kind<'_>) -> bool
    ensures { result ≡ is_if (word_of kind.entry) }
{
    matches!(kind, Kind::Keyword(Keyword::If))
}

/// Whether a statement or a head ends before it or with it.
pub fn is_end(kind: Kind<'_>) -> bool
    ensures { result ≡ is_end (word_of kind.entry) }
{
    matches!(
        kind,
        Kind::Mark(Mark::OpenBrace | Mark::CloseBrace | Mark::Semicolon)
    )
}

/// Whether a name behind it may be declared.
pub fn may_declare(kind: Kind<'_>) -> bool
    ensures { result ≡ may_declare (word_of kind.entry) }
{
    matches!(
        kind,
        Kind::Keyword(Keyword::Let | Keyword::For | Keyword::Catch)
            | Kind::Mark(Mark::OpenParenthesis | Mark::Comma)
    )
}
