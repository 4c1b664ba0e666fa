//! Whether the names of registers are those of the source, in the lines in which they hold.
ghost use Rattle.std.specs.Prelude.{◌≡◌, ◌≤◌, ◌<◌, All, IfOk, get_or, true, ℕ};
ghost use Rattle.aom_source_scopes.specs.Scopes.{holds_at};
ghost use Rattle.aom_source_tokens.specs.Tokens.{A_name, token_at};
ghost use Rattle.aom_source.specs.Map.{IsNamed, tokens_of};

use crate::writing::{Origin, Written};
use aom_source_code::NamedRegister;
use aom_source_scopes::Scopes;
use aom_source_tokens::{Kind, Tokens};
use std::alloc::{AllocError, Global};

/// Whether each name of a register is what its token declares, and each line that has it comes of its scope.
pub fn are_named(
    alloc: Global,
    tokens: &Tokens<'_>,
    written: &Written<'_>,
) -> Result<bool, AllocError>
    ensures { IfOk result (λ are. are ≡ true → All (IsNamed tokens.now written.now.origins.items) written.now.names.items) }
{
    let scopes = Scopes::of(alloc, tokens)?;
    for named in &written.names {
        if !is_named(tokens, &scopes, &written.origins, *named) {
            return Ok(false);
        }
    }
    Ok(true)
}

fn is_named(
    tokens: &Tokens<'_>,
    scopes: &Scopes<'_, '_>,
    origins: &Vec<Origin<'_>>,
    named: NamedRegister<'_>,
) -> bool
    requires { scopes.now ≡ tokens.now }
    ensures { result ≡ true → IsNamed tokens.now origins.now.items named.entry }
{
    is_name(tokens, named)
        && scopes.is_declared(named.token as usize)
        && holds_in_lines(scopes, origins, named)
}

/// Whether the token that declares a name is that name.
fn is_name(tokens: &Tokens<'_>, named: NamedRegister<'_>) -> bool
    ensures { result ≡ true → (token_at tokens.now named.entry.token).word ≡ A_name named.entry.name.now }
{
    match tokens.get(named.token as usize).kind {
        Kind::Name(name) => name == named.name,
        _ => false,
    }
}

fn holds_in_lines(
    scopes: &Scopes<'_, '_>,
    origins: &Vec<Origin<'_>>,
    named: NamedRegister<'_>,
) -> bool
    ensures { result ≡ true → (line : ℕ) → named.entry.from ≤ line → line < named.entry.to → holds_at scopes.now named.entry.token (get_or (tokens_of origins.now.items) line 0) ≡ true }
{
    for line in named.from..named.to {
        if !scopes.holds_at(named.token as usize, token_of(origins, line)) {
            return false;
        }
    }
    true
}

/// The token that a line comes of.
fn token_of(origins: &Vec<Origin<'_>>, line: usize) -> usize
    ensures { result ≡ get_or (tokens_of origins.now.items) line 0 }
{
    match origins.get(line) {
        Some(origin) => origin.token as usize,
        None => 0,
    }
}
