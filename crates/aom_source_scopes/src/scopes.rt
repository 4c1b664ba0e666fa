//! Where a name holds.
ghost use Rattle.std.specs.Prelude.{◌≡◌, ◌+◌, ◌-◌, ◌<◌, ◌^◌, IfOk, get_or};
ghost use Rattle.aom_source_tokens.specs.Tokens.{word_of};
ghost use Rattle.aom_source_scopes.specs.Tables.{AreOf};
ghost use Rattle.aom_source_scopes.specs.Scopes.{holds_at, is_declared, is_of_block, is_one_part, scope_close, word_at};

use crate::blocks::Blocks;
use crate::words::{is_end, is_if, is_let, may_declare};
use aom_source_tokens::{Keyword, Kind, Mark, Tokens};
use std::alloc::{AllocError, Global};
use std::marker::Model;

/// The tokens of a source, with the blocks in which they stand.
#[derive(Drop)]
pub struct Scopes<'t, 'a> {
    tokens: &'t Tokens<'a>,
    blocks: Blocks,
}

impl<'t, 'a> Model for Scopes<'t, 'a> {
    ghost use Rattle.aom_source_tokens.specs.Tokens.{Source};
    ghost use Rattle.aom_source_scopes.specs.Tables.{AreOf};

    ghost Value = { Source };

    ghost view = { λ s. s.tokens.now };

    ghost invariant = { λ s. AreOf s.tokens.now.tokens s.blocks };
}

impl<'t, 'a> Scopes<'t, 'a> {
    /// The scopes of a source, by its tokens.
    pub fn of(alloc: Global, tokens: &'t Tokens<'a>) -> Result<Scopes<'t, 'a>, AllocError>
        ensures { IfOk result (λ s. s ≡ tokens.now) }
    {
        let blocks = Blocks::of(alloc, tokens)?;
        Ok(Scopes { tokens, blocks })
    }

    /// Whether the token of that number stands where a name is declared.
    pub fn is_declared(&self, declared: usize) -> bool
        ensures { result ≡ is_declared self.now declared }
    {
        may_declare(kind(self.tokens, declared.saturating_sub(1)))
    }

    /// Whether the name that one token declares holds at another: from the statement or head that declares it to the end of its block.
    pub fn holds_at(&self, declared: usize, token: usize) -> bool
        ensures { result ≡ holds_at self.now declared token }
    {
        let left = self.tokens.len().saturating_sub(token);
        scope_close(self.tokens, &self.blocks, declared) <= left
            && (declared <= token || is_one_part(self.tokens, token, declared - token))
    }
}

/// What the token of that number is.
fn kind<'a>(tokens: &Tokens<'a>, at: usize) -> Kind<'a>
    ensures { word_of result ≡ word_at tokens.now at }
{
    tokens.get(at).kind
}

/// The brace at which a name does not hold any more, by how many tokens come from it on.
#[tactic(auto, using(crate::proofs::Tables::at_declared))]
fn scope_close(tokens: &Tokens<'_>, blocks: &Blocks, declared: usize) -> usize
    requires { AreOf tokens.now.tokens blocks.now }
    ensures { result ≡ scope_close tokens.now declared }
{
    let left = tokens.len().saturating_sub(declared);
    if is_of_block(tokens, declared) {
        entry(&blocks.own, left)
    } else {
        entry(&blocks.next, left)
    }
}

fn entry(entries: &Vec<usize>, at: usize) -> usize
    ensures { result ≡ get_or entries.now.items at 0 }
{
    match entries.get(at) {
        Some(entry) => *entry,
        None => 0,
    }
}

/// Whether a statement declares it in the block in which it stands.
fn is_of_block(tokens: &Tokens<'_>, declared: usize) -> bool
    ensures { result ≡ is_of_block (word_at tokens.now (declared - 3)) (word_at tokens.now (declared - 2)) (word_at tokens.now (declared - 1)) }
{
    match kind(tokens, declared.saturating_sub(1)) {
        Kind::Keyword(Keyword::Let) => !is_if(kind(tokens, declared.saturating_sub(2))),
        Kind::Mark(Mark::Comma) => is_let(kind(tokens, declared.saturating_sub(3))),
        _ => false,
    }
}

/// Whether so many tokens from one on are of one statement or head.
#[tactic(auto, unfolding(crate::specs::Scopes::is_one_part))]
fn is_one_part(tokens: &Tokens<'_>, first: usize, count: usize) -> bool
    requires { first + count < 2 ^ 64 }
    ensures { result ≡ is_one_part tokens.now first count }
{
    let mut is_one = true;
    for at in 0..count {
        is_one = is_one && !is_end(kind(tokens, first + at));
    }
    is_one
}
