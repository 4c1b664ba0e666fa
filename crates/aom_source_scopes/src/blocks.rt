//! The ends of blocks, found from the last token back.
ghost use Rattle.std.specs.Prelude.{◌≡◌, ◌-◌, [], ◌∷◌, IfOk, List, OnOk, drop, get_or, length};
ghost use Rattle.aom_source_tokens.specs.Tokens.{Placed, word_of};
ghost use Rattle.aom_source_scopes.specs.Blocks.{closers, closers_from, innermost, next_from};
ghost use Rattle.aom_source_scopes.specs.Tables.{AreOf};

use aom_source_tokens::{Kind, Mark, Tokens};
use std::alloc::{AllocError, Global};

/// The braces that close the block in which a token stands, and the block that opens next, for each token by how many tokens come from it on.
/// A brace is told so too, and 0 is none.
#[derive(Drop)]
pub struct Blocks {
    closers: Vec<usize>,
    pub own: Vec<usize>,
    pub next: Vec<usize>,
}

impl Blocks {
    /// The blocks of no tokens.
    #[tactic(auto, unfolding(crate::specs::Blocks::closers, crate::specs::Blocks::next_close, crate::specs::Tables::table))]
    fn new(alloc: Global) -> Result<Blocks, AllocError>
        ensures { IfOk result (AreOf []) }
    {
        let mut blocks = Blocks {
            closers: Vec::new(alloc),
            own: Vec::new(alloc),
            next: Vec::new(alloc),
        };
        blocks.own.push(0)?;
        blocks.next.push(0)?;
        Ok(blocks)
    }

    /// The blocks of a text.
    pub fn of(alloc: Global, tokens: &Tokens<'_>) -> Result<Blocks, AllocError>
        ensures { IfOk result (AreOf tokens.now.tokens) }
    {
        let mut blocks = Blocks::new(alloc)?;
        let count = tokens.len();
        for back in 0..count {
            blocks.add(tokens.get(count - 1 - back).kind)?;
        }
        Ok(blocks)
    }

    /// One token more comes before the others.
    #[tactic(auto, using(crate::proofs::Tables::added))]
    fn add(&mut self, kind: Kind<'_>) -> Result<(), AllocError>
        ensures { (t : Placed) (ts : List Placed) → t.word ≡ word_of kind.entry → AreOf ts self.old → OnOk result (AreOf (t ∷ ts) self.new) }
    {
        let next = next_from(kind, innermost(&self.closers), innermost(&self.next));
        self.next.push(next)?;
        let here = self.own.len();
        turn(&mut self.closers, kind, here)?;
        self.own.push(innermost(&self.closers))?;
        Ok(())
    }
}

/// The last of some braces, or 0.
fn innermost(braces: &Vec<usize>) -> usize
    ensures { result ≡ innermost braces.now.items }
{
    match braces.last() {
        Some(brace) => *brace,
        None => 0,
    }
}

fn next_from(kind: Kind<'_>, own: usize, next: usize) -> usize
    ensures { result ≡ next_from (word_of kind.entry) own next }
{
    match kind {
        Kind::Mark(Mark::OpenBrace) => own,
        _ => next,
    }
}

/// One token more comes before the braces that still close a block.
fn turn(braces: &mut Vec<usize>, kind: Kind<'_>, here: usize) -> Result<(), AllocError>
    ensures { OnOk result (braces.new.items ≡ closers_from (word_of kind.entry) here braces.old.items) }
{
    match kind {
        Kind::Mark(Mark::CloseBrace) => braces.push(here)?,
        Kind::Mark(Mark::OpenBrace) => {
            let _ = braces.pop();
        }
        _ => {}
    }
    Ok(())
}
