//! Whether all names in a text are those of the source.
ghost use Rattle.std.specs.Prelude.{◌≡◌, All, IfOk, true};
ghost use Rattle.aom_source.specs.Listing.{HasClassNames, HasMemberNames, HasMethodNames};
ghost use Rattle.aom_source.specs.Map.{IsNamed, tokens_of};

use crate::scoping::are_named;
use crate::writing::{Origin, Written};
use aom_source_listing::{are_classes_named, are_members_named, are_methods_named};
use aom_source_names::Names;
use aom_source_tokens::Tokens;
use std::alloc::{AllocError, Global};

/// The most bytes of an image's text.
pub const MOST_BYTES: usize = 1 << 20;

/// Whether the names of registers are those of the source, and those of classes, methods, words and fields.
pub fn are_all_named(
    alloc: Global,
    tokens: &Tokens<'_>,
    written: &Written<'_>,
) -> Result<bool, AllocError>
    ensures registers { IfOk result (λ are. are ≡ true → All (IsNamed tokens.now written.now.origins.items) written.now.names.items) }
    ensures classes { IfOk result (λ are. are ≡ true → HasClassNames tokens.now written.now) }
    ensures methods { IfOk result (λ are. are ≡ true → HasMethodNames tokens.now written.now) }
    ensures members { IfOk result (λ are. are ≡ true → HasMemberNames tokens.now written.now) }
{
    if MOST_BYTES < written.text.len() {
        return Ok(false);
    }
    let names = Names::of(alloc, tokens)?;
    let lines = tokens_of(alloc, &written.origins)?;
    Ok(
        are_named(alloc, tokens, written)?
            && are_classes_named(alloc, &names, &lines, &written.text)?
            && are_methods_named(alloc, &names, &lines, &written.text)?
            && are_members_named(alloc, &names, &lines, &written.text)?,
    )
}

/// The tokens of origins.
fn tokens_of(alloc: Global, origins: &Vec<Origin<'_>>) -> Result<Vec<u32>, AllocError>
    ensures { IfOk result (λ tokens. tokens.items ≡ tokens_of origins.now.items) }
{
    let mut tokens: Vec<u32> = Vec::new(alloc);
    for origin in origins {
        tokens.push(origin.token)?;
    }
    Ok(tokens)
}
