//! Whether the names in a text are those of its source.
ghost use Rattle.std.specs.Prelude.{◌≡◌, ◌≤◌, ◌^◌, IfOk, length, true};
ghost use Rattle.aom_source_listing.specs.Listing.{AreClassesNamed, AreMembersNamed, AreMethodsNamed};

use crate::classes::is_class_name;
use crate::labels::is_label;
use crate::lines::{entry_at, line_token, lines_of, words_at};
use crate::members::tells_members;
use crate::own::Owns;
use aom_diagnostics::{class_lines, class_names, method_lines, method_names};
use aom_source_names::Names;
use std::alloc::{AllocError, Global};

/// Whether each class of a text has the name of the class of whose declaration its line comes. `tokens` has the token of each line.
pub fn are_classes_named(
    alloc: Global,
    names: &Names<'_, '_>,
    tokens: &[u32],
    text: &[u8],
) -> Result<bool, AllocError>
    requires { length text.now ≤ 2 ^ 20 }
    ensures { IfOk result (λ are. are ≡ true → AreClassesNamed names.now tokens.now text.now) }
{
    let found = class_names(alloc, text)?;
    let lines = class_lines(alloc, text)?;
    for number in 0..found.len() {
        let token = line_token(tokens, entry_at(&lines, number));
        if !is_class_name(names, token, words_at(&found, number)) {
            return Ok(false);
        }
    }
    Ok(true)
}

/// Whether each method of a text is called what the method is called of whose declaration its line comes, or one that is added to the class that begins there.
pub fn are_methods_named(
    alloc: Global,
    names: &Names<'_, '_>,
    tokens: &[u32],
    text: &[u8],
) -> Result<bool, AllocError>
    requires { length text.now ≤ 2 ^ 20 }
    ensures { IfOk result (λ are. are ≡ true → AreMethodsNamed names.now tokens.now text.now) }
{
    let found = method_names(alloc, text)?;
    let lines = method_lines(alloc, text)?;
    for number in 0..found.len() {
        let token = line_token(tokens, entry_at(&lines, number));
        if !is_label(alloc, names, token, words_at(&found, number))? {
            return Ok(false);
        }
    }
    Ok(true)
}

/// Whether the line of each class of a text tells the words and the fields of the class of whose declaration it comes.
pub fn are_members_named(
    alloc: Global,
    names: &Names<'_, '_>,
    tokens: &[u32],
    text: &[u8],
) -> Result<bool, AllocError>
    requires { length text.now ≤ 2 ^ 20 }
    ensures { IfOk result (λ are. are ≡ true → AreMembersNamed names.now tokens.now text.now) }
{
    let owns = Owns::of(alloc, names)?;
    let all = lines_of(alloc, text)?;
    let lines = class_lines(alloc, text)?;
    for number in 0..lines.len() {
        let line = entry_at(&lines, number);
        let written = words_at(&all, (line as usize).saturating_sub(1));
        if !tells_members(alloc, &owns, line_token(tokens, line), written)? {
            return Ok(false);
        }
    }
    Ok(true)
}
