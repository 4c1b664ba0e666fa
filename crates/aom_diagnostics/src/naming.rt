//! The names that a text declares.
ghost use Rattle.std.specs.Prelude.{ℕ, List, ◌≡◌, ◌≤◌, ◌^◌, IfOk, length, map};
ghost use Rattle.aom_diagnostics.specs.Declarations.{class_names, method_names, name_in, names_in};

use crate::finding::begins_with;
use aom_syntax::Keyword;
use aom_text::{StatementCursor, WordCursor};
use std::alloc::{AllocError, Global};

/// The second word of a statement, or an empty one.
fn name_in<'a>(mut words: WordCursor<'a>) -> &'a [u8]
    ensures { result.now ≡ name_in words.entry }
{
    match words.next() {
        Some(_) => match words.next() {
            Some(name) => name,
            None => &[],
        },
        None => &[],
    }
}

/// The names in the statements that begin with a keyword.
fn names_in<'a>(
    alloc: Global,
    key: Keyword,
    mut text: StatementCursor<'a>,
) -> Result<Vec<&'a [u8]>, AllocError>
    ensures { IfOk result (λ names. map (λ n. n.now) names.items ≡ names_in key text.entry) }
{
    let mut names = Vec::new(alloc);
    while let Some(statement) = text.next() {
        if begins_with(key, &statement.words) {
            names.push(name_in(statement.words))?;
        }
    }
    Ok(names)
}

/// The names of a text's classes, that of class 0 first.
pub fn class_names(alloc: Global, text: &[u8]) -> Result<Vec<&[u8]>, AllocError>
    requires { length text.now ≤ 2 ^ 20 }
    ensures { IfOk result (λ names. map (λ n. n.now) names.items ≡ class_names text.now) }
{
    names_in(alloc, Keyword::Class, StatementCursor::of(text))
}

/// The names of a text's methods, that of method 0 first.
pub fn method_names(alloc: Global, text: &[u8]) -> Result<Vec<&[u8]>, AllocError>
    requires { length text.now ≤ 2 ^ 20 }
    ensures { IfOk result (λ names. map (λ n. n.now) names.items ≡ method_names text.now) }
{
    names_in(alloc, Keyword::Method, StatementCursor::of(text))
}
