//! The names that a text declares.
ghost use Rattle.std.specs.Prelude.{◌≡◌, [], IfOk, option_map};
ghost use Rattle.aom_asm.specs.TextNames.{name_after, declared_names, is_end, label_in, labels_of};

use crate::statements::Statements;
use aom_syntax::{Keyword, NameList, label_of};
use aom_text::WordCursor;
use std::alloc::{AllocError, Global};

/// The name behind a keyword, where a statement begins with it.
fn name_after<'a>(key: Keyword, mut words: WordCursor<'a>) -> Option<&'a [u8]>
    ensures { option_map (λ w. w.now) result ≡ name_after key words.entry }
{
    match words.next() {
        Some(first) => {
            if first == key.text() {
                words.next()
            } else {
                None
            }
        }
        None => None,
    }
}

/// The names behind a keyword, in the order of the statements.
pub fn declared_names<'a>(
    alloc: Global,
    mut text: Statements<'_, 'a>,
    key: Keyword,
) -> Result<NameList<'a>, AllocError>
    ensures { IfOk result (λ n. n ≡ declared_names key [] text.entry) }
{
    let mut names = NameList::none(alloc);
    while let Some(statement) = text.next() {
        if let Some(name) = name_after(key, statement.words) {
            names.add(name)?;
        }
    }
    Ok(names)
}

/// The label that a statement begins with, or an empty one.
fn label_in<'a>(words: WordCursor<'a>) -> &'a [u8]
    ensures { result.now ≡ label_in words.entry }
{
    match words.peek() {
        Some(first) => match label_of(first) {
            Some(label) => label,
            None => &[],
        },
        None => &[],
    }
}

fn is_end(words: &WordCursor) -> bool
    ensures { result ≡ is_end words.now }
{
    match words.peek() {
        Some(first) => first == Keyword::End.text(),
        None => false,
    }
}

/// The labels of the statements up to `end`, an empty one where there is none.
pub fn labels_of<'a>(
    alloc: Global,
    mut text: Statements<'_, 'a>,
) -> Result<NameList<'a>, AllocError>
    ensures { IfOk result (λ n. n ≡ labels_of [] text.entry) }
{
    let mut labels = NameList::none(alloc);
    while let Some(statement) = text.next() {
        if is_end(&statement.words) {
            return Ok(labels);
        }
        labels.add(label_in(statement.words))?;
    }
    Ok(labels)
}
