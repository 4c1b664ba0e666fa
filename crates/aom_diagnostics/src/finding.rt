//! Statements, by what they declare.
ghost use Rattle.std.specs.Prelude.{◌≡◌, ◌≤◌, ◌+◌, ◌^◌, [], length, option_map, slice_get, unwrap_or};
ghost use Rattle.std.specs.List.{filter};
ghost use Rattle.aom_diagnostics.specs.Declarations.{begins_with, begins, class_statement, image_statement, instruction_statement, method_statement, part};

use aom_syntax::Keyword;
use aom_text::{Statement, StatementCursor, WordCursor};

/// Whether the first word is that keyword.
pub fn begins_with(key: Keyword, words: &WordCursor) -> bool
    ensures { result ≡ begins_with key words.now }
{
    match words.peek() {
        Some(first) => first == key.text(),
        None => false,
    }
}

/// The statement that begins with a keyword and has so many of its like before it, and the statements behind it.
fn declaration<'a>(
    key: Keyword,
    mut text: StatementCursor<'a>,
    number: usize,
) -> Option<(Statement<'a>, StatementCursor<'a>)>
    ensures statement { option_map (λ p. p.0) result ≡ slice_get (filter (begins key) text.entry) number }
    ensures behind { unwrap_or (option_map (λ p. part (begins key) p.1 0) result) [] ≡ part (begins key) text.entry (number + 1) }
{
    let mut before = number;
    while let Some(statement) = text.next() {
        if begins_with(key, &statement.words) {
            if before == 0 {
                return Some((statement, text));
            }
            before -= 1;
        }
    }
    None
}

/// The statement at a place, of those before the next that begins with a keyword.
fn at_place<'a>(key: Keyword, mut text: StatementCursor<'a>, place: usize) -> Option<Statement<'a>>
    ensures { result ≡ slice_get (part (begins key) text.entry 0) place }
{
    let mut before = place;
    while let Some(statement) = text.next() {
        if begins_with(key, &statement.words) {
            return None;
        }
        if before == 0 {
            return Some(statement);
        }
        before -= 1;
    }
    None
}

/// The statement that declares the image: the first.
pub fn image_statement(text: &[u8]) -> Option<Statement>
    requires { length text.now ≤ 2 ^ 20 }
    ensures { result ≡ image_statement text.now }
{
    let mut text = StatementCursor::of(text);
    text.next()
}

/// The statement that declares the class of that number.
pub fn class_statement(text: &[u8], number: usize) -> Option<Statement>
    requires { length text.now ≤ 2 ^ 20 }
    ensures { result ≡ class_statement text.now number }
{
    let (statement, _) = declaration(Keyword::Class, StatementCursor::of(text), number)?;
    Some(statement)
}

/// The statement that declares the method of that number.
pub fn method_statement(text: &[u8], number: usize) -> Option<Statement>
    requires { length text.now ≤ 2 ^ 20 }
    ensures { result ≡ method_statement text.now number }
{
    let (statement, _) = declaration(Keyword::Method, StatementCursor::of(text), number)?;
    Some(statement)
}

/// The statement that holds the instruction at a place of the method of that number.
pub fn instruction_statement(text: &[u8], number: usize, place: usize) -> Option<Statement>
    requires { length text.now ≤ 2 ^ 20 }
    ensures { result ≡ instruction_statement text.now number place }
{
    let (_, behind) = declaration(Keyword::Method, StatementCursor::of(text), number)?;
    at_place(Keyword::Method, behind, place)
}
