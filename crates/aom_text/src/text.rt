//! Lines and statements.
ghost use Rattle.std.specs.Prelude.{◌≡◌, ◌+◌, ◌<◌, ◌≤◌, ◌^◌, ◌∷◌, ◌==◌, not, length, take, [], IfSome};
ghost use Rattle.std.specs.List.{list_all, position, position_or_len};
ghost use Rattle.aom_text.specs.Words.{is_plain, words, split_by};
ghost use Rattle.aom_text.specs.Text.{lines_of, worded, put_words, left_of_line, left_of_text, statements, first_statement, other_statements, line_count, line_statements, comment_statements};

use crate::WordCursor;
use crate::word::{is_blank, is_plain};
use std::marker::Model;

/// A statement: the line that it stands in, counted from 1, and its words.
///
/// A byte that a text may not have, in a comment, counts as a statement of one word.
#[derive(Drop)]
pub struct Statement<'a> {
    pub line: u32,
    pub words: WordCursor<'a>,
}

/// What is still to be read of a line.
#[derive(Clone, Copy)]
pub struct LineCursor<'a> {
    number: u32,
    code: &'a [u8],
    comment: &'a [u8],
}

/// What is still to be read of a text: of a line, and the lines after it.
#[derive(Clone, Copy)]
pub struct Rest<'a> {
    line: LineCursor<'a>,
    later: &'a [u8],
}

/// The statements that are still to be read of a text.
#[derive(Drop)]
pub struct StatementCursor<'a> {
    rest: Rest<'a>,
}

impl<'a> Model for StatementCursor<'a> {
    ghost use Rattle.std.specs.Prelude.{List, ◌+◌, ◌≤◌, ◌^◌, length};
    ghost use Rattle.aom_text.specs.declared.text.Statement.{Statement};
    ghost use Rattle.aom_text.specs.Text.{left_of_text};

    ghost Value = { List Statement };

    ghost view = { λ t. left_of_text t.rest };

    ghost invariant = { λ t. t.rest.line.number + length t.rest.later.now ≤ 2 ^ 20 };
}

impl<'a> StatementCursor<'a> {
    /// All statements of a text.
    pub fn of(text: &'a [u8]) -> StatementCursor<'a>
        requires { length text.now ≤ 2 ^ 20 }
        ensures { result ≡ statements text.now }
    {
        let line = LineCursor {
            number: 0,
            code: &[],
            comment: &[],
        };
        StatementCursor {
            rest: Rest { line, later: text },
        }
    }

    /// The same statements, to be read on their own.
    pub fn again(&self) -> StatementCursor<'a>
        ensures { result ≡ self.now }
    {
        StatementCursor { rest: self.rest }
    }

    /// The next statement, which is read.
    pub fn next(&mut self) -> Option<Statement<'a>>
        ensures statement { result ≡ first_statement self.old }
        ensures rest { self.new ≡ other_statements self.old }
    {
        match first_of_text(self.rest) {
            Some((statement, rest)) => {
                self.rest = rest;
                Some(statement)
            }
            None => None,
        }
    }
}

/// How many lines a text has.
pub fn last_line(text: &[u8]) -> u32
    requires { length text.now ≤ 2 ^ 20 }
    ensures { result ≡ line_count text.now }
{
    let mut rest = text;
    let mut count = 0;
    while !rest.is_empty() {
        rest = split_line(rest).1;
        count += 1;
    }
    count
}

/// The first statement of what is left of a text, and what is left then.
fn first_of_text(text: Rest) -> Option<(Statement, Rest)>
    requires { text.line.number + length text.later.now ≤ 2 ^ 20 }
    ensures first { left_of_text text.entry ≡ split_by (λ s. s) left_of_text result }
    ensures number { IfSome result (λ p. p.1.line.number + length p.1.later.now ≤ 2 ^ 20) }
{
    let mut rest = text;
    loop {
        if let Some((statement, line)) = first_of_line(rest.line) {
            return Some((statement, Rest { line, ..rest }));
        }
        if rest.later.is_empty() {
            return None;
        }
        let (bytes, later) = split_line(rest.later);
        let line = open_line(rest.line.number + 1, bytes);
        rest = Rest { line, later };
    }
}

/// The first statement of what is left of a line, and what is left then.
fn first_of_line(line: LineCursor) -> Option<(Statement<'_>, LineCursor<'_>)>
    ensures first { left_of_line line.entry ≡ split_by (λ s. s) left_of_line result }
    ensures number { IfSome result (λ p. p.1.number ≡ line.entry.number) }
{
    let mut code = line.code;
    while !code.is_empty() {
        let (part, after) = split_part(code);
        let words = WordCursor::of(part);
        if !words.is_empty() {
            let rest = LineCursor {
                code: after,
                ..line
            };
            return Some((
                Statement {
                    line: line.number,
                    words,
                },
                rest,
            ));
        }
        code = after;
    }
    first_of_comment(line.number, line.comment)
}

/// The statement that a comment counts as, if it has a byte that a text may not have.
fn first_of_comment(number: u32, comment: &[u8]) -> Option<(Statement<'_>, LineCursor<'_>)>
    ensures first { comment_statements number comment.now ≡ split_by (λ s. s) left_of_line result }
    ensures number { IfSome result (λ p. p.1.number ≡ number) }
{
    match find_other(comment) {
        Some(at) => {
            let words = WordCursor::of(&comment[at..at + 1]);
            let rest = LineCursor {
                number,
                code: &[],
                comment: &[],
            };
            Some((
                Statement {
                    line: number,
                    words,
                },
                rest,
            ))
        }
        None => None,
    }
}

/// A line of that number, with its comment apart.
fn open_line(number: u32, bytes: &[u8]) -> LineCursor
    ensures value { left_of_line result ≡ line_statements number bytes.now }
    ensures number { result.number ≡ number }
{
    match find_mark(bytes) {
        Some(at) => LineCursor {
            number,
            code: &bytes[..at],
            comment: &bytes[at + 1..],
        },
        None => LineCursor {
            number,
            code: bytes,
            comment: &[],
        },
    }
}

/// A text's first line, without its line feed, and what comes after it.
pub fn split_line(text: &[u8]) -> (&[u8], &[u8])
    requires { 0 < length text.now }
    ensures line { lines_of text.now ≡ result.0.now ∷ lines_of result.1.now }
    ensures shorter { length result.1.now < length text.now }
{
    match find_feed(text) {
        Some(end) => (&text[..end], &text[end + 1..]),
        None => (text, &[]),
    }
}

/// The same, and whether the line has no byte that a text may not have.
pub fn split_text_line(text: &[u8]) -> (&[u8], &[u8], bool)
    requires { 0 < length text.now }
    ensures line { lines_of text.now ≡ result.0.now ∷ lines_of result.1.now }
    ensures plain { result.2 ≡ list_all is_plain result.0.now }
    ensures shorter { length result.1.now < length text.now }
{
    let (end, is_text) = scan_line(text);
    if end == text.len() {
        return (text, &[], is_text);
    }
    (&text[..end], &text[end + 1..], is_text)
}

/// How many bytes come before the first line feed, and whether a text may have all of them.
fn scan_line(text: &[u8]) -> (usize, bool)
    ensures end { result.0 ≡ position_or_len (λ b. b == 10) text.now }
    ensures plain { result.1 ≡ list_all is_plain (take result.0 text.now) }
    ensures within { result.0 ≤ length text.now }
{
    let mut end = 0;
    let mut is_text = true;
    while end < text.len() {
        match text[end] {
            32..=126 => {}
            b'\n' => return (end, is_text),
            other => is_text &= is_blank(other),
        }
        end += 1;
    }
    (end, is_text)
}

/// What stands before the first semicolon, and what comes after it.
fn split_part(code: &[u8]) -> (&[u8], &[u8])
    requires { 0 < length code.now }
    ensures parts { worded code.now ≡ put_words (words result.0.now) (worded result.1.now) }
    ensures shorter { length result.1.now < length code.now }
{
    match find_semicolon(code) {
        Some(end) => (&code[..end], &code[end + 1..]),
        None => (code, &[]),
    }
}

fn find_feed(text: &[u8]) -> Option<usize>
    ensures { result ≡ position (λ b. b == 10) text.now }
{
    text.iter().position(|b| *b == b'\n')
}

fn find_semicolon(code: &[u8]) -> Option<usize>
    ensures { result ≡ position (λ b. b == 59) code.now }
{
    code.iter().position(|b| *b == b';')
}

fn find_mark(bytes: &[u8]) -> Option<usize>
    ensures { result ≡ position (λ b. b == 35) bytes.now }
{
    bytes.iter().position(|b| *b == b'#')
}

/// Where the first byte is that a text may not have.
fn find_other(comment: &[u8]) -> Option<usize>
    ensures { result ≡ position (λ b. not (is_plain b)) comment.now }
{
    comment.iter().position(|b| !is_plain(*b))
}
