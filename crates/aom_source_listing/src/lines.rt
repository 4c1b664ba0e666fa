//! The lines of a text, and the tokens that they come of.
ghost use Rattle.std.specs.Prelude.{◌≡◌, ◌==◌, [], IfOk, get_or, map};
ghost use Rattle.std.specs.List.{position};
ghost use Rattle.aom_text.specs.Text.{lines_of};
ghost use Rattle.aom_source_listing.specs.Lines.{comment_of, line_token};

use aom_text::split_line;
use std::alloc::{AllocError, Global};

/// The lines of a text.
pub fn lines_of(alloc: Global, text: &[u8]) -> Result<Vec<&[u8]>, AllocError>
    ensures { IfOk result (λ lines. map (λ l. l.now) lines.items ≡ lines_of text.now) }
{
    let mut lines = Vec::new(alloc);
    let mut rest = text;
    while !rest.is_empty() {
        let (line, later) = split_line(rest);
        lines.push(line)?;
        rest = later;
    }
    Ok(lines)
}

/// What stands in a line behind its comment's mark.
pub fn comment_of(line: &[u8]) -> &[u8]
    ensures { result.now ≡ comment_of line.now }
{
    match find_mark(line) {
        Some(at) => &line[at + 1..],
        None => &[],
    }
}

fn find_mark(line: &[u8]) -> Option<usize>
    ensures { result ≡ position (λ b. b == 35) line.now }
{
    line.iter().position(|b| *b == b'#')
}

/// The token that the line of a number comes of, of which the first is 1.
pub fn line_token(tokens: &[u32], line: u32) -> u32
    ensures { result ≡ line_token tokens.now line }
{
    match tokens.get((line as usize).saturating_sub(1)) {
        Some(token) => *token,
        None => 0,
    }
}

/// The words of a number, or none.
pub fn words_at<'a>(words: &Vec<&'a [u8]>, number: usize) -> &'a [u8]
    ensures { result.now ≡ get_or (map (λ w. w.now) words.now.items) number [] }
{
    match words.get(number) {
        Some(words) => *words,
        None => &[],
    }
}

/// The entry of a number, or 0.
pub fn entry_at(entries: &Vec<u32>, number: usize) -> u32
    ensures { result ≡ get_or entries.now.items number 0 }
{
    match entries.get(number) {
        Some(entry) => *entry,
        None => 0,
    }
}
