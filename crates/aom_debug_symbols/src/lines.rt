//! Which instruction is told to stand in a line.
ghost use Rattle.std.specs.Prelude.{◌≡◌, ◌≤◌, ◌^◌, length};
ghost use Rattle.aom_debug_symbols.specs.Lines.{next_of, place_in, spot_in};

use crate::file::line_told;
use aom_debug_protocol::CodeLocation;
use aom_diagnostics::begins_with;
use aom_syntax::Keyword;
use aom_text::StatementCursor;

/// No image has so many methods, or so many instructions in one.
const MAX: usize = 65_536;

/// One more, where that is not too many.
fn next(count: usize) -> Option<usize>
    ensures { result ≡ next_of count }
{
    if count < MAX { Some(count + 1) } else { None }
}

/// The place at hand behind so many statements that declare a method.
fn place_in(methods: usize, place: usize) -> Option<CodeLocation>
    ensures { result ≡ place_in methods place }
{
    let method = methods.checked_sub(1)?;
    if method >= MAX {
        return None;
    }
    Some(CodeLocation {
        method: method as u16,
        place,
    })
}

/// The place of the first instruction of a text that is told to stand in a line, if one is.
pub fn spot_in(text: &[u8], lines: &[u32], line: u32) -> Option<CodeLocation>
    requires { length text.now ≤ 2 ^ 20 }
    ensures { result ≡ spot_in text.now lines.now line }
{
    let mut rest = StatementCursor::of(text);
    let mut methods = 0;
    let mut place = 0;
    while let Some(statement) = rest.next() {
        if begins_with(Keyword::Method, &statement.words) {
            methods = next(methods)?;
            place = 0;
        } else if line_told(lines, statement.line) == line && methods > 0 {
            return place_in(methods, place);
        } else {
            place = next(place)?;
        }
    }
    None
}
