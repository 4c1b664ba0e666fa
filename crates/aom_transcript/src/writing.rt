//! Lines at a sink, as many at once as a page has room for.
ghost use Rattle.std.specs.Prelude.{ℕ, false, ◌≡◌, take};
ghost use Rattle.aom_transcript.specs.Sinks.{after};
ghost use Rattle.aom_transcript.specs.Text.{text_of};

use crate::{Line, Page, Sink, write_text};

/// Writes lines out, as many at once as the page has room for, and stops where the sink fails.
pub fn write_lines<W: Sink>(out: &mut W, page: &mut Page, lines: &[Line])
    ensures prefix { (n : ℕ) × (W.out out.new ≡ after (W.out out.old) (take n (text_of lines.now))) }
    ensures whole { W.failed out.new ≡ false → W.out out.new ≡ after (W.out out.old) (text_of lines.now) }
{
    page.clear();
    for line in lines {
        if !page.has_room() {
            write_text(out, page.as_bytes());
            if out.has_failed() {
                return;
            }
            page.clear();
        }
        page.add_line(line);
    }
    write_text(out, page.as_bytes());
}
