//! Lines with the names of classes in place of their numbers.
ghost use Rattle.std.specs.Prelude.{ℕ, false, ◌≡◌, ◌+◌, ◌≤◌, ◌++◌, decimal, length, option_map, take, unwrap_or, IfNone, IfSome};
ghost use Rattle.aom_transcript.specs.Text.{ended, line_text};
ghost use Rattle.aom_transcript.specs.Sinks.{after};
ghost use Rattle.aom_transcript.specs.Naming.{class_word, borrowed, named_text, named_by, text_by};

use crate::page::asked_words;
use crate::{Line, Page, Sink, Text, write_lines, write_text};
use aom_instructions::ClassNumber;

/// No line with the name of its class is longer than this.
const LONGEST_LINE: usize = 128;

/// No name is longer than this.
const LONGEST_NAME: usize = 32;

/// Writes lines out, by the names of classes where there are some, and stops where the sink fails.
pub fn put_lines<W: Sink>(out: &mut W, page: &mut Page, names: Option<&[&[u8]]>, lines: &[Line])
    ensures prefix { (n : ℕ) × (W.out out.new ≡ after (W.out out.old) (take n (text_by (named_by names.entry) lines.now))) }
    ensures whole { W.failed out.new ≡ false → W.out out.new ≡ after (W.out out.old) (text_by (named_by names.entry) lines.now) }
{
    match names {
        Some(names) => write_named(out, page, names, lines),
        None => write_lines(out, page, lines),
    }
}

/// Writes lines out by the names of classes, one after another, and stops where the sink fails.
fn write_named<W: Sink>(out: &mut W, page: &mut Page, names: &[&[u8]], lines: &[Line])
    ensures prefix { (n : ℕ) × (W.out out.new ≡ after (W.out out.old) (take n (text_by (named_text (class_word (borrowed names.now))) lines.now))) }
    ensures whole { W.failed out.new ≡ false → W.out out.new ≡ after (W.out out.old) (text_by (named_text (class_word (borrowed names.now))) lines.now) }
{
    for line in lines {
        write_one(out, page, names, line);
        if out.has_failed() {
            return;
        }
    }
}

/// Writes a line out by the name of its class, where it has one.
fn write_one<W: Sink>(out: &mut W, page: &mut Page, names: &[&[u8]], line: &Line)
    ensures prefix { (n : ℕ) × (W.out out.new ≡ after (W.out out.old) (take n (ended (named_text (class_word (borrowed names.now)) line.now)))) }
    ensures whole { W.failed out.new ≡ false → W.out out.new ≡ after (W.out out.old) (ended (named_text (class_word (borrowed names.now)) line.now)) }
{
    match named_line(names, line) {
        Some(text) => write_text(out, text.as_bytes()),
        None => {
            page.clear();
            page.add_line(line);
            write_text(out, page.as_bytes());
        }
    }
}

/// The text of a line that has a class, by its name.
fn named_line(names: &[&[u8]], line: &Line) -> Option<Text<LONGEST_LINE>>
    ensures some { IfSome result (λ text. text ≡ ended (named_text (class_word (borrowed names.now)) line.now)) }
    ensures none { IfNone result (named_text (class_word (borrowed names.now)) line.now ≡ line_text line.now) }
{
    let mut text: Text<LONGEST_LINE> = Text::new();
    match line {
        Line::Gone(class) => {
            text.add(b"gone ");
            add_class(&mut text, names, *class);
        }
        Line::Run(time, class, status) => {
            text.add_count(b"@", *time);
            text.add(b" run ");
            add_class(&mut text, names, *class);
            text.add_count(b" ", *status);
        }
        Line::Serve(time, class, asked, client) => {
            text.add_count(b"@", *time);
            text.add(b" serve ");
            add_class(&mut text, names, *class);
            text.add_count(asked_words(*asked), *client);
        }
        _ => return None,
    }
    text.add(b"\n");
    Some(text)
}

/// The name of a class, where it has one that is no longer than a name may be.
fn name_of<'a>(names: &[&'a [u8]], class: ClassNumber) -> Option<&'a [u8]>
    ensures is { class_word (borrowed names.now) class ≡ unwrap_or (option_map (λ n. n.now) result) (decimal class) }
    ensures short { IfSome result (λ name. length name.now ≤ 32) }
{
    let name = names.get(class.number() as usize)?;
    if name.len() > LONGEST_NAME {
        return None;
    }
    Some(name)
}

/// Adds the name of a class or, where it has none, its number.
fn add_class(text: &mut Text<LONGEST_LINE>, names: &[&[u8]], class: ClassNumber)
    requires { length text.old + 32 ≤ 128 }
    ensures text { text.new ≡ text.old ++ class_word (borrowed names.now) class }
    ensures short { length text.new ≤ length text.old + 32 }
{
    match name_of(names, class) {
        Some(name) => text.add(name),
        None => text.add_number(class.number()),
    }
}
