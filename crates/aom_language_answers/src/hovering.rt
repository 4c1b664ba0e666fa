//! What is told of a name and of its line.
ghost use Rattle.std.specs.Prelude.{◌≡◌, ◌++◌, ◌<◌, ◌^◌, IfOk, OnOk, map};
ghost use Rattle.aom_source_tokens.specs.Tokens.{word_of};
ghost use Rattle.serde_json.specs.View.{view};
ghost use Rattle.aom_source_scopes.specs.Words.{is_end};
ghost use Rattle.aom_language_answers.specs.Hovers.{begins_in, declaration_text, declarations_text, found_at, head_end, head_text, hover_data, hover_text, is_blank, line_of, note_text, told_data, trimmed};
ghost use Rattle.aom_language_answers.specs.Places.{first_name_at};

use crate::places::{name_at, range_of};
use crate::position::{Position, Ruler};
use crate::texts::text_or_none;
use aom_source_names::Names;
use aom_source_tokens::{Kind, Mark};
use serde_json::{Value, json};
use std::alloc::{AllocError, Global};

/// The most declarations that are told of one name.
const MOST_TOLD: usize = 16;

/// What is told at a position, with the range of the name there. `notes` are what `show` writes behind the lines, none where the source is not accepted. Null,
/// where nothing is told.
pub fn hover(
    alloc: Global,
    names: &Names<'_, '_>,
    ruler: &mut Ruler<'_>,
    wanted: Position,
    notes: &[Vec<u8>],
) -> Result<Value, AllocError>
    ensures same { ruler.new ≡ ruler.old }
    ensures is { IfOk result (λ v. view v ≡ hover_data names.now ruler.old (map (λ note. note.items) notes.now) wanted) }
{
    let told = hover_text(alloc, names, ruler, wanted, notes)?;
    let told = text_or_none(&told);
    if told.is_empty() {
        return Ok(Value::Null);
    }
    told_value(alloc, names, ruler, wanted, told)
}

/// What is told, with the range of the name at a position, if there is one.
fn told_value(
    alloc: Global,
    names: &Names<'_, '_>,
    ruler: &mut Ruler<'_>,
    wanted: Position,
    told: &str,
) -> Result<Value, AllocError>
    ensures same { ruler.new ≡ ruler.old }
    ensures is { IfOk result (λ v. view v ≡ told_data names.now ruler.old (first_name_at names.now ruler.old wanted) told.now) }
{
    let contents = json!(in alloc; {"kind": "plaintext", "value": told})?;
    let Some(at) = name_at(names, ruler, wanted) else {
        return json!(in alloc; {"contents": contents});
    };
    let range = range_of(alloc, names, ruler, at)?;
    json!(in alloc; {"contents": contents, "range": range})
}

/// The heads of the declarations of the name at a position, each with what `show` writes behind its line; then what it writes behind the position's own line, if the
/// first of them is in another.
pub fn hover_text(
    alloc: Global,
    names: &Names<'_, '_>,
    ruler: &mut Ruler<'_>,
    wanted: Position,
    notes: &[Vec<u8>],
) -> Result<Vec<u8>, AllocError>
    ensures same { ruler.new ≡ ruler.old }
    ensures is { IfOk result (λ told. told.items
        ≡ hover_text names.now ruler.old (map (λ note. note.items) notes.now) wanted (first_name_at names.now ruler.old wanted)) }
{
    let mut told: Vec<u8> = Vec::new(alloc);
    let found = found_at(alloc, names, name_at(names, ruler, wanted))?;
    tell_declarations(
        &mut told,
        names,
        notes,
        &found[..found.len().min(MOST_TOLD)],
    )?;
    if !begins_in(names, &found, wanted.line) {
        tell_line(&mut told, notes, wanted.line as usize)?;
    }
    Ok(told)
}

/// The declarations of a name, if there is one.
fn found_at(alloc: Global, names: &Names<'_, '_>, name: Option<u32>) -> Result<Vec<u32>, AllocError>
    ensures { IfOk result (λ found. found.items ≡ found_at names.now name) }
{
    match name {
        Some(at) => names.definitions(alloc, at),
        None => Ok(Vec::new(alloc)),
    }
}

/// Whether the first of some declarations is in a line.
fn begins_in(names: &Names<'_, '_>, found: &[u32], line: u64) -> bool
    ensures { result ≡ begins_in names.now found.now line }
{
    match found.first() {
        Some(declared) => line_of(names, *declared) as u64 == line,
        None => false,
    }
}

/// The line of a token, counted from 0.
fn line_of(names: &Names<'_, '_>, at: u32) -> usize
    ensures is { result ≡ line_of names.now at }
    ensures small { result < 2 ^ 32 }
{
    (names.tokens().get(at as usize).place.line as usize).saturating_sub(1)
}

/// Adds declarations, one behind the other.
fn tell_declarations(
    told: &mut Vec<u8>,
    names: &Names<'_, '_>,
    notes: &[Vec<u8>],
    found: &[u32],
) -> Result<(), AllocError>
    ensures { OnOk result (told.new.items
        ≡ told.old.items ++ declarations_text names.now (map (λ note. note.items) notes.now) found.now) }
{
    for declared in found {
        tell_declaration(told, names, notes, *declared)?;
    }
    Ok(())
}

/// Adds the head of a declaration, and the note of its line.
fn tell_declaration(
    told: &mut Vec<u8>,
    names: &Names<'_, '_>,
    notes: &[Vec<u8>],
    declared: u32,
) -> Result<(), AllocError>
    ensures { OnOk result (told.new.items
        ≡ told.old.items ++ declaration_text names.now (map (λ note. note.items) notes.now) declared) }
{
    told.extend_from_slice(head_of(names, declared))?;
    told.push(b'\n')?;
    tell_line(told, notes, line_of(names, declared))
}

/// Adds the note of a line, without the mark of a comment.
fn tell_line(told: &mut Vec<u8>, notes: &[Vec<u8>], line: usize) -> Result<(), AllocError>
    ensures { OnOk result (told.new.items ≡ told.old.items ++ note_text (map (λ note. note.items) notes.now) line) }
{
    let Some(note) = notes.get(line) else {
        return Ok(());
    };
    if note.len() < 5 {
        return Ok(());
    }
    told.extend_from_slice(&note[5..])?;
    told.push(b'\n')?;
    Ok(())
}

/// The head of a declaration: its statement up to its brace or its semicolon.
fn head_of<'a>(names: &Names<'_, 'a>, declared: u32) -> &'a [u8]
    ensures { result.now ≡ head_text names.now declared }
{
    let tokens = names.tokens();
    let source = tokens.source();
    let end = (tokens.get(head_end(names, declared as usize)).place.at as usize).min(source.len());
    let begin = (tokens.get(names.spot(declared).begin as usize).place.at as usize).min(end);
    trimmed(&source[begin..end])
}

/// The brace or semicolon at which the head of a declaration ends.
#[tactic(auto, unfolding(crate::specs::Hovers::first_end))]
fn head_end(names: &Names<'_, '_>, declared: usize) -> usize
    ensures { result ≡ head_end names.now declared }
{
    let count = names.tokens().len();
    let mut end = None;
    for at in declared..count {
        if end.is_none() && is_end(names.kind(at)) {
            end = Some(at);
        }
    }
    end.unwrap_or(count)
}

fn is_end(kind: Kind<'_>) -> bool
    ensures { result ≡ is_end (word_of kind.entry) }
{
    matches!(
        kind,
        Kind::Mark(Mark::OpenBrace | Mark::CloseBrace | Mark::Semicolon)
    )
}

/// What comes before the blanks at the end.
#[tactic(auto, unfolding(crate::specs::Hovers::trimmed_size))]
fn trimmed(text: &[u8]) -> &[u8]
    ensures { result.now ≡ trimmed text.now }
{
    let mut size = 0;
    for at in 0..text.len() {
        if !is_blank(text[at]) {
            size = at + 1;
        }
    }
    &text[..size]
}

fn is_blank(byte: u8) -> bool
    ensures { result ≡ is_blank byte }
{
    matches!(byte, b' ' | b'\t' | b'\r' | b'\n')
}
