//! What stands behind the lines of a source that is shown: at most one comment a line, of what was added there and what a method costs.
ghost use Rattle.std.specs.Prelude.{◌≡◌, [], ◌++◌, All, IfOk, OnOk, IsOk, codes, get_or, map};
ghost use Rattle.aom_source_commands.specs.Showing.{IsNote};

use crate::told::{Told, told_of};
use aom_cost_report::FigureWriter;
use aom_source::Written;
use aom_source_tokens::Tokens;
use std::alloc::{AllocError, Global};
use std::marker::Model;

/// No more notes of one line are compared with a new one.
const COMPARED: usize = 16;

/// The notes behind the lines of a source, from its first line on.
#[derive(Drop)]
pub struct LineNotes {
    notes: Vec<Vec<u8>>,
}

impl Model for LineNotes {
    ghost use Rattle.std.specs.Prelude.{List, ℕ, All, map};
    ghost use Rattle.aom_source_commands.specs.Showing.{IsNote};

    ghost Value = { List (List ℕ) };

    ghost view = { λ n. map (λ note. note.items) n.notes.items };

    ghost invariant = { λ n. All IsNote (map (λ note. note.items) n.notes.items) };
}

impl LineNotes {
    /// Those of a source that was compiled to that text, where the methods of its image cost so much.
    pub fn of(
        alloc: Global,
        tokens: &Tokens<'_>,
        written: &Written<'_>,
        prices: &[u64],
    ) -> Result<LineNotes, AllocError> {
        let told = told_of(alloc, tokens, written, prices)?;
        let mut notes: Vec<Vec<u8>> = Vec::new(alloc);
        for line in &told {
            let note = note_of(alloc, line)?;
            notes.push(note)?;
        }
        Ok(LineNotes { notes })
    }

    /// Each of them is nothing, or a comment to the end of the line.
    pub fn facts(&self)
        ensures { All IsNote self.now }
    {
        let _ = &self.notes;
    }

    /// All of them, from the first line on.
    pub fn as_slice(&self) -> &[Vec<u8>]
        ensures { map (λ note. note.items) result.now ≡ self.now }
    {
        &self.notes
    }

    /// What stands behind a line, whose number counts from 0.
    pub fn behind(&self, line: usize) -> &[u8]
        ensures { result.now ≡ get_or self.now line [] }
    {
        match self.notes.get(line) {
            Some(note) => note,
            None => b"",
        }
    }
}

/// The note of a line of which that is told.
fn note_of(alloc: Global, told: &[Told<'_>]) -> Result<Vec<u8>, AllocError>
    ensures { IfOk result (λ note. IsNote note.items) }
{
    let mut text = FigureWriter::new(alloc);
    for at in 0..told.len() {
        if !is_told_before(told, at) {
            text.words(b"; ")?;
            told[at].write(&mut text)?;
        }
    }
    comment(alloc, &text.into_text())
}

/// Whether the same was told shortly before.
fn is_told_before(told: &[Told<'_>], at: usize) -> bool {
    let Some(latest) = told.get(at) else {
        return false;
    };
    for before in at.saturating_sub(COMPARED)..at {
        if let Some(earlier) = told.get(before) {
            if earlier == latest {
                return true;
            }
        }
    }
    false
}

/// A comment of some words, which are parted by `; `. Where there are none there is no comment.
fn comment(alloc: Global, words: &[u8]) -> Result<Vec<u8>, AllocError>
    ensures { IfOk result (λ note. IsNote note.items) }
{
    let mut note: Vec<u8> = Vec::new(alloc);
    if words.len() < 2 {
        return Ok(note);
    }
    note.extend_from_slice(b"  // ")?;
    for byte in &words[2..] {
        note.push(if *byte == b'\n' { b' ' } else { *byte })?;
    }
    Ok(note)
}
