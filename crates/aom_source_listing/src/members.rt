//! The comment of a class's line: its words and fields by name.
ghost use Rattle.std.specs.Prelude.{◌≡◌, ◌++◌, IfOk, OnOk, drop, true};
ghost use Rattle.aom_source_listing.specs.Members.{TellsMembers, entries, entry, letter, members_text};

use crate::classes::{class_begun, name_at};
use crate::lines::comment_of;
use crate::own::{Member, Owns};
use aom_cost_report::FigureWriter;
use aom_source_names::Names;
use std::alloc::{AllocError, Global};

fn letter(kind: Member) -> &'static [u8]
    ensures { result.now ≡ letter kind }
{
    match kind {
        Member::Word => b", w",
        Member::Field => b", f",
    }
}

/// Writes a member by its number and its name.
fn write_entry(
    text: &mut FigureWriter,
    names: &Names<'_, '_>,
    kind: Member,
    number: usize,
    at: u32,
) -> Result<(), AllocError>
    ensures { OnOk result (text.new ≡ text.old ++ entry names.now kind number at) }
{
    text.count(letter(kind), number as u64)?;
    text.words(b" ")?;
    text.words(name_at(names, at))
}

/// Writes some members.
#[tactic(auto, unfolding(crate::specs::Members::entries_in))]
fn write_entries(
    text: &mut FigureWriter,
    names: &Names<'_, '_>,
    kind: Member,
    members: &Vec<u32>,
) -> Result<(), AllocError>
    ensures { OnOk result (text.new ≡ text.old ++ entries names.now kind members.now.items) }
{
    for number in 0..members.len() {
        write_entry(text, names, kind, number, members[number])?;
    }
    Ok(())
}

/// Whether a comment tells the members of a class.
fn tells(
    alloc: Global,
    owns: &Owns<'_, '_, '_>,
    class: u32,
    comment: &[u8],
) -> Result<bool, AllocError>
    ensures { IfOk result (λ tells. tells ≡ true → comment.now ≡ members_text owns.now class) }
{
    let Some(words) = owns.members(alloc, Member::Word, class)? else {
        return Ok(false);
    };
    let Some(fields) = owns.members(alloc, Member::Field, class)? else {
        return Ok(false);
    };
    let mut text = FigureWriter::new(alloc);
    write_entries(&mut text, owns.names(), Member::Word, &words)?;
    write_entries(&mut text, owns.names(), Member::Field, &fields)?;
    let text = text.into_text();
    Ok(behind_first(&text) == comment)
}

fn behind_first(text: &[u8]) -> &[u8]
    ensures { result.now ≡ drop 1 text.now }
{
    if text.is_empty() {
        return text;
    }
    &text[1..]
}

/// Whether a line tells the members of the class whose declaration begins with a token.
pub fn tells_members(
    alloc: Global,
    owns: &Owns<'_, '_, '_>,
    token: u32,
    line: &[u8],
) -> Result<bool, AllocError>
    ensures { IfOk result (λ tells. tells ≡ true → TellsMembers owns.now token line.now) }
{
    match class_begun(owns.names(), token) {
        Some(class) => tells(alloc, owns, class, comment_of(line)),
        None => Ok(false),
    }
}
