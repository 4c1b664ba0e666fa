//! Places of a method to which no way leads from its beginning.
ghost use Rattle.std.specs.Prelude.{◌≡◌, ◌≤◌, ◌<◌, ◌↔◌, IsTrue, ◌⊎◌, IfOk, IfSome, None, false, length, replicate, slice_set, true};
ghost use Rattle.aom_instructions.specs.Table.{transfer_of};
ghost use Rattle.aom_warnings.specs.Reached.{IsCut, MarksReached, OutBy, WayOut, is_marked};

use aom_image::Instr;
use aom_instructions::Transfer;
use std::alloc::{AllocError, Global};

/// That place, where there is one and it is not marked.
fn unmarked(marks: &[bool], place: usize) -> Option<usize>
    ensures some { IfSome result (λ n. (n ≡ place) × (n < length marks.now) × (is_marked marks.now n ≡ false)) }
    ensures none { result ≡ None → place < length marks.now → is_marked marks.now place ≡ true }
{
    if place < marks.len() && !marks[place] {
        Some(place)
    } else {
        None
    }
}

/// The first of two places that is not marked.
fn unmarked_of(marks: &[bool], one: usize, other: usize) -> Option<usize>
    ensures some { IfSome result (λ n. ((n ≡ one) ⊎ (n ≡ other)) × (n < length marks.now) × (is_marked marks.now n ≡ false)) }
    ensures none { result ≡ None → one < length marks.now → is_marked marks.now one ≡ true }
    ensures neither { result ≡ None → other < length marks.now → is_marked marks.now other ≡ true }
{
    match unmarked(marks, one) {
        Some(place) => Some(place),
        None => unmarked(marks, other),
    }
}

/// A place that is not marked to which a transfer leads.
fn out_by(transfer: Transfer, marks: &[bool], place: usize) -> Option<usize>
    requires { place < length marks.now }
    ensures { OutBy transfer marks.now place result }
{
    match transfer {
        Transfer::Onward | Transfer::Begin(_, _) => unmarked(marks, place + 1),
        Transfer::Jump(to) => unmarked(marks, to.number() as usize),
        Transfer::Branch(_, to) | Transfer::Repeat(_, to) => {
            unmarked_of(marks, to.number() as usize, place + 1)
        }
        Transfer::Return(_) | Transfer::Leave(_) => None,
    }
}

/// A place that is not marked to which a way leads from a marked one.
fn way_out(code: &[Instr], marks: &[bool]) -> Option<usize>
    requires { length marks.now ≡ length code.now }
    ensures { WayOut code.now marks.now result }
{
    for (place, instr) in code.iter().enumerate() {
        if marks[place] {
            if let Some(next) = out_by(instr.transfer(), marks, place) {
                return Some(next);
            }
        }
    }
    None
}

/// Marks for so many places, with none marked.
fn none_marked(alloc: Global, count: usize) -> Result<Vec<bool>, AllocError>
    ensures { IfOk result (λ marks. marks.items ≡ replicate count false) }
{
    Ok(vec![in alloc; false; count]?)
}

/// Marks one place more.
fn mark(marks: &mut Vec<bool>, place: usize)
    requires { place < length marks.old.items }
    ensures { marks.new.items ≡ slice_set marks.old.items place true }
{
    marks[place] = true;
}

/// For each place whether ways lead to it from the first one.
pub fn reached(alloc: Global, code: &[Instr]) -> Result<Vec<bool>, AllocError>
    requires { 1 ≤ length code.now }
    ensures size { IfOk result (λ marks. length marks.items ≡ length code.now) }
    ensures marks { IfOk result (λ marks. MarksReached code.now marks.items) }
{
    let mut marks = none_marked(alloc, code.len())?;
    mark(&mut marks, 0);
    while let Some(next) = way_out(code, &marks) {
        mark(&mut marks, next);
    }
    Ok(marks)
}

/// Whether a place is not reached, and the one before it is.
pub fn is_cut(code: &[Instr], marks: &[bool], place: usize) -> bool
    requires marks { MarksReached code.now marks.now }
    requires size { length marks.now ≡ length code.now }
    requires place { place < length code.now }
    ensures { IsTrue result ↔ IsCut code.now place }
{
    place > 0 && marks[place - 1] && !marks[place]
}
