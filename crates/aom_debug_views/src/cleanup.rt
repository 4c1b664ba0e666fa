//! The cleanup stack.
ghost use Rattle.std.specs.Prelude.{◌≡◌, ◌<◌, IfErr, IfOk, length, option_map};
ghost use Rattle.aom_cells.specs.Heap.{class_at};
ghost use Rattle.aom_image.specs.Image.{Image};
ghost use Rattle.aom_machine_state.specs.Stands.{Refines};
ghost use Rattle.aom_semantics.specs.Owned.{over};
ghost use Rattle.aom_semantics.specs.State.{State};
ghost use Rattle.aom_debug_protocol.specs.declared.answer.Answer.TheVariants.{Object};
ghost use Rattle.aom_debug_views.specs.CellViews.{cleanup_answers, held_answer, item_answer};
ghost use Rattle.aom_debug_views.specs.Reporting.{Reports, ReportsPart, answers_by};

use crate::sending::report_any_by;
use aom_debug_protocol::{Answer, DebugFault};
use aom_debug_symbols::SourceNames;
use aom_frames::Item;
use aom_machine_state::Parts;
use aom_transcript::Sink;

/// The class of the cell of a number, if one lives.
pub(crate) fn class_of(parts: &Parts, number: u32) -> Option<u16>
    ensures { result ≡ class_at parts.now.cells number }
{
    match parts.cells.find(number) {
        Some(id) => Some(parts.cells.class(id)),
        None => None,
    }
}

/// The item that stands over so many others.
pub(crate) fn item_at(parts: &Parts, height: usize) -> Option<Item>
    requires { height < length parts.now.entries.items }
    ensures { result ≡ over parts.now.entries.items height }
{
    let above = parts.entries.len() - height;
    parts.entries.entry(above - 1)
}

/// An object on the cleanup stack, as it is told.
fn object_answer(parts: &Parts, number: u32) -> Option<Answer>
    ensures { result ≡ option_map (λ class. Object class) (class_at parts.now.cells number) }
{
    match class_of(parts, number) {
        Some(class) => Some(Answer::Object(class)),
        None => None,
    }
}

/// An item, as it is told.
fn reported_item(parts: &Parts, item: Item) -> Option<Answer>
    ensures { result ≡ held_answer parts.now.cells item }
{
    match item {
        Item::Object(number) => object_answer(parts, number),
        Item::Operation(method, word) => {
            Some(Answer::Operation(method.number(), word.cast_signed()))
        }
        Item::Mark => Some(Answer::Trap),
    }
}

/// That item, as it is told.
fn item_answer(parts: &Parts, height: usize) -> Option<Answer>
    requires { height < length parts.now.entries.items }
    ensures { (p : Image) (s : State) → Refines (record { image = p; parts = parts.now }) s → result ≡ item_answer s.cells height (over s.items height) }
{
    match item_at(parts, height) {
        Some(item) => reported_item(parts, item),
        None => None,
    }
}

/// Tells the items of the cleanup stack, the lowest first.
pub fn report_cleanup<W: Sink>(
    parts: &Parts,
    names: &SourceNames,
    out: &mut W,
) -> Result<(), DebugFault>
    ensures ok { IfOk result (λ _. (p : Image) → Reports (record { image = p; parts = parts.now }) (λ s. answers_by names.now (cleanup_answers s)) (W.out out.old) (W.out out.new)) }
    ensures err { IfErr result (λ fault. (p : Image) → ReportsPart (record { image = p; parts = parts.now }) (λ s. answers_by names.now (cleanup_answers s)) fault (W.failed out.new) (W.out out.old) (W.out out.new)) }
{
    for height in 0..parts.entries.len() {
        report_any_by(names, item_answer(parts, height), out)?;
    }
    Ok(())
}
