//! The cells, by class.
ghost use Rattle.std.specs.Prelude.{◌≡◌, ◌<◌, ◌≤◌, IfErr, IfOk};
ghost use Rattle.aom_cells.specs.Heap.{class_at};
ghost use Rattle.aom_image.specs.Image.{Image};
ghost use Rattle.aom_machine_state.specs.Stands.{Refines};
ghost use Rattle.aom_semantics.specs.State.{State};
ghost use Rattle.aom_debug_views.specs.CellViews.{cells_answers, class_answer, count_class, first_classes, is_class};
ghost use Rattle.aom_debug_views.specs.Reporting.{Reports, ReportsPart, answers_by};

use crate::cleanup::class_of;
use crate::sending::{report_any_by, report_by};
use aom_debug_protocol::{Answer, DebugFault};
use aom_debug_symbols::SourceNames;
use aom_linker::Linked;
use aom_machine_state::Parts;
use aom_transcript::Sink;

/// Whether an object of a class has that number.
fn is_of_class(parts: &Parts, number: u32, class: u16) -> bool
    ensures { result ≡ is_class class (class_at parts.now.cells number) }
{
    match class_of(parts, number) {
        Some(found) => found == class,
        None => false,
    }
}

/// How many objects of a class live.
fn count_class(parts: &Parts, class: u16) -> usize
    ensures { (p : Image) (s : State) → Refines (record { image = p; parts = parts.now }) s → result ≡ count_class class s.cells }
{
    let mut count = 0;
    for number in 0..parts.cells.limit() {
        if is_of_class(parts, number as u32, class) {
            count += 1;
        }
    }
    count
}

/// How many objects of a class live, as it is told.
fn class_answer(parts: &Parts, class: u16) -> Option<Answer>
    ensures { (p : Image) (s : State) → Refines (record { image = p; parts = parts.now }) s → result ≡ class_answer class (count_class class s.cells) }
{
    let count = count_class(parts, class);
    if count == 0 {
        return None;
    }
    Some(Answer::OfClass(class, count))
}

/// Tells of so many classes, by number, how many objects of each live that has any.
fn report_classes<W: Sink>(
    parts: &Parts,
    classes: usize,
    names: &SourceNames,
    out: &mut W,
) -> Result<(), DebugFault>
    requires { classes ≤ 256 }
    ensures ok { IfOk result (λ _. (p : Image) → Reports (record { image = p; parts = parts.now }) (λ s. answers_by names.now (first_classes s.cells classes)) (W.out out.old) (W.out out.new)) }
    ensures err { IfErr result (λ fault. (p : Image) → ReportsPart (record { image = p; parts = parts.now }) (λ s. answers_by names.now (first_classes s.cells classes)) fault (W.failed out.new) (W.out out.old) (W.out out.new)) }
{
    for class in 0..classes {
        report_any_by(names, class_answer(parts, class as u16), out)?;
    }
    Ok(())
}

/// Tells how many cells live, and how many of each class that has any, by number.
pub fn report_cells<W: Sink>(
    parts: &Parts,
    linked: &Linked,
    names: &SourceNames,
    out: &mut W,
) -> Result<(), DebugFault>
    ensures ok { IfOk result (λ _. (p : Image) → Reports (record { image = p; parts = parts.now }) (λ s. answers_by names.now (cells_answers linked.now s)) (W.out out.old) (W.out out.new)) }
    ensures err { IfErr result (λ fault. (p : Image) → ReportsPart (record { image = p; parts = parts.now }) (λ s. answers_by names.now (cells_answers linked.now s)) fault (W.failed out.new) (W.out out.old) (W.out out.new)) }
{
    report_by(names, Answer::Cells(parts.cells.count()), out)?;
    report_classes(parts, linked.image().classes().len(), names, out)
}
