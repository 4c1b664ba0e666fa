//! The words of an object.
ghost use Rattle.std.specs.Prelude.{◌≡◌, ◌<◌, ◌≤◌, IfErr, IfOk, Some};
ghost use Rattle.aom_cells.specs.Heap.{Lives};
ghost use Rattle.aom_image.specs.Image.{Image};
ghost use Rattle.aom_machine_state.specs.Stands.{Refines};
ghost use Rattle.aom_roles.specs.Things.{words_of};
ghost use Rattle.aom_semantics.specs.Places.{word_field};
ghost use Rattle.aom_semantics.specs.State.{State};
ghost use Rattle.aom_debug_protocol.specs.declared.answer.Answer.TheVariants.{Word};
ghost use Rattle.aom_debug_views.specs.Reporting.{Reports, ReportsPart, answers_text};
ghost use Rattle.aom_debug_paths.specs.Paths.{word_lines};

use crate::Found;
use aom_cells::CellId;
use aom_debug_protocol::{Answer, DebugFault};
use aom_debug_views::report_any;
use aom_linker::Linked;
use aom_machine_state::Parts;
use aom_transcript::Sink;

/// How many words an object of a class has.
pub(crate) fn word_count(linked: &Linked, class: u16) -> u8
    ensures value { result ≡ words_of linked.now class }
    ensures few { result ≤ 8 }
{
    match linked.image().classes().as_slice().get(usize::from(class)) {
        Some(class) => class.words,
        None => 0,
    }
}

/// A word of what lives in a cell, as it is told.
pub(crate) fn word_answer(parts: &Parts, cell: CellId, word: u8) -> Option<Answer>
    requires lives { Lives parts.now.cells cell }
    requires within { word < 8 }
    ensures { (p : Image) (s : State) → Refines (record { image = p; parts = parts.now }) s → result ≡ Some (Word word (word_field s.cells cell word)) }
{
    Some(Answer::Word(word, parts.cells.word(cell, word)))
}

/// Tells the first so many words of what lives in a cell.
fn report_count<W: Sink>(
    parts: &Parts,
    cell: CellId,
    count: u8,
    out: &mut W,
) -> Result<(), DebugFault>
    requires lives { Lives parts.now.cells cell }
    requires few { count ≤ 8 }
    ensures ok { IfOk result (λ _. (p : Image) → Reports (record { image = p; parts = parts.now }) (λ s. answers_text (word_lines s.cells cell count)) (W.out out.old) (W.out out.new)) }
    ensures err { IfErr result (λ fault. (p : Image) → ReportsPart (record { image = p; parts = parts.now }) (λ s. answers_text (word_lines s.cells cell count)) fault (W.failed out.new) (W.out out.old) (W.out out.new)) }
{
    for word in 0..count {
        report_any(word_answer(parts, cell, word), out)?;
    }
    Ok(())
}

/// Tells the words of an object.
pub fn report_words<W: Sink>(
    parts: &Parts,
    linked: &Linked,
    found: Found,
    out: &mut W,
) -> Result<(), DebugFault>
    requires { Lives parts.now.cells found.cell }
    ensures ok { IfOk result (λ _. (p : Image) → Reports (record { image = p; parts = parts.now }) (λ s. answers_text (word_lines s.cells found.cell (words_of linked.now found.class))) (W.out out.old) (W.out out.new)) }
    ensures err { IfErr result (λ fault. (p : Image) → ReportsPart (record { image = p; parts = parts.now }) (λ s. answers_text (word_lines s.cells found.cell (words_of linked.now found.class))) fault (W.failed out.new) (W.out out.old) (W.out out.new)) }
{
    report_count(parts, found.cell, word_count(linked, found.class), out)
}
