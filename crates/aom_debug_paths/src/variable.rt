//! A register, or a word of an object.
ghost use Rattle.std.specs.Prelude.{◌≡◌, ◌<◌, Some};
ghost use Rattle.aom_cells.specs.Heap.{Lives};
ghost use Rattle.aom_image.specs.Image.{Image};
ghost use Rattle.aom_machine.specs.Agreement.{AgreesInAll};
ghost use Rattle.aom_machine_state.specs.Stands.{Stands, Refines};
ghost use Rattle.aom_semantics.specs.Owned.{over};
ghost use Rattle.aom_semantics.specs.State.{State};
ghost use Rattle.aom_static_bounds.specs.Strongest.{IsStrongest};
ghost use Rattle.aom_typing_rules.specs.Typing.{Typing};
ghost use Rattle.aom_debug_views.specs.Frames.{innermost, receiver_over};
ghost use Rattle.aom_debug_paths.specs.Paths.{owned_at};
ghost use Rattle.aom_debug_paths.specs.Variables.{variable_answer, word_by_class, word_of_name, word_of_owned};

use crate::object_at;
use crate::words::{word_answer, word_count};
use aom_budget::Accepted;
use aom_cells::CellId;
use aom_debug_protocol::{Answer, Path, Variable};
use aom_debug_views::{receiver_at, register_at};
use aom_instructions::WordIndex;
use aom_linker::Linked;
use aom_machine_state::Parts;

/// A word of what lives in a cell, as it is told, if its class has that many.
fn word_in(
    parts: &Parts,
    linked: &Linked,
    cell: CellId,
    class: u16,
    word: WordIndex,
) -> Option<Answer>
    requires { Lives parts.now.cells cell }
    ensures { (p : Image) (s : State) → Refines (record { image = p; parts = parts.now }) s → result ≡ word_by_class linked.now s.cells cell (Some class) word }
{
    if word.number() < word_count(linked, class) {
        word_answer(parts, cell, word.number())
    } else {
        None
    }
}

/// A word of the object of that number, if one lives.
fn word_of_name(parts: &Parts, linked: &Linked, number: u32, word: WordIndex) -> Option<Answer>
    ensures { (p : Image) (s : State) → Refines (record { image = p; parts = parts.now }) s → result ≡ word_of_name linked.now s.cells number word }
{
    match parts.cells.find(number) {
        Some(cell) => word_in(parts, linked, cell, parts.cells.class(cell), word),
        None => None,
    }
}

/// A word of the object that the innermost method works on.
fn receiver_word(parts: &Parts, linked: &Linked, word: WordIndex) -> Option<Answer>
    ensures { (p : Image) (s : State) → Refines (record { image = p; parts = parts.now }) s → result ≡ word_of_name linked.now s.cells (receiver_over (over s.tasks (innermost s))) word }
{
    let depth = parts.stack.len().saturating_sub(1);
    word_of_name(parts, linked, receiver_at(parts, depth), word)
}

/// A word of the object that is owned at a path.
fn owned_word(parts: &Parts, accepted: &Accepted, path: &Path, word: WordIndex) -> Option<Answer>
    requires stands { Stands (record { image = accepted.now; parts = parts.now }) }
    requires agrees { AgreesInAll (record { image = accepted.now; parts = parts.now }) }
    ensures { (s : State) → Refines (record { image = accepted.now; parts = parts.now }) s → result ≡ word_of_owned accepted.now s.cells (owned_at s path.now) word }
{
    match object_at(parts, accepted, path) {
        Some(found) => word_in(parts, accepted.linked(), found.cell, found.class, word),
        None => None,
    }
}

/// What a variable has, as it is told; none where it is not there: a register that is not set, where the innermost task is no method, where no
/// object is, or where its class has fewer words.
pub fn variable_at(parts: &Parts, accepted: &Accepted, variable: &Variable) -> Option<Answer>
    requires stands { Stands (record { image = accepted.now; parts = parts.now }) }
    requires agrees { AgreesInAll (record { image = accepted.now; parts = parts.now }) }
    ensures { (t : Typing) → IsStrongest accepted.now t → (s : State) → Refines (record { image = accepted.now; parts = parts.now }) s → result ≡ variable_answer t accepted.now s variable.now }
{
    match variable {
        Variable::Register(register) => register_at(parts, accepted, *register),
        Variable::Word(word) => receiver_word(parts, accepted.linked(), *word),
        Variable::WordAt(path, word) => owned_word(parts, accepted, path, *word),
    }
}
