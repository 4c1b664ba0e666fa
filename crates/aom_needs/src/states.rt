//! Sets of request states in a sentence.
ghost use Rattle.std.specs.Prelude.{◌≡◌, ◌++◌, OnOk};
ghost use Rattle.aom_image.specs.Views.{has};
ghost use Rattle.aom_needs.specs.Sentences.{allowed_words, begin_words, letter_where, letters, may_be_words, set_words, states_clause, states_need};

use aom_cost_report::{FigureWriter, Names};
use aom_image::{MethodNumber, States};
use bitflags::Flags;
use std::alloc::AllocError;

/// Writes the letter of a state, where that is in the set.
fn write_letter(
    out: &mut FigureWriter,
    set: States,
    state: States,
    letter: &[u8],
) -> Result<(), AllocError>
    ensures { OnOk result (out.new ≡ out.old ++ letter_where (has set.0 state.0) letter.now) }
{
    if set.contains(state) {
        out.words(letter)
    } else {
        Ok(())
    }
}

fn write_letters(out: &mut FigureWriter, set: States) -> Result<(), AllocError>
    ensures { OnOk result (out.new ≡ out.old ++ letters set.0) }
{
    write_letter(out, set, States::UNLISTED, b"u")?;
    write_letter(out, set, States::IDLE, b"i")?;
    write_letter(out, set, States::ISSUED, b"s")?;
    write_letter(out, set, States::ACTIVE, b"a")?;
    write_letter(out, set, States::OPEN, b"o")?;
    write_letter(out, set, States::DONE, b"d")
}

/// Writes a set as a text has it.
#[tactic(auto, unfolding(crate::specs::Sentences::set_words))]
fn write_set(out: &mut FigureWriter, set: States) -> Result<(), AllocError>
    ensures { OnOk result (out.new ≡ out.old ++ set_words set.0) }
{
    if set.bits() == 0 {
        out.words(b"-")
    } else {
        write_letters(out, set)
    }
}

/// Writes in which states the request may be.
fn write_may_be(out: &mut FigureWriter, states: States) -> Result<(), AllocError>
    ensures { OnOk result (out.new ≡ out.old ++ may_be_words states.0) }
{
    out.words(b"; it may be in ")?;
    write_set(out, states)
}

pub(crate) fn write_states_clause(
    out: &mut FigureWriter,
    rest: &[u8],
    states: States,
) -> Result<(), AllocError>
    ensures { OnOk result (out.new ≡ out.old ++ states_clause rest.now states.0) }
{
    out.words(rest)?;
    write_may_be(out, states)
}

/// Writes in which states the request has to be.
fn write_allowed(out: &mut FigureWriter, allowed: States) -> Result<(), AllocError>
    ensures { OnOk result (out.new ≡ out.old ++ allowed_words allowed.0) }
{
    out.words(b"the request in ")?;
    write_set(out, allowed)
}

pub(crate) fn write_states_need(
    out: &mut FigureWriter,
    allowed: States,
    rest: &[u8],
    states: States,
) -> Result<(), AllocError>
    ensures { OnOk result (out.new ≡ out.old ++ states_need allowed.0 rest.now states.0) }
{
    write_allowed(out, allowed)?;
    write_states_clause(out, rest, states)
}

fn write_begin_words(
    out: &mut FigureWriter,
    names: &Names<'_>,
    method: MethodNumber,
) -> Result<(), AllocError>
    ensures { OnOk result (out.new ≡ out.old ++ begin_words names.now method) }
{
    out.words(b" alone, where ")?;
    names.write_method(out, b"m", method)?;
    out.words(b" begins")
}

/// Writes in which states that method begins, and in which the request may be.
pub(crate) fn write_begin(
    out: &mut FigureWriter,
    names: &Names<'_>,
    method: MethodNumber,
    before: States,
    states: States,
) -> Result<(), AllocError>
    ensures { OnOk result (out.new ≡ out.old ++ states_need before.0 (begin_words names.now method) states.0) }
{
    write_allowed(out, before)?;
    write_begin_words(out, names, method)?;
    write_may_be(out, states)
}
