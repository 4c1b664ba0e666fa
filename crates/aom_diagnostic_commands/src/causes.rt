//! Why a state is refused at a place: what its instruction needs and where what is there comes from, or another way that does not agree.
ghost use Rattle.std.specs.Prelude.{◌≡◌, ◌==◌, ◌++◌, IsSome, OnOk};
ghost use Rattle.aom_image.specs.Views.{method_at};
ghost use Rattle.aom_abstract_state.specs.Whys.{why_number};
ghost use Rattle.aom_diagnostic_commands.specs.Explained.{TellsCause, TellsNeed, TellsWay, conflict_line, kinds_words, origin_line, place_words, ways_differ};
ghost use Rattle.aom_needs.specs.Sentences.{needed_line};

use crate::told_by::{RefusedPlace, Told};
use aom_abstract_state::{AbstractState, Kind, Reason};
use aom_cost_report::{FigureWriter, Names};
use aom_diagnostics::{refusal_line, write_kind};
use aom_image::MethodNumber;
use aom_linker::Linked;
use aom_needs::write_needed;
use aom_origins::find_need_origin;
use aom_path_conflicts::{Conflict, Difference, find_conflict};
use aom_rule_functions::rule;
use aom_verify::StateTable;
use std::alloc::AllocError;

/// A state in a table has fewer cleanup entries.
const MAX_ENTRIES: usize = 1024;

pub(crate) fn is_same_why(reported: Reason, why: Reason) -> bool
    ensures { result ≡ (why_number reported == why_number why) }
{
    reported.number() == why.number()
}

/// Whether a state that is refused at a place has no meet with another: its instruction does not refuse it for that reason.
fn ways_differ(
    linked: &Linked,
    method: MethodNumber,
    place: usize,
    shape: &AbstractState<'_>,
    why: Reason,
) -> bool
    requires { IsSome (method_at linked.now method) }
    ensures { result ≡ ways_differ linked.now method place shape.now why }
{
    if shape.height() >= MAX_ENTRIES {
        return false;
    }
    if linked.method(method).code.len() <= place {
        return true;
    }
    match rule(linked, method, place, shape) {
        Ok(_) => true,
        Err(reported) => !is_same_why(reported, why),
    }
}

/// Writes where in a text a place of a method is, or its number.
fn write_place(
    out: &mut FigureWriter,
    told: &Told<'_>,
    method: MethodNumber,
    place: usize,
) -> Result<(), AllocError>
    ensures { OnOk result (out.new ≡ out.old ++ place_words told.now.text method place) }
{
    match told.text {
        Some(text) => match refusal_line(text.bytes(), method, place) {
            Some(line) => out.count(b"line ", u64::from(line)),
            None => out.count(b"", place as u64),
        },
        None => out.count(b"", place as u64),
    }
}

/// Writes a register with its kind on another way, and here.
fn write_kinds(
    out: &mut FigureWriter,
    names: &Names<'_>,
    difference: &Difference,
    here: Kind,
) -> Result<(), AllocError>
    ensures { OnOk result (out.new ≡ out.old ++ kinds_words names.now difference.now here) }
{
    out.count(b"", u64::from(difference.register))?;
    out.words(b" there: ")?;
    write_kind(out, names, difference.kind)?;
    out.words(b"; here: ")?;
    write_kind(out, names, here)?;
    out.words(b"\n")
}

fn write_conflict(
    out: &mut FigureWriter,
    told: &Told<'_>,
    method: MethodNumber,
    conflict: &Conflict,
    here: Kind,
) -> Result<(), AllocError>
    ensures { OnOk result (out.new ≡ out.old ++ conflict_line told.now method conflict.now here) }
{
    out.words(b"Another way comes here, from ")?;
    write_place(out, told, method, conflict.from)?;
    out.words(b", and does not agree with this: r")?;
    write_kinds(out, told.names, &conflict.difference, here)
}

/// Writes that another way comes to a place, with the register in which it differs, if there is one.
fn write_way(
    out: &mut FigureWriter,
    told: &Told<'_>,
    linked: &Linked,
    states: &StateTable,
    at: &RefusedPlace,
    shape: &AbstractState<'_>,
) -> Result<(), AllocError>
    requires { IsSome (method_at linked.now at.now.method) }
    ensures { OnOk result (TellsWay told.now linked.now at.now.method states.now at.now.place shape.now out.old out.new) }
{
    match find_conflict(linked, at.method, states, at.place, shape) {
        Some(conflict) => {
            let here = shape.kind_at(conflict.difference.register as usize);
            write_conflict(out, told, at.method, &conflict, here)
        }
        None => out.words(b"Another way comes here, and does not agree with this\n"),
    }
}

fn write_origin(
    out: &mut FigureWriter,
    told: &Told<'_>,
    method: MethodNumber,
    origin: usize,
) -> Result<(), AllocError>
    ensures { OnOk result (out.new ≡ out.old ++ origin_line told.now method origin) }
{
    out.words(b"It is so since ")?;
    write_place(out, told, method, origin)?;
    out.words(b"\n")
}

/// Writes what the instruction at a place needs and does not have, if there is an instruction.
fn write_needed_line(
    out: &mut FigureWriter,
    told: &Told<'_>,
    linked: &Linked,
    at: &RefusedPlace,
    shape: &AbstractState<'_>,
) -> Result<(), AllocError>
    requires { IsSome (method_at linked.now at.now.method) }
    ensures { OnOk result (out.new ≡ out.old ++ needed_line told.now.names linked.now at.now.method at.now.place shape.now at.now.why) }
{
    if linked.method(at.method).code.len() <= at.place {
        return Ok(());
    }
    write_needed(out, told.names, linked, at.method, at.place, shape, at.why)
}

/// Writes the same, and which place alone made it so, where there is one.
fn write_need(
    out: &mut FigureWriter,
    told: &Told<'_>,
    linked: &Linked,
    states: &StateTable,
    at: &RefusedPlace,
    shape: &AbstractState<'_>,
) -> Result<(), AllocError>
    requires { IsSome (method_at linked.now at.now.method) }
    ensures { OnOk result (TellsNeed told.now linked.now at.now.method states.now at.now.place shape.now at.now.why out.old out.new) }
{
    write_needed_line(out, told, linked, at, shape)?;
    match find_need_origin(linked, at.method, states, at.place, shape, at.why) {
        Some(origin) => write_origin(out, told, at.method, origin),
        None => Ok(()),
    }
}

/// Writes that ways differ, where that is so, and else what the instruction needs.
pub(crate) fn write_cause(
    out: &mut FigureWriter,
    told: &Told<'_>,
    linked: &Linked,
    states: &StateTable,
    at: &RefusedPlace,
    shape: &AbstractState<'_>,
) -> Result<(), AllocError>
    requires { IsSome (method_at linked.now at.now.method) }
    ensures { OnOk result (TellsCause told.now linked.now at.now.method states.now at.now.place shape.now at.now.why out.old out.new) }
{
    if ways_differ(linked, at.method, at.place, shape, at.why) {
        write_way(out, told, linked, states, at, shape)
    } else {
        write_need(out, told, linked, states, at, shape)
    }
}
