//! What is told of a refused instruction.
ghost use Rattle.std.specs.Prelude.{◌≡◌, ◌++◌, ◌+◌, ◌≤◌, Some, None, IsSome, OnOk, length};
ghost use Rattle.aom_image.specs.Views.{arguments_of, instr_at, method_at};
ghost use Rattle.aom_instructions.specs.Table.{action_of};
ghost use Rattle.aom_needs.specs.Asked.{moved, moved_by, wanted};
ghost use Rattle.aom_needs.specs.Sentences.{first_needed, moved_sentence, needed_line, needed_text, sentence_of};
ghost use Rattle.aom_needs.specs.Wanted.{first_at};
ghost use Rattle.aom_typing_rules.specs.Calls.{HasCodeRegister};

use crate::Wanted;
use crate::asked::{unmet, unmet_moved};
use crate::methods::arguments_of;
use crate::sentences::write_sentence;
use crate::unmet::is_told;
use aom_abstract_state::{AbstractState, Reason};
use aom_cost_report::{FigureWriter, Names};
use aom_image::{Instr, MethodNumber, Register};
use aom_linker::Linked;
use aom_rule_context::RuleContext;
use std::alloc::AllocError;

/// Writes the sentence of a need, if there is one.
fn write_any(
    out: &mut FigureWriter,
    names: &Names<'_>,
    site: &RuleContext<'_>,
    wanted: Option<Wanted>,
) -> Result<(), AllocError>
    ensures { OnOk result (out.new ≡ out.old ++ sentence_of names.now site.now.image site.now.method site.now.shape wanted) }
{
    match wanted {
        Some(wanted) => write_sentence(out, names, site, wanted),
        None => Ok(()),
    }
}

/// Writes what is not met once the arguments of a method have moved.
fn write_called(
    out: &mut FigureWriter,
    names: &Names<'_>,
    site: &RuleContext<'_>,
    instr: Instr,
    callee: MethodNumber,
    first: Register,
) -> Result<(), AllocError>
    requires within { first + length (arguments_of site.now.image callee) ≤ 16 }
    requires code { HasCodeRegister (action_of instr) }
    ensures { OnOk result (out.new ≡ out.old ++ moved_sentence names.now site.now.image site.now.method (moved_by site.now.image callee first site.now.shape) instr) }
{
    let arguments = arguments_of(site.linked, callee);
    let shape = site.shape.without_arguments(arguments, first);
    let after = RuleContext::new(site.linked, site.method, site.place, &shape);
    write_any(out, names, &after, unmet_moved(&after, instr))
}

fn write_moved(
    out: &mut FigureWriter,
    names: &Names<'_>,
    site: &RuleContext<'_>,
    instr: Instr,
) -> Result<(), AllocError>
    requires met { first_at site.now (wanted site.now.image site.now.method instr) ≡ None }
    requires code { HasCodeRegister (action_of instr) }
    ensures { OnOk result (out.new ≡ out.old ++ moved_sentence names.now site.now.image site.now.method (moved site.now.image instr site.now.shape) instr) }
{
    match instr {
        Instr::Call(_, callee, first, _) => write_called(out, names, site, instr, callee, first),
        Instr::Trap(_, callee, first, _) => write_called(out, names, site, instr, callee, first),
        _ => Ok(()),
    }
}

#[tactic(auto, unfolding(crate::specs::Sentences::needed_text))]
fn write_first(
    out: &mut FigureWriter,
    names: &Names<'_>,
    site: &RuleContext<'_>,
    instr: &Instr,
) -> Result<(), AllocError>
    requires { HasCodeRegister (action_of instr.now) }
    ensures { OnOk result (out.new ≡ out.old ++ needed_text names.now site.now.image site.now.method site.now.shape instr.now) }
{
    match unmet(site, *instr) {
        Some(wanted) => write_sentence(out, names, site, wanted),
        None => write_moved(out, names, site, *instr),
    }
}

/// The instruction at a place, with a register behind that of a trap's result.
fn instr_at(linked: &Linked, method: MethodNumber, place: usize) -> Instr
    requires { IsSome (instr_at linked.now method place) }
    ensures value { instr_at linked.now method place ≡ Some result }
    ensures method { IsSome (method_at linked.now method) }
    ensures code { HasCodeRegister (action_of result) }
{
    let _formed = linked.image().methods();
    linked.instr(method, place)
}

/// Writes the sentence of the first need that the instruction at a place does not meet, if it is refused for a reason that is told.
pub fn write_needed(
    out: &mut FigureWriter,
    names: &Names<'_>,
    linked: &Linked,
    method: MethodNumber,
    place: usize,
    shape: &AbstractState<'_>,
    why: Reason,
) -> Result<(), AllocError>
    requires { IsSome (instr_at linked.now method place) }
    ensures { OnOk result (out.new ≡ out.old ++ needed_line names.now linked.now method place shape.now why) }
{
    let instr = instr_at(linked, method, place);
    if !is_told(why) {
        return Ok(());
    }
    // None of these needs looks at the place.
    write_first(
        out,
        names,
        &RuleContext::new(linked, method, 0, shape),
        &instr,
    )
}

/// The first need that the instruction at a place does not meet, if it is refused for a reason that is told: of what is there before its arguments
/// move.
pub fn first_needed(
    linked: &Linked,
    method: MethodNumber,
    place: usize,
    shape: &AbstractState<'_>,
    why: Reason,
) -> Option<Wanted>
    requires { IsSome (instr_at linked.now method place) }
    ensures { result ≡ first_needed linked.now method place shape.now why }
{
    let instr = instr_at(linked, method, place);
    if !is_told(why) {
        return None;
    }
    unmet(&RuleContext::new(linked, method, 0, shape), instr)
}
