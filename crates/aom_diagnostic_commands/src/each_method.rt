//! A call that tells the first fault of each method.
ghost use Rattle.aom_commands.specs.Headline.{over};
ghost use Rattle.aom_diagnostic_commands.specs.EachMethod.{AllAnsweredSo, AllToldSo, EachTold, MethodsToldSo, RefusalToldSo};

use crate::program::LoadedProgram;
use crate::refusals::method_refusals;
use crate::telling::Telling;
use aom_commands::{ExitStatus, Fault, report};
use aom_transcript::Sink;
use aom_verify::Refusal;
use std::alloc::Global;

/// Tells why a method is refused.
fn tell_refusal<E: Sink>(
    alloc: Global,
    telling: Telling<'_>,
    refusal: Refusal,
    program: &LoadedProgram<'_>,
    errors: &mut E,
)
    ensures { RefusalToldSo telling.entry program.now.image program.now.text refusal (over E.out E.failed errors.old errors.new) }
{
    telling.tell(alloc, &Fault::Verify(refusal), program, b"", errors);
}

/// Tells each of these, in their order.
fn tell_each<E: Sink>(
    alloc: Global,
    telling: Telling<'_>,
    refusals: &[Refusal],
    program: &LoadedProgram<'_>,
    errors: &mut E,
)
    ensures { EachTold (RefusalToldSo telling.entry program.now.image program.now.text) refusals.now (over E.out E.failed errors.old errors.new) }
{
    for refusal in refusals {
        tell_refusal(alloc, telling, *refusal, program, errors);
    }
}

/// Tells the first fault of each method of an image that the verifier refuses; or that of all, where memory is wanting for the others.
fn tell_methods<E: Sink>(
    alloc: Global,
    telling: Telling<'_>,
    first: Refusal,
    program: &LoadedProgram<'_>,
    errors: &mut E,
)
    ensures { MethodsToldSo telling.entry program.now.image program.now.text first (over E.out E.failed errors.old errors.new) }
{
    match method_refusals(alloc, program.image()) {
        Ok(refusals) => tell_each(alloc, telling, &refusals, program, errors),
        Err(_) => {
            tell_refusal(alloc, telling, first, program, errors);
            report(&Fault::Memory, errors);
        }
    }
}

/// Tells a fault, and of an image that the verifier refuses the first of each method.
fn tell_all<E: Sink>(
    alloc: Global,
    telling: Telling<'_>,
    fault: &Fault,
    program: &LoadedProgram<'_>,
    errors: &mut E,
) -> ExitStatus
    ensures { AllToldSo telling.entry program.now.image program.now.text fault.now (over E.out E.failed errors.old errors.new) result }
{
    match fault {
        Fault::Verify(first) => {
            tell_methods(alloc, telling, *first, program, errors);
            ExitStatus::ImageRefused
        }
        _ => telling.tell(alloc, fault, program, b"", errors),
    }
}

/// Answers the status that a call has come to, or tells its fault so.
pub fn answer_all<E: Sink>(
    alloc: Global,
    telling: Telling<'_>,
    found: Result<ExitStatus, Fault>,
    program: &LoadedProgram<'_>,
    errors: &mut E,
) -> ExitStatus
    ensures { AllAnsweredSo telling.entry program.now.image program.now.text found (over E.out E.failed errors.old errors.new) result }
{
    match found {
        Ok(status) => status,
        Err(fault) => tell_all(alloc, telling, &fault, program, errors),
    }
}
