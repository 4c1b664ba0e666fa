//! What is known where a method without a typing fails.
ghost use Rattle.std.specs.Prelude.{IfNone, IfOk, IfSome, IsSome};
ghost use Rattle.aom_image.specs.Views.{method_at};
ghost use Rattle.aom_static_bounds.specs.Shapes.{HasTyping};
ghost use Rattle.aom_verify.specs.Arrivals.{StopsAt};

use crate::checked::place_count;
use crate::state_table::StateTable;
use crate::states::SweepFault;
use aom_abstract_state::{Known, Reason};
use aom_image::MethodNumber;
use aom_linker::Linked;
use std::alloc::{AllocError, Global};

/// Where the sweeps of a method end early, why, and the states that they have found by then.
#[derive(Drop)]
pub struct Stop {
    pub state_table: StateTable,
    pub place: usize,
    pub why: Reason,
}

/// Where the sweeps of a method end early, if it has no typing. The place has a state.
pub fn stop_of(
    alloc: Global,
    linked: &Linked,
    method: MethodNumber,
) -> Result<Option<Stop>, AllocError>
    requires { IsSome (method_at linked.now method) }
    ensures some { IfOk result (λ found. IfSome found (λ stop. StopsAt linked.now method stop.state_table stop.place stop.why)) }
    ensures none { IfOk result (λ found. IfNone found (HasTyping linked.now method)) }
{
    let entry = Known::entry(linked, method);
    let mut state_table = StateTable::new(alloc, place_count(linked, method), entry)?;
    match state_table.sweep_to_fixpoint(alloc, linked, method) {
        Ok(()) => Ok(None),
        Err(SweepFault::OutOfMemory) => Err(AllocError),
        Err(SweepFault::At { place, why }) => Ok(Some(Stop {
            state_table,
            place,
            why,
        })),
    }
}
