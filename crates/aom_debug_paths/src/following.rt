//! The object that is owned at a path.
ghost use Rattle.std.specs.Prelude.{◌≡◌, IfSome, Option};
ghost use Rattle.aom_cells.specs.Heap.{Lives};
ghost use Rattle.aom_machine.specs.Agreement.{AgreesInAll};
ghost use Rattle.aom_machine_state.specs.Stands.{Stands, Refines};
ghost use Rattle.aom_semantics.specs.Places.{Object as ObjectRecord};
ghost use Rattle.aom_semantics.specs.State.{State};
ghost use Rattle.aom_debug_views.specs.Holdings.{IsOwner, place_of};
ghost use Rattle.aom_debug_paths.specs.Paths.{IsAlive, IsFound, IsHeld, branch_place, held_in, follow_branch, outer_place, owned_at};

use crate::finding::outer_owner;
use aom_budget::Accepted;
use aom_cells::CellId;
use aom_debug_protocol::{Branch, Outer, Path};
use aom_debug_views::{Holding, Owner, held_at};
use aom_machine_state::Parts;

/// What is owned at a place that is in no object.
fn outer_holding(parts: &Parts, accepted: &Accepted, outer: Outer) -> Holding
    requires stands { Stands (record { image = accepted.now; parts = parts.now }) }
    requires agrees { AgreesInAll (record { image = accepted.now; parts = parts.now }) }
    ensures alive { IsAlive parts.now result }
    ensures held { (s : State) → Refines (record { image = accepted.now; parts = parts.now }) s → IsHeld s (held_in s.cells (outer_place s outer)) result }
{
    match outer_owner(parts, outer) {
        Some(owner) => held_at(parts, accepted, owner),
        None => Holding::Nothing,
    }
}

/// The place that a branch leads to from the object in a cell.
fn branch_owner(cell: u32, branch: Branch) -> Owner
    ensures place { place_of result ≡ branch_place cell branch }
    ensures owner { IsOwner result }
{
    match branch {
        Branch::Field(field) => Owner::Field { cell, field },
        Branch::Session(client) => Owner::Session {
            server: cell,
            client: client.number(),
        },
    }
}

/// On from what is owned to what a branch of it leads to.
fn follow_branch(parts: &Parts, accepted: &Accepted, holding: Holding, branch: Branch) -> Holding
    requires stands { Stands (record { image = accepted.now; parts = parts.now }) }
    requires agrees { AgreesInAll (record { image = accepted.now; parts = parts.now }) }
    ensures alive { IsAlive parts.now result }
    ensures held { (s : State) (o : Option ObjectRecord) → Refines (record { image = accepted.now; parts = parts.now }) s → IsHeld s o holding → IsHeld s (follow_branch s.cells o branch) result }
{
    match holding {
        Holding::Object { cell, .. } => held_at(parts, accepted, branch_owner(cell, branch)),
        Holding::Nothing | Holding::Message { .. } => Holding::Nothing,
    }
}

/// What is owned at a path.
fn owned_at(parts: &Parts, accepted: &Accepted, path: &Path) -> Holding
    requires stands { Stands (record { image = accepted.now; parts = parts.now }) }
    requires agrees { AgreesInAll (record { image = accepted.now; parts = parts.now }) }
    ensures alive { IsAlive parts.now result }
    ensures held { (s : State) → Refines (record { image = accepted.now; parts = parts.now }) s → IsHeld s (owned_at s path.now) result }
{
    let mut holding = outer_holding(parts, accepted, path.outer());
    for branch in path.branches() {
        holding = follow_branch(parts, accepted, holding, *branch);
    }
    holding
}

/// An object that was found.
#[derive(Clone, Copy)]
pub struct Found {
    pub cell: CellId,
    pub class: u16,
}

/// The object that is owned at a path, if one is.
pub fn object_at(parts: &Parts, accepted: &Accepted, path: &Path) -> Option<Found>
    requires stands { Stands (record { image = accepted.now; parts = parts.now }) }
    requires agrees { AgreesInAll (record { image = accepted.now; parts = parts.now }) }
    ensures lives { IfSome result (λ f. Lives parts.now.cells f.cell) }
    ensures found { (s : State) → Refines (record { image = accepted.now; parts = parts.now }) s → IsFound (owned_at s path.now) result }
{
    let Holding::Object { cell, class } = owned_at(parts, accepted, path) else {
        return None;
    };
    match parts.cells.find(cell) {
        Some(cell) => Some(Found { cell, class }),
        None => None,
    }
}
