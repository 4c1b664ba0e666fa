//! What a place owns, as a value.
ghost use Rattle.aom_machine_state.specs.Stands.{Refines};
ghost use Rattle.aom_semantics.specs.State.{State};
ghost use Rattle.aom_debug_views.specs.Holdings.{HoldsSo, IsOwner, place_of};

use crate::Debugger;
use aom_debug_views::{Holding, Owner, held_at};

impl<'a> Debugger<'a> {
    /// What a place owns. Nothing is told, and nothing changes.
    pub fn held_at(&self, owner: Owner) -> Holding
        requires { IsOwner owner }
        ensures { (s : State) → Refines self.now.runner.machine.core s → HoldsSo s (place_of owner) result }
    {
        let core = &self.runner.machine.core;
        held_at(core.parts(), core.accepted(), owner)
    }
}
