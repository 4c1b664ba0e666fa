//! The abstract states of one method, by place.
ghost use Rattle.std.specs.Prelude.{◌≡◌, ◌<◌, [], length, replicate, slice_set, IfOk, IfErr, Some, None};
ghost use Rattle.aom_abstract_state.specs.Changes.{known_with};
ghost use Rattle.aom_roles.specs.Tables.{at};
ghost use Rattle.aom_verify.specs.Faults.{Stops};
ghost use Rattle.aom_verify.specs.Sweep.{Spans, Settles};

use crate::states::{PlaceStates, SweepFault};
use crate::view::AbstractStateView;
use aom_abstract_state::{AbstractState, Known};
use aom_image::MethodNumber;
use aom_linker::Linked;
use std::alloc::{AllocError, Global};
use std::marker::Model;

/// A state for each place of a method that is reached.
#[derive(Drop)]
pub struct StateTable {
    states: PlaceStates,
}

impl Model for StateTable {
    ghost use Rattle.aom_static_bounds.specs.Shapes.{Shapes};
    ghost use Rattle.aom_verify.specs.States.{shapes};

    ghost Value = { Shapes };

    ghost view = { λ s. shapes s.states };
}

impl StateTable {
    /// So many places, of which the first alone is reached.
    pub(crate) fn new(alloc: Global, places: usize, entry: Known) -> Result<StateTable, AllocError>
        requires { 0 < places }
        ensures { IfOk result (λ s. s ≡ slice_set (replicate places None) 0 (Some (known_with entry []))) }
    {
        let states = PlaceStates::new(alloc, places, entry)?;
        Ok(StateTable { states })
    }

    /// How many places there are.
    pub fn len(&self) -> usize
        ensures { result ≡ length self.now }
    {
        self.states.len()
    }

    /// The state at a place, if that is a place that is reached.
    pub fn shape(&self, place: usize) -> Option<AbstractState<'_>>
        ensures { result ≡ at None self.now place }
    {
        self.states.shape(place)
    }

    /// The same, read where it stands.
    pub fn view(&self, place: usize) -> Option<AbstractStateView<'_>>
        ensures { result ≡ at None self.now place }
    {
        self.states.view(place)
    }

    /// Sweeps until one changes nothing.
    pub(crate) fn sweep_to_fixpoint(
        &mut self,
        alloc: Global,
        linked: &Linked,
        method: MethodNumber,
    ) -> Result<(), SweepFault>
        requires { Spans linked.now method self.old }
        ensures ok { IfOk result (λ _. Settles linked.now method self.old self.new) }
        ensures err { IfErr result (λ fault. Stops linked.now method self.old self.new fault) }
    {
        self.states.sweep_to_fixpoint(alloc, linked, method)
    }
}
