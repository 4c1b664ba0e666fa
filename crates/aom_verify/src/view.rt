//! The state at a place, read where it stands.
ghost use Rattle.std.specs.Prelude.{◌≡◌, length};
ghost use Rattle.aom_abstract_state.specs.Changes.{kept_shape};
ghost use Rattle.aom_abstract_state.specs.Kinds.{field, register};

use aom_abstract_state::{EntryStacks, FieldState, Kept, Kind};
use aom_image::{FieldIndex, Register, States};
use std::marker::Model;

/// A state as it is kept: unlike a `AbstractState`, no copy is made of it.
#[derive(Drop)]
pub struct AbstractStateView<'a> {
    kept: &'a Kept,
    entry_stacks: &'a EntryStacks,
}

impl<'a> Model for AbstractStateView<'a> {
    ghost use Rattle.aom_abstract_state.specs.Changes.{kept_shape};
    ghost use Rattle.aom_abstract_state.specs.AbstractState.{AbstractState as ShapeRecord};

    ghost Value = { ShapeRecord };

    ghost view = { λ s. kept_shape s.entry_stacks.now s.kept.now };
}

impl<'a> AbstractStateView<'a> {
    pub(crate) fn new(kept: &'a Kept, entry_stacks: &'a EntryStacks) -> AbstractStateView<'a>
        ensures { result ≡ kept_shape entry_stacks.now kept.now }
    {
        AbstractStateView { kept, entry_stacks }
    }

    pub fn register(&self, number: Register) -> Kind
        ensures { result ≡ register self.now number }
    {
        self.kept.known.kind_at(number.number() as usize)
    }

    pub fn field(&self, number: FieldIndex) -> FieldState
        ensures { result ≡ field self.now number }
    {
        self.kept.known.field(number)
    }

    /// The request states in which the object may be.
    pub fn states(&self) -> States
        ensures { result.0 ≡ self.now.states }
    {
        let known = &self.kept.known;
        known.states
    }

    /// How many cleanup entries there are.
    pub fn height(&self) -> usize
        ensures { result ≡ length self.now.entries }
    {
        self.kept.entry_stack.height()
    }
}
