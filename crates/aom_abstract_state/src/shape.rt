//! Abstract states.
ghost use Rattle.std.specs.Prelude.{◌≡◌, ◌≤◌, ◌<◌, ◌+◌, ◌↔◌, IsTrue, length, replicate, slice_get};
ghost use Rattle.aom_abstract_state.specs.Kinds.{all_empty, register, field, set_register, set_field, none_owns, no_entry};
ghost use Rattle.aom_abstract_state.specs.Arguments.{argument_moved, arguments_moved};
ghost use Rattle.aom_abstract_state.specs.Changes.{kept_shape, known_with};
ghost use Rattle.aom_abstract_state.specs.declared.kind.FieldState.TheVariants.{Perhaps};

use crate::entry_stacks::{EntryStack, EntryStacks, Node, are_same, entry_at};
use crate::known::{all_empty, none_owns};
use crate::{CleanupEntry, FieldState, Kind, Known, MessageState};
use aom_image::{Argument, FieldIndex, Register, States, Thing};
use std::marker::Model;

/// A state that is kept: its cleanup entries stand among those of its method.
#[derive(Clone, Copy)]
pub struct Kept {
    pub known: Known,
    pub entry_stack: EntryStack,
}

/// What is known where a method stands: its registers, the fields and the request states of its object, the message in service,
/// and the cleanup entries that it has pushed.
#[derive(Drop)]
pub struct AbstractState<'a> {
    pub known: Known,
    nodes: &'a [Node],
    entry_stack: EntryStack,
}

impl<'a> Model for AbstractState<'a> {
    ghost use Rattle.aom_abstract_state.specs.EntryStacks.{entries_of};
    ghost use Rattle.aom_abstract_state.specs.AbstractState.{AbstractState as ShapeRecord};

    ghost Value = { ShapeRecord };

    ghost view = { λ s. record { registers = s.known.registers; fields = s.known.fields; entries = entries_of s.nodes.now s.entry_stack; states = s.known.states; message_state = s.known.message_state } };
}

impl Kept {
    /// The state.
    pub fn shape<'a>(&self, entry_stacks: &'a EntryStacks) -> AbstractState<'a>
        ensures { result ≡ kept_shape entry_stacks.now self.now }
    {
        AbstractState {
            known: self.known,
            nodes: entry_stacks.nodes(),
            entry_stack: self.entry_stack,
        }
    }
}

impl<'a> AbstractState<'a> {
    /// The same with something else known, apart from the cleanup entries.
    pub fn with_known(&self, known: Known) -> AbstractState<'a>
        ensures { result ≡ known_with known self.now.entries }
    {
        AbstractState {
            known,
            nodes: self.nodes,
            entry_stack: self.entry_stack,
        }
    }

    pub fn same(&self) -> AbstractState<'a>
        ensures { result ≡ self.now }
    {
        self.with_known(self.known)
    }

    /// What is known apart from the cleanup entries.
    pub fn known(&self) -> Known
        ensures { known_with result self.now.entries ≡ self.now }
    {
        self.known
    }

    pub fn register(&self, number: Register) -> Kind
        ensures { result ≡ register self.now number }
    {
        self.kind_at(number.number() as usize)
    }

    pub fn field(&self, number: FieldIndex) -> FieldState
        ensures { result ≡ field self.now number }
    {
        self.known.field(number)
    }

    /// The kind of the register of that number.
    pub fn kind_at(&self, index: usize) -> Kind
        requires { index < 16 }
        ensures { result ≡ register self.now index }
    {
        self.known.kind_at(index)
    }

    /// The same with another kind in the register of that number.
    pub fn with_kind(&self, index: usize, kind: Kind) -> AbstractState<'a>
        requires { index < 16 }
        ensures { result ≡ set_register self.now index kind }
    {
        self.with_known(self.known.with_kind(index, kind))
    }

    /// The same with another kind in a register.
    pub fn with_register(&self, number: Register, kind: Kind) -> AbstractState<'a>
        ensures { result ≡ set_register self.now number kind }
    {
        self.with_kind(number.number() as usize, kind)
    }

    /// The same once that argument has left its register.
    fn without_argument(&self, argument: Argument, index: usize) -> AbstractState<'a>
        requires { index < 16 }
        ensures { result ≡ argument_moved argument index self.now }
    {
        match argument {
            Argument::Word => self.same(),
            Argument::Own(_) => self.with_kind(index, Kind::Null),
        }
    }

    /// The same once the arguments have left their registers, from that one on.
    pub fn without_arguments(&self, arguments: &[Argument], first: Register) -> AbstractState<'a>
        requires { first + length arguments.now ≤ 16 }
        ensures { result ≡ arguments_moved arguments.now first self.now }
    {
        let first = first.number() as usize;
        let mut left = self.same();
        for index in 0..arguments.len() {
            left = left.without_argument(arguments[index], first + index);
        }
        left
    }

    /// The same with nothing known of the fields.
    pub fn with_fields_unknown(&self) -> AbstractState<'a>
        ensures { result ≡ record self.now { fields = replicate 8 Perhaps } }
    {
        let mut known = self.known;
        known.fields = [FieldState::Perhaps; 8];
        self.with_known(known)
    }

    /// The same with another filling of a field.
    pub fn with_field(&self, number: FieldIndex, field_state: FieldState) -> AbstractState<'a>
        ensures { result ≡ set_field self.now number field_state }
    {
        self.with_known(self.known.with_field(number, field_state))
    }

    /// The request states in which the object may be.
    pub fn states(&self) -> States
        ensures { result.0 ≡ self.now.states }
    {
        self.known.states
    }

    /// The same with other request states.
    pub fn with_states(&self, states: States) -> AbstractState<'a>
        ensures { result ≡ record self.now { states = states.0 } }
    {
        let mut known = self.known;
        known.states = states;
        self.with_known(known)
    }

    /// What became of the message in service.
    pub fn message_state(&self) -> MessageState
        ensures { result ≡ self.now.message_state }
    {
        self.known.message_state
    }

    /// The same with something else known of the message in service.
    pub fn with_message_state(&self, message_state: MessageState) -> AbstractState<'a>
        ensures { result ≡ record self.now { message_state = message_state } }
    {
        let mut known = self.known;
        known.message_state = message_state;
        self.with_known(known)
    }

    /// No register owns, and none perhaps owns.
    pub fn none_owns(&self) -> bool
        ensures { result ≡ none_owns self.now.registers }
    {
        none_owns(&self.known.registers)
    }

    /// The fields that a class declares are null.
    pub fn are_empty(&self, declared: &[Thing]) -> bool
        ensures { result ≡ all_empty declared.now self.now.fields }
    {
        all_empty(declared, &self.known.fields)
    }

    /// How many cleanup entries there are.
    pub fn height(&self) -> usize
        ensures { result ≡ length self.now.entries }
    {
        self.entry_stack.height()
    }

    /// The cleanup entry of that number, counted from the last.
    pub fn entry(&self, number: usize) -> Option<CleanupEntry>
        ensures { result ≡ slice_get self.now.entries number }
    {
        entry_at(self.nodes, self.entry_stack, number)
    }

    /// It has no cleanup entry.
    pub fn has_no_entry(&self) -> bool
        ensures { result ≡ no_entry self.now.entries }
    {
        self.height() == 0
    }

    pub fn has_same_entries(&self, other: &AbstractState<'_>) -> bool
        ensures { IsTrue result ↔ (self.now.entries ≡ other.now.entries) }
    {
        are_same(
            self.nodes,
            self.entry_stack,
            other.nodes,
            other.entry_stack,
            false,
        )
    }
}
