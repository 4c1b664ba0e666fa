//! What is known at a place, apart from the cleanup entries.
ghost use Rattle.std.specs.Prelude.{◌≡◌, ◌≤◌, ◌<◌, ℕ, IsSome, Some, [], length, map, replicate};
ghost use Rattle.aom_image.specs.Views.{method_at};
ghost use Rattle.aom_abstract_state.specs.Kinds.{all_empty, none_owns};
ghost use Rattle.aom_abstract_state.specs.Changes.{known_with};
ghost use Rattle.aom_abstract_state.specs.Order.{IsImpliedBy};
ghost use Rattle.aom_roles.specs.Tables.{at, set_extending};
ghost use Rattle.aom_abstract_state.specs.Arguments.{argument_kind, entry_fields, entry_shape};
ghost use Rattle.aom_abstract_state.specs.declared.kind.MessageState.TheVariants.{Here};
ghost use Rattle.aom_abstract_state.specs.declared.kind.FieldState.TheVariants.{Perhaps};
ghost use Rattle.aom_abstract_state.specs.declared.kind.Kind.TheVariants.{Unset};

use crate::{FieldState, InitState, Kind, MessageState};
use aom_image::{Argument, FieldIndex, MethodNumber, Role, States, Thing};
use aom_linker::Linked;
use std::marker::Model;

/// What is known of the registers, of the fields and the request states of a method's object, and of the message in service.
#[derive(Clone, Copy)]
pub struct Known {
    pub registers: [Kind; 16],
    pub fields: [FieldState; 8],
    /// The states in which the object may be.
    pub states: States,
    pub message_state: MessageState,
}

impl Model for Known {
    ghost use Rattle.std.specs.Prelude.{◌≡◌, length};
    ghost use Rattle.aom_abstract_state.specs.AbstractState.{Known as KnownRecord};

    ghost Value = { KnownRecord };

    ghost view = { λ k. record { registers = k.registers; fields = k.fields; states = k.states.0; message_state = k.message_state } };

    ghost invariant = { λ k. (length k.registers ≡ 16) × (length k.fields ≡ 8) };

    ghost inverse = { λ v. record { registers = v.registers; fields = v.fields; states = record { 0 = v.states }; message_state = v.message_state } };
}

impl Known {
    /// Nothing is known of any register or field. There are no request states, and no message is taken.
    pub fn unset() -> Known
        ensures { result ≡ record { registers = replicate 16 Unset; fields = replicate 8 Perhaps; states = 0; message_state = Here } }
    {
        Known {
            registers: [Kind::Unset; 16],
            fields: [FieldState::Perhaps; 8],
            states: States::NONE,
            message_state: MessageState::Here,
        }
    }

    /// What is known as a method begins. There is no cleanup entry then.
    pub fn entry(linked: &Linked, method: MethodNumber) -> Known
        requires { IsSome (method_at linked.now method) }
        ensures implied { IsImpliedBy (known_with result []) (entry_shape linked.now method) }
        ensures no_less { IsImpliedBy (entry_shape linked.now method) (known_with result []) }
    {
        let _formed = linked.image().methods();
        let declared = linked.method(method);
        Known {
            registers: argument_kinds(declared.arguments.as_slice()),
            fields: entry_fields(declared.role),
            states: declared.before,
            message_state: MessageState::Here,
        }
    }

    /// The kind of the register of that number.
    pub fn kind_at(&self, index: usize) -> Kind
        requires { index < 16 }
        ensures { result ≡ at Unset self.now.registers index }
    {
        self.registers[index]
    }

    /// The same with another kind in the register of that number.
    pub fn with_kind(mut self, index: usize, kind: Kind) -> Known
        requires { index < 16 }
        ensures { result ≡ record self { registers = set_extending Unset self.registers index kind } }
    {
        self.registers[index] = kind;
        self
    }

    pub fn field(&self, number: FieldIndex) -> FieldState
        ensures { result ≡ at Perhaps self.now.fields number }
    {
        self.fields[number.number() as usize]
    }

    /// The same with another filling of a field.
    pub fn with_field(mut self, number: FieldIndex, field_state: FieldState) -> Known
        ensures { result ≡ record self { fields = set_extending Perhaps self.fields number field_state } }
    {
        let index = number.number() as usize;
        self.fields[index] = field_state;
        self
    }
}

/// No register owns, and none perhaps owns.
pub(crate) fn none_owns(kinds: &[Kind]) -> bool
    ensures { result ≡ none_owns kinds.now }
{
    for kind in kinds {
        if !kind.is_unowning() {
            return false;
        }
    }
    true
}

/// The fields that a class declares are null.
pub(crate) fn all_empty(declared: &[Thing], field_states: &[FieldState]) -> bool
    ensures { result ≡ all_empty declared.now field_states.now }
{
    if field_states.len() < declared.len() {
        return false;
    }
    for (_, field_state) in declared.iter().zip(field_states) {
        if !field_state.is_empty() {
            return false;
        }
    }
    true
}

fn argument_kind(argument: Argument) -> Kind
    ensures { result ≡ argument_kind argument }
{
    match argument {
        Argument::Word => Kind::Word,
        Argument::Own(thing) => Kind::Own(thing, InitState::Ready),
    }
}

fn argument_kinds(arguments: &[Argument]) -> [Kind; 16]
    requires { length arguments.now ≤ 16 }
    ensures { (i : ℕ) → at Unset result i ≡ at Unset (map argument_kind arguments.now) i }
{
    let mut kinds = [Kind::Unset; 16];
    for index in 0..arguments.len() {
        kinds[index] = argument_kind(arguments[index]);
    }
    kinds
}

fn entry_fields(role: Role) -> [FieldState; 8]
    ensures { result ≡ entry_fields (Some role) }
{
    match role {
        Role::Main | Role::Construct => [FieldState::Empty; 8],
        _ => [FieldState::Perhaps; 8],
    }
}
