//! What a place owns, as a value.
ghost use Rattle.std.specs.Prelude.{◌≡◌, ◌<◌, cond, slice_index_or};
ghost use Rattle.aom_cells.specs.Heap.{field_at, null};
ghost use Rattle.aom_frames.specs.Items.{entry_in};
ghost use Rattle.aom_clients.specs.Clients.{client_at};
ghost use Rattle.aom_machine.specs.Agreement.{AgreesInAll};
ghost use Rattle.aom_image.specs.Image.{Image};
ghost use Rattle.aom_machine_state.specs.Places.{session_with};
ghost use Rattle.aom_machine_state.specs.Stands.{Stands, Refines};
ghost use Rattle.aom_abstract_state.specs.Kinds.{register as kind_in};
ghost use Rattle.aom_semantics.specs.Places.{Register as In_register_of};
ghost use Rattle.aom_semantics.specs.State.{State};
ghost use Rattle.aom_debug_views.specs.Holdings.{HasNumber, HoldsSo, IsOwner, place_of};
ghost use Rattle.aom_debug_views.specs.Owners.{Shows, may_own};

use crate::cleanup::class_of;
use crate::owners::{frame_at, going_number, item_number, may_own};
use crate::tree::{session_in, source_at};
use aom_abstract_state::AbstractState;
use aom_budget::Accepted;
use aom_cells::NULL;
use aom_debug_protocol::Source;
use aom_frames::Frame;
use aom_instructions::{FieldIndex, Register};
use aom_machine_state::Parts;
use aom_verify::Checked;

/// A place that may own an object or a message. Depths and heights are counted from the bottom, cells are named by their numbers.
#[derive(Clone, Copy)]
pub enum Owner {
    /// The root.
    Root,
    /// A register of the method that is the task over so many others.
    Register { depth: usize, register: Register },
    /// The item of the cleanup stack over so many others.
    Entry(usize),
    /// The message that is served.
    Service,
    /// The destruction that is the task over so many others.
    Going(usize),
    /// An owning field of a cell.
    Field { cell: u32, field: FieldIndex },
    /// The session of a client with the server in a cell.
    Session { server: u32, client: u8 },
}

/// What a place owns.
#[derive(Clone, Copy, PartialEq, Eq)]
pub enum Holding {
    Nothing,
    /// The object in that cell, of that class.
    Object { cell: u32, class: u16 },
    /// A message, and who hears when it is completed.
    Message { source: Source },
}

/// The number in a register, and null where it may own nothing.
fn register_in(shape: &AbstractState<'_>, frame: &Frame, register: Register) -> u32
    ensures { result ≡ cond (may_own (kind_in shape.now register)) (slice_index_or frame.now.registers register null) null }
{
    let register = register.number();
    if may_own(shape, register) {
        frame.register(register)
    } else {
        NULL
    }
}

/// The number of what a register of the task over so many others owns.
pub(crate) fn register_number(
    parts: &Parts,
    checked: &Checked,
    depth: usize,
    register: Register,
) -> u32
    requires stands { Stands (record { image = checked.now; parts = parts.now }) }
    requires agrees { AgreesInAll (record { image = checked.now; parts = parts.now }) }
    ensures { Shows (record { image = checked.now; parts = parts.now }) result (In_register_of depth register) }
{
    let Some(frame) = frame_at(parts, depth) else {
        return NULL;
    };
    match checked.shape(frame.method, frame.place) {
        Some(shape) => register_in(&shape, &frame, register),
        None => NULL,
    }
}

/// The number of what an item of the cleanup stack owns, and null past the last.
fn entry_number(parts: &Parts, height: usize) -> u32
    ensures { result ≡ entry_in parts.now.entries.items height }
{
    if height < parts.entries.len() {
        item_number(parts, height)
    } else {
        NULL
    }
}

/// The number in a field of a cell, and null where there is no cell.
fn field_number(parts: &Parts, cell: u32, field: FieldIndex) -> u32
    ensures { result ≡ field_at parts.now.cells cell field }
{
    match parts.cells.find(cell) {
        Some(id) => parts.cells.field(id, field.number()),
        None => NULL,
    }
}

/// The number of what a place owns, and null where it owns nothing.
fn number_at(parts: &Parts, accepted: &Accepted, owner: Owner) -> u32
    requires stands { Stands (record { image = accepted.now; parts = parts.now }) }
    requires agrees { AgreesInAll (record { image = accepted.now; parts = parts.now }) }
    requires owner { IsOwner owner }
    ensures { Shows (record { image = accepted.now; parts = parts.now }) result (place_of owner) }
{
    match owner {
        Owner::Root => parts.root,
        Owner::Register { depth, register } => {
            register_number(parts, accepted.checked(), depth, register)
        }
        Owner::Entry(height) => entry_number(parts, height),
        Owner::Service => parts.served,
        Owner::Going(depth) => going_number(parts, depth),
        Owner::Field { cell, field } => field_number(parts, cell, field),
        Owner::Session { server, client } => session_in(parts, server, client),
    }
}

/// What has that number.
fn holding_of(parts: &Parts, number: u32) -> Holding
    requires { (p : Image) × Stands (record { image = p; parts = parts.now }) }
    ensures { HasNumber parts.now number result }
{
    match class_of(parts, number) {
        Some(class) => Holding::Object {
            cell: number,
            class,
        },
        None => match source_at(parts, number) {
            Some(source) => Holding::Message { source },
            None => Holding::Nothing,
        },
    }
}

/// What a place owns.
pub fn held_at(parts: &Parts, accepted: &Accepted, owner: Owner) -> Holding
    requires stands { Stands (record { image = accepted.now; parts = parts.now }) }
    requires agrees { AgreesInAll (record { image = accepted.now; parts = parts.now }) }
    requires owner { IsOwner owner }
    ensures { (s : State) → Refines (record { image = accepted.now; parts = parts.now }) s → HoldsSo s (place_of owner) result }
{
    holding_of(parts, number_at(parts, accepted, owner))
}
