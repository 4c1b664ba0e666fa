//! The words and the owning fields of what a method works on: of its cell, or the root where it has none.
ghost use Rattle.std.specs.Prelude.{ℕ, List};
ghost use Rattle.aom_image.specs.Image.{Image};
ghost use Rattle.aom_instructions.specs.declared.instr.Instr.TheVariants.{JumpEmpty, Take, Put};
ghost use Rattle.aom_machine_instructions.specs.Acts.{Does};
ghost use Rattle.aom_machine_instructions.specs.Next.{IsNext};

use aom_cells::NULL;
use aom_image::{FieldIndex, InstrPlace, Register};
use aom_machine_state::Parts;

pub fn jump_empty(parts: &mut Parts, field: FieldIndex, place: InstrPlace)
    requires { (p : Image) × IsNext p (JumpEmpty field place) parts.old }
    ensures { (refused : List ℕ) → Does refused (JumpEmpty field place) parts.old parts.new }
{
    if parts.field(field) == NULL {
        parts.stack.set_place(place.number() as usize);
    } else {
        parts.next();
    }
}

pub fn take(parts: &mut Parts, to: Register, field: FieldIndex)
    requires { (p : Image) × IsNext p (Take to field) parts.old }
    ensures { (refused : List ℕ) → Does refused (Take to field) parts.old parts.new }
{
    let number = parts.take_field(field);
    parts.set_and_advance(to, number);
}

pub fn put(parts: &mut Parts, field: FieldIndex, from: Register)
    requires { (p : Image) × IsNext p (Put field from) parts.old }
    ensures { (refused : List ℕ) → Does refused (Put field from) parts.old parts.new }
{
    let number = parts.register(from);
    parts.set_field(field, number);
    parts.set_and_advance(from, NULL);
}
