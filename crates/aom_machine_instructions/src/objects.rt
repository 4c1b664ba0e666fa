//! Instructions on objects.
ghost use Rattle.std.specs.Prelude.{ℕ, List};
ghost use Rattle.aom_image.specs.Image.{Image};
ghost use Rattle.aom_instructions.specs.declared.instr.Instr.TheVariants.{JumpNull, Move, New};
ghost use Rattle.aom_machine_instructions.specs.Acts.{Does};
ghost use Rattle.aom_machine_instructions.specs.Next.{IsNext};

use aom_cells::NULL;
use aom_image::{ClassNumber, InstrPlace, Register};
use aom_machine_state::{LineBuffer, Parts};

pub fn jump_null(parts: &mut Parts, from: Register, place: InstrPlace)
    requires { (p : Image) × IsNext p (JumpNull from place) parts.old }
    ensures { (refused : List ℕ) → Does refused (JumpNull from place) parts.old parts.new }
{
    if parts.register(from) == NULL {
        parts.stack.set_place(place.number() as usize);
    } else {
        parts.next();
    }
}

/// An object goes to another register.
pub fn move_to(parts: &mut Parts, to: Register, from: Register)
    requires { (p : Image) × IsNext p (Move to from) parts.old }
    ensures { (refused : List ℕ) → Does refused (Move to from) parts.old parts.new }
{
    let object = parts.take_register(from);
    parts.set_and_advance(to, object);
}

#[inline(always)]
pub fn create(parts: &mut Parts, to: Register, class: ClassNumber, lines: &LineBuffer)
    requires { (p : Image) × IsNext p (New to class) parts.old }
    ensures { Does lines.now.refused (New to class) parts.old parts.new }
{
    let refused = parts.request_cell(lines);
    let number = parts.new_cell(class, refused);
    parts.set_and_advance(to, number);
}
