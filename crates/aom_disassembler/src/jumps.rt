//! The places to which a method's instructions jump.
ghost use Rattle.std.specs.Prelude.{◌≡◌, ◌<◌, ◌||◌, ℕ, false, slice_index_or};
ghost use Rattle.aom_syntax.specs.Classes.{is_at};
ghost use Rattle.aom_disassembler.specs.Jumps.{jump_of, Reports};

use aom_image::{Instr, InstrPlace, Large, Operands};

/// Where an instruction jumps to.
fn jump_of(instr: Instr) -> Option<InstrPlace>
    ensures { result ≡ jump_of instr }
{
    let Operands { d, .. } = instr.operands();
    match d {
        Large::Place(place) => Some(place),
        _ => None,
    }
}

/// Marks where an instruction jumps to.
fn mark(targets: &mut [bool; 1024], instr: Instr)
    ensures { (place : ℕ) → place < 1024 → slice_index_or targets.new place false ≡ (slice_index_or targets.old place false || is_at place (jump_of instr)) }
{
    if let Some(place) = jump_of(instr) {
        targets[place.number() as usize] = true;
    }
}

/// For each place, whether some instruction of the code jumps to it.
pub fn targets(code: &[Instr]) -> [bool; 1024]
    ensures { Reports result code.now }
{
    let mut targets = [false; 1024];
    for instr in code {
        mark(&mut targets, *instr);
    }
    targets
}
