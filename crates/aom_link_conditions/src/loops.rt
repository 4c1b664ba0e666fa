//! How the loops of a method lie.
ghost use Rattle.std.specs.Prelude.{◌≡◌, ◌↔◌, ◌<◌, ◌≤◌, IsTrue, List, ℕ, length, slice_get, IfSome, false};
ghost use Rattle.aom_link_conditions.specs.Loops.{LoopsNest};
ghost use Rattle.aom_link_conditions.specs.Linked.{AllLoopsNest};
ghost use Rattle.aom_roles.specs.Firsts.{FirstOf};
ghost use Rattle.aom_link_conditions.specs.Scanning.{Enters, Leaves, Passes};

use aom_image::{Image, Instr, InstrPlace, LoopDepth, Method};
use aom_instructions::Transfer;
use arrayvec::ArrayVec;

/// The loops around a place, each by its own place, the outermost first.
type Around = ArrayVec<usize, 4>;

fn enter(around: &mut Around, place: usize, number: LoopDepth) -> bool
    ensures done { IsTrue result → Enters number place around.old.items around.new.items }
    ensures refused { result ≡ false → (after : List ℕ) → ¬ Enters number place around.old.items after }
{
    if number.number() as usize != around.len() {
        return false;
    }
    around.push(place);
    true
}

fn leave(around: &mut Around, number: LoopDepth, back: InstrPlace) -> bool
    ensures done { IsTrue result → Leaves number back around.old.items around.new.items }
    ensures refused { result ≡ false → (after : List ℕ) → ¬ Leaves number back around.old.items after }
{
    match around.pop() {
        Some(start) => {
            let back = back.number() as usize;
            start < back && back - start == 1 && number.number() as usize == around.len()
        }
        None => false,
    }
}

fn pass(around: &mut Around, place: usize, instr: &Instr) -> bool
    ensures done { IsTrue result → Passes place instr.now around.old.items around.new.items }
    ensures refused { result ≡ false → (after : List ℕ) → ¬ Passes place instr.now around.old.items after }
{
    match &instr.transfer() {
        Transfer::Begin(number, _) => enter(around, place, *number),
        Transfer::Repeat(number, back) => leave(around, *number, *back),
        _ => true,
    }
}

fn loops_nest(code: &[Instr]) -> bool
    ensures { IsTrue result ↔ LoopsNest code.now }
{
    let mut around: Around = ArrayVec::new();
    for (place, instr) in code.iter().enumerate() {
        if !pass(&mut around, place, instr) {
            return false;
        }
    }
    around.is_empty()
}

/// The first method whose loops do not nest.
pub fn first_unnested(methods: &[Method]) -> Option<usize>
    ensures { FirstOf (λ _ d. LoopsNest d.code) methods.now result }
{
    for (number, method) in methods.iter().enumerate() {
        if !loops_nest(method.code.as_slice()) {
            return Some(number);
        }
    }
    None
}

pub fn all_loops_nest(image: &Image) -> bool
    ensures { IsTrue result ↔ AllLoopsNest image.now }
{
    first_unnested(image.methods().as_slice()).is_none()
}
