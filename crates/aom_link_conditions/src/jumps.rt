//! Where an instruction may go on, and what is asked of it.
ghost use Rattle.std.specs.Prelude.{◌≡◌, ◌↔◌, ◌<◌, ℕ, IsTrue, IfSome, None, length};
ghost use Rattle.aom_link_conditions.specs.Jumps.{jump_of, goes_on, KeepsWithin, begins_loop, back_of, Body, StaysOut, IntoEnd, IntoLoop, BadJumpOf, JumpIsValid};
ghost use Rattle.aom_link_conditions.specs.Linked.{AllJumpsValid};
ghost use Rattle.aom_link_conditions.specs.Places.{PlaceOf};
ghost use Rattle.aom_roles.specs.Firsts.{FirstOf};
ghost use Rattle.aom_link_conditions.specs.declared.fault.LinkFault.TheVariants as LinkFault;

use crate::place::LinkPlace;
use aom_image::{Image, Instr, InstrPlace, Method};
use aom_instructions::Transfer;

/// Where a jump goes that is not taken back to a loop's first place.
#[tactic(auto, unfolding(crate::specs::Jumps::jump_of))]
fn jump_of(instr: &Instr) -> Option<InstrPlace>
    ensures { result ≡ jump_of instr.now }
{
    match &instr.transfer() {
        Transfer::Jump(place) | Transfer::Branch(_, place) => Some(*place),
        _ => None,
    }
}

#[tactic(auto, unfolding(crate::specs::Jumps::goes_on))]
fn goes_on(instr: &Instr) -> bool
    ensures { result ≡ goes_on instr.now }
{
    !matches!(
        instr.transfer(),
        Transfer::Jump(_) | Transfer::Return(_) | Transfer::Leave(_)
    )
}

/// Whether the target is past the place and below the count.
fn is_forward(target: InstrPlace, place: usize, count: usize) -> bool
    ensures { IsTrue result ↔ ((place < target) × (target < count)) }
{
    let target = target.number() as usize;
    place < target && target < count
}

fn keeps_within(instr: &Instr, place: usize, count: usize) -> bool
    requires { place < count }
    ensures { IsTrue result ↔ KeepsWithin count place instr.now }
{
    let jumps_well = match jump_of(instr) {
        Some(target) => is_forward(target, place, count),
        None => true,
    };
    jumps_well && (!goes_on(instr) || place + 1 < count)
}

/// The first place whose jump goes back or past the end, or which has no successor.
fn first_bad_target(code: &[Instr]) -> Option<usize>
    ensures { FirstOf (KeepsWithin (length code.now)) code.now result }
{
    for (place, instr) in code.iter().enumerate() {
        if !keeps_within(instr, place, code.len()) {
            return Some(place);
        }
    }
    None
}

#[tactic(auto, unfolding(crate::specs::Jumps::begins_loop))]
fn begins_loop(instr: &Instr) -> bool
    ensures { result ≡ begins_loop instr.now }
{
    matches!(instr.transfer(), Transfer::Begin(_, _))
}

#[tactic(auto, unfolding(crate::specs::Jumps::back_of))]
fn back_of(instr: &Instr) -> Option<InstrPlace>
    ensures { result ≡ back_of instr.now }
{
    match &instr.transfer() {
        Transfer::Repeat(_, place) => Some(*place),
        _ => None,
    }
}

/// The loop whose body a place ends.
fn loop_of(code: &[Instr], end: usize) -> Option<usize>
    requires { end < length code.now }
    ensures some { IfSome result (λ p. Body code.now p end) }
    ensures none { result ≡ None → (p : ℕ) → ¬ Body code.now p end }
    ensures only { IfSome result (λ p. (r : ℕ) → Body code.now r end → r ≡ p) }
{
    let back = back_of(&code[end])?;
    let start = (back.number() as usize).checked_sub(1)?;
    if start < end && begins_loop(&code[start]) {
        Some(start)
    } else {
        None
    }
}

/// Whether the jump of an instruction at a place leads into those from `start + 1` to `end` only from there.
fn stays_out(instr: &Instr, place: usize, start: usize, end: usize) -> bool
    ensures { IsTrue result ↔ StaysOut start end place instr.now }
{
    let Some(target) = jump_of(instr) else {
        return true;
    };
    let target = target.number() as usize;
    target <= start || target > end || (start < place && place <= end)
}

/// The first place whose jump leads into those from `start + 1` to `end` from outside.
fn first_into(code: &[Instr], start: usize, end: usize) -> Option<usize>
    ensures { FirstOf (StaysOut start end) code.now result }
{
    for (place, instr) in code.iter().enumerate() {
        if !stays_out(instr, place, start, end) {
            return Some(place);
        }
    }
    None
}

/// The first place whose jump leads into the body that a place ends.
fn first_into_end(code: &[Instr], end: usize) -> Option<usize>
    requires { end < length code.now }
    ensures { IntoEnd code.now end result }
{
    match loop_of(code, end) {
        Some(start) => first_into(code, start, end),
        None => None,
    }
}

/// A place whose jump leads into a body.
fn jump_into_loop(code: &[Instr]) -> Option<usize>
    ensures { IntoLoop code.now result }
{
    for end in 0..code.len() {
        if let Some(place) = first_into_end(code, end) {
            return Some(place);
        }
    }
    None
}

/// A place that jumps as it may not.
fn bad_jump(code: &[Instr]) -> Option<usize>
    ensures { BadJumpOf code.now result }
{
    match first_bad_target(code) {
        Some(place) => Some(place),
        None => jump_into_loop(code),
    }
}

fn jump_is_valid(code: &[Instr]) -> bool
    ensures { IsTrue result ↔ JumpIsValid code.now }
{
    bad_jump(code).is_none()
}

/// The first method with a place that jumps as it may not.
fn first_jumping(methods: &[Method]) -> Option<usize>
    ensures { FirstOf (λ _ d. JumpIsValid d.code) methods.now result }
{
    for (number, method) in methods.iter().enumerate() {
        if !jump_is_valid(method.code.as_slice()) {
            return Some(number);
        }
    }
    None
}

pub fn all_jumps_valid(image: &Image) -> bool
    ensures { IsTrue result ↔ AllJumpsValid image.now }
{
    first_jumping(image.methods().as_slice()).is_none()
}

/// The jump that is not as it may be.
pub fn jump_place(image: &Image) -> Option<LinkPlace>
    ensures { PlaceOf image.now LinkFault.BadJump result }
{
    let methods = image.methods().as_slice();
    match first_jumping(methods) {
        Some(number) => {
            let method = &methods[number];
            let place = bad_jump(method.code.as_slice());
            Some(LinkPlace::in_method(number, place))
        }
        None => None,
    }
}
