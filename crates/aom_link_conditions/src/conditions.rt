//! The conditions, in the order of their numbers.
ghost use Rattle.std.specs.Prelude.{◌≡◌, IfOk, IfErr, Some};
ghost use Rattle.aom_link_conditions.specs.Linked.{IsLinked};
ghost use Rattle.aom_link_conditions.specs.Roles.{main_of};
ghost use Rattle.aom_link_conditions.specs.Faults.{Fails};

use crate::LinkFault;
use crate::call_order::calls_are_ordered;
use crate::families::all_continue;
use crate::jumps::all_jumps_valid;
use crate::loops::all_loops_nest;
use crate::needs::{needs_are_met, roles_are_single};
use crate::overriding::overriders_fit;
use crate::roles::find_main;
use aom_image::{Image, MethodNumber};
use aom_roles::{all_are_shaped, classes_are_ordered};

/// The main of an image that keeps the conditions.
pub fn check_conditions(image: &Image) -> Result<MethodNumber, LinkFault>
    ensures ok { IfOk result (λ main. IsLinked image.now × (main_of image.now ≡ Some main)) }
    ensures err { IfErr result (λ fault. Fails image.now fault) }
{
    if !classes_are_ordered(image) {
        return Err(LinkFault::ClassOrder);
    }
    if !calls_are_ordered(image) {
        return Err(LinkFault::CallOrder);
    }
    if !needs_are_met(image) {
        return Err(LinkFault::MissingRole);
    }
    if !roles_are_single(image) {
        return Err(LinkFault::DoubleRole);
    }
    if !all_are_shaped(image) {
        return Err(LinkFault::RoleShape);
    }
    if !all_jumps_valid(image) {
        return Err(LinkFault::BadJump);
    }
    if !all_loops_nest(image) {
        return Err(LinkFault::BadLoop);
    }
    let Some(main) = find_main(image.methods().as_slice()) else {
        return Err(LinkFault::NoMain);
    };
    if !all_continue(image) {
        return Err(LinkFault::BadParent);
    }
    if !overriders_fit(image) {
        return Err(LinkFault::BadOverride);
    }
    Ok(main)
}
