//! The line of destructors that runs as an object goes: that of its class and of each class above it, where it has one itself.
ghost use Rattle.std.specs.Prelude.{◌≡◌, ◌≤◌, ◌++◌, ℕ, Some, length};
ghost use Rattle.aom_image.specs.declared.method.Role.TheVariants.{Destruct};
ghost use Rattle.aom_image.specs.declared.method.Thing.TheVariants.{Object};
ghost use Rattle.aom_roles.specs.Classes.{sessions_at};
ghost use Rattle.aom_link_conditions.specs.Roles.{own_role};
ghost use Rattle.aom_static_bounds.specs.Calls.{destructors, lines_of};
ghost use Rattle.aom_static_bounds.specs.Most.{line};
ghost use Rattle.aom_roles.specs.Tables.{at};
ghost use Rattle.aom_budget.specs.Greatest.{most_at, IsGone};
ghost use Rattle.aom_budget.specs.Pricing.{kept, price_by};

use crate::callees::class_of;
use crate::raising::raise_class;
use crate::sums::{Sums, kept};
use crate::table::{Table, class_number};
use aom_image::{ClassNumber, MethodNumber, Role};
use aom_linker::Linked;
use aom_roles::{parent_of, sessions_at};

/// The destructor that a class has itself.
fn own_destructor(linked: &Linked, class: ClassNumber) -> Option<MethodNumber>
    ensures { result ≡ own_role linked.now class Destruct }
{
    let method = linked.role(class, Role::Destruct)?;
    let of = class_of(linked, method)?;
    if of.number() == class.number() {
        Some(method)
    } else {
        None
    }
}

/// What a method costs, if there is one.
pub(crate) fn perhaps_cost(prices: &Sums, method: Option<MethodNumber>) -> u64
    ensures is { result ≡ price_by prices.now method }
    ensures low { result ≤ 4294967296 }
{
    match method {
        Some(method) => prices.at(method.number() as usize),
        None => 0,
    }
}

/// What a line costs.
pub(crate) fn line_cost(linked: &Linked, prices: &Sums, class: ClassNumber) -> u64
    ensures is { result ≡ kept (line linked.now (price_by prices.now) (Object class)) }
    ensures low { result ≤ 4294967296 }
{
    let mut cost = 0;
    let mut here = Some(class);
    while let Some(class) = here {
        cost = kept(cost + perhaps_cost(prices, own_destructor(linked, class)));
        here = parent_of(linked.image(), class);
    }
    cost
}

/// The greatest depth of a line.
fn line_depth(linked: &Linked, depths: &Table, class: ClassNumber) -> u16
    ensures { result ≡ most_at depths.now (lines_of linked.now (Some class)) }
{
    let mut depth = 0;
    let mut here = Some(class);
    while let Some(class) = here {
        depth = depth.max(depths.of_perhaps(own_destructor(linked, class)));
        here = parent_of(linked.image(), class);
    }
    depth
}

/// The greatest depth of a class's line, and of that of its sessions.
fn going_depth(linked: &Linked, depths: &Table, class: ClassNumber) -> u16
    ensures { result ≡ most_at depths.now (lines_of linked.now (Some class) ++ lines_of linked.now (sessions_at linked.now class)) }
{
    let own = line_depth(linked, depths, class);
    match sessions_at(linked.image(), class) {
        Some(sessions) => own.max(line_depth(linked, depths, sessions)),
        None => own,
    }
}

/// Raises what a table says of each class to how deep the lines of what may stand for it go now.
pub(crate) fn raise_destruction(linked: &Linked, depths: &Table, table: &mut Sums)
    requires size { length table.old ≡ length linked.now.classes }
    requires below { (c : ℕ) → at 0 table.old c ≤ most_at depths.now (destructors linked.now (Some c)) }
    ensures { IsGone linked.now depths.now table.new }
{
    for index in 0..linked.image().classes().len() {
        let class = class_number(index);
        let depth = going_depth(linked, depths, class);
        raise_class(linked.image(), table, class, u64::from(depth));
    }
}
