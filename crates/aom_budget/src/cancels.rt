//! What the cancel methods of what may stand for a class come to.
ghost use Rattle.std.specs.Prelude.{◌≡◌, ◌≤◌, ℕ, Some, length};
ghost use Rattle.aom_static_bounds.specs.Calls.{cancels};
ghost use Rattle.aom_roles.specs.Tables.{at};
ghost use Rattle.aom_budget.specs.Greatest.{most_at, IsCancelled};

use crate::lines::perhaps_cost;
use crate::raising::raise_class;
use crate::sums::Sums;
use crate::table::{Table, class_number};
use aom_image::Role;
use aom_linker::Linked;

/// Raises what a table says of each class to what its cancel methods cost now.
pub(crate) fn raise_cancel_costs(linked: &Linked, prices: &Sums, table: &mut Sums)
    requires size { length table.old ≡ length linked.now.classes }
    requires below { (c : ℕ) → at 0 table.old c ≤ most_at prices.now (cancels linked.now (Some c)) }
    ensures { IsCancelled linked.now prices.now table.new }
{
    for index in 0..linked.image().classes().len() {
        let class = class_number(index);
        let cost = perhaps_cost(prices, linked.role(class, Role::Cancel));
        raise_class(linked.image(), table, class, cost);
    }
}

/// Raises it to how deep they go now.
pub(crate) fn raise_cancel_depths(linked: &Linked, depths: &Table, table: &mut Sums)
    requires size { length table.old ≡ length linked.now.classes }
    requires below { (c : ℕ) → at 0 table.old c ≤ most_at depths.now (cancels linked.now (Some c)) }
    ensures { IsCancelled linked.now depths.now table.new }
{
    for index in 0..linked.image().classes().len() {
        let class = class_number(index);
        let depth = depths.of_perhaps(linked.role(class, Role::Cancel));
        raise_class(linked.image(), table, class, u64::from(depth));
    }
}
