//! The prices of the methods, and of what is dispatched.
ghost use Rattle.std.specs.Prelude.{◌≡◌, ◌≤◌, IfOk};
ghost use Rattle.aom_budget.specs.Figures.{kind_by, main_by, role_by, root_by};
ghost use Rattle.aom_budget.specs.Pricing.{ArePriced};

use crate::costs::Costs;
use crate::destructions::destruction;
use crate::lines::perhaps_cost;
use crate::pass::price_of;
use crate::sums::{Sums, kept};
use crate::table::number_at;
use aom_image::{ClassKind, ClassNumber, Role, Thing};
use aom_linker::Linked;
use aom_verify::Checked;
use std::alloc::{AllocError, Global};

/// The price of each method, found from the lowest number up: a method pays for lower ones alone.
pub(crate) fn prices_of(alloc: Global, checked: &Checked) -> Result<Sums, AllocError>
    ensures { IfOk result (λ prices. ArePriced checked.now prices) }
{
    let linked = checked.linked();
    let methods = linked.image().methods();
    linked.facts();
    let mut costs = Costs::new(alloc, linked)?;
    for index in 0..methods.len() {
        let price = price_of(alloc, checked, &costs, number_at(index))?;
        costs.set(linked, number_at(index), price);
    }
    Ok(costs.prices)
}

/// What the destruction of the root costs, if there is one.
fn root_price(linked: &Linked, prices: &Sums, root: Option<ClassNumber>) -> u64
    ensures is { result ≡ root_by linked.now prices.now root }
    ensures low { result ≤ 4294967296 }
{
    match root {
        Some(class) => destruction(linked, prices, Thing::Object(class)),
        None => 0,
    }
}

/// What main's dispatch costs: main, and the destruction of the root.
pub(crate) fn main_price(linked: &Linked, prices: &Sums) -> u64
    ensures { result ≡ main_by linked.now prices.now }
{
    let root = root_price(linked, prices, linked.image().header().root);
    kept(prices.at(linked.main().number() as usize) + root)
}

/// What the method of a class with a role costs, if there is one.
fn role_price(linked: &Linked, prices: &Sums, class: ClassNumber, role: Role) -> u64
    ensures is { result ≡ role_by linked.now prices.now class role }
    ensures low { result ≤ 4294967296 }
{
    perhaps_cost(prices, linked.role(class, role))
}

/// What a dispatch of an object of a class of that kind costs. An active object runs, and its error method follows where the
/// run left; a server accepts, serves, or ends a session.
pub(crate) fn kind_price(linked: &Linked, class: ClassNumber, kind: ClassKind, prices: &Sums) -> u64
    ensures { result ≡ kind_by linked.now prices.now class kind }
{
    match kind {
        ClassKind::Plain | ClassKind::Session => 0,
        ClassKind::Active { .. } => {
            let run = role_price(linked, prices, class, Role::Run);
            kept(run + role_price(linked, prices, class, Role::Error))
        }
        ClassKind::Server { session, .. } => {
            let accept = role_price(linked, prices, class, Role::Accept);
            let service = role_price(linked, prices, session, Role::Service);
            accept.max(service.max(destruction(linked, prices, Thing::Object(session))))
        }
    }
}
