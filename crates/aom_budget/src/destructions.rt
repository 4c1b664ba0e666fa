//! What the destruction of a thing costs, by the prices of the methods.
ghost use Rattle.std.specs.Prelude.{◌≡◌, ◌≤◌, ◌*◌, ℕ, cond, length};
ghost use Rattle.aom_image.specs.declared.method.Thing.TheVariants.{Object};
ghost use Rattle.aom_roles.specs.Classes.{kind_at};
ghost use Rattle.aom_roles.specs.Families.{descends};
ghost use Rattle.aom_static_bounds.specs.Prices.{kind_sessions, perhaps_sessions};
ghost use Rattle.aom_static_bounds.specs.Sweeping.{going, whole_going};
ghost use Rattle.aom_roles.specs.Tables.{at};
ghost use Rattle.aom_budget.specs.Costing.{IsDestroyed};
ghost use Rattle.aom_budget.specs.Pricing.{destruction_by, kept, price_by};

use crate::lines::line_cost;
use crate::raising::raise_class;
use crate::sums::{Sums, kept};
use crate::table::class_number;
use aom_image::{ClassKind, ClassNumber, Thing};
use aom_linker::Linked;
use aom_roles::descends;

/// What the going of an object costs: a step, and the destructors of its line.
fn going(linked: &Linked, prices: &Sums, class: ClassNumber) -> u64
    ensures is { kept result ≡ kept (going linked.now (price_by prices.now) (Object class)) }
    ensures low { result ≤ 4294967297 }
{
    1 + line_cost(linked, prices, class)
}

/// What the most sessions cost that an object of a class of that kind may have.
fn kind_sessions(linked: &Linked, prices: &Sums, kind: ClassKind) -> u64
    ensures is { kept result ≡ kept (kind_sessions (λ k. going linked.now (price_by prices.now) (Object k)) kind) }
    ensures low { result ≤ 255 * 4294967297 }
{
    match kind {
        ClassKind::Server { sessions, session } => u64::from(sessions)
            * going(linked, prices, session),
        ClassKind::Plain | ClassKind::Active { .. } | ClassKind::Session => 0,
    }
}

/// What those of a class cost.
#[tactic(auto, unfolding(aom_roles::specs::Classes::kind_in, aom_image::specs::Views::class_at))]
fn class_sessions(linked: &Linked, prices: &Sums, class: ClassNumber) -> u64
    ensures is { kept result ≡ kept (perhaps_sessions (λ k. going linked.now (price_by prices.now) (Object k)) (kind_at linked.now class)) }
    ensures low { result ≤ 255 * 4294967297 }
{
    let classes = linked.image().classes();
    match classes.as_slice().get(class.number() as usize) {
        Some(class) => kind_sessions(linked, prices, class.kind),
        None => 0,
    }
}

/// What the going of an object of just that class costs, with all the sessions that it may have.
fn whole_going(linked: &Linked, prices: &Sums, class: ClassNumber) -> u64
    ensures is { result ≡ kept (whole_going linked.now (price_by prices.now) (Object class)) }
    ensures low { result ≤ 4294967296 }
{
    kept(going(linked, prices, class) + class_sessions(linked, prices, class))
}

/// What the destruction of a thing costs: the most of all that may stand for it.
pub(crate) fn destruction(linked: &Linked, prices: &Sums, thing: Thing) -> u64
    ensures is { result ≡ destruction_by linked.now prices.now thing }
    ensures low { result ≤ 4294967296 }
{
    match thing {
        Thing::Object(class) => most_going(linked, prices, class),
        Thing::Message => 1,
    }
}

/// What the going of an object of a class costs where the other is declared, if it may stand there.
fn standing_cost(linked: &Linked, prices: &Sums, class: ClassNumber, declared: ClassNumber) -> u64
    ensures is { result ≡ cond (descends linked.now class declared) (kept (whole_going linked.now (price_by prices.now) (Object class))) 0 }
    ensures low { result ≤ 4294967296 }
{
    if descends(linked.image(), class, declared) {
        whole_going(linked, prices, class)
    } else {
        0
    }
}

/// The most that the going of an object costs that is declared of that class.
fn most_going(linked: &Linked, prices: &Sums, class: ClassNumber) -> u64
    ensures is { result ≡ destruction_by linked.now prices.now (Object class) }
    ensures low { result ≤ 4294967296 }
{
    let mut most = whole_going(linked, prices, class);
    for index in 0..linked.image().classes().len() {
        most = most.max(standing_cost(linked, prices, class_number(index), class));
    }
    most
}

/// Raises what a table says of each class's destruction to what it costs now.
pub(crate) fn raise_destroyed(linked: &Linked, prices: &Sums, table: &mut Sums)
    requires size { length table.old ≡ length linked.now.classes }
    requires below { (c : ℕ) → at 0 table.old c ≤ destruction_by linked.now prices.now (Object c) }
    ensures { IsDestroyed linked.now prices.now table.new }
{
    for index in 0..linked.image().classes().len() {
        let class = class_number(index);
        raise_class(
            linked.image(),
            table,
            class,
            whole_going(linked, prices, class),
        );
    }
}
