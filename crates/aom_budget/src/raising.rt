//! Tables of the greatest numbers: over a method and all that override it, and over a class and all that descend from it.
//! A number that is found raises what they say of all that it counts for, so reading them is one look.
ghost use Rattle.std.specs.Prelude.{◌≡◌, ◌≤◌, ◌<◌, ℕ, cond, length, max};
ghost use Rattle.aom_roles.specs.Families.{descends};
ghost use Rattle.aom_roles.specs.Tables.{at};
ghost use Rattle.aom_budget.specs.Greatest.{is_body};

use crate::sums::Sums;
use aom_image::{ClassNumber, Image, MethodNumber};
use aom_link_conditions::overridden_method;
use aom_roles::parent_of;

/// Raises what a table says of a method, and of all that it overrides, itself or through others.
pub(crate) fn raise_called(image: &Image, table: &mut Sums, method: MethodNumber, number: u64)
    requires { number ≤ 4294967296 }
    ensures size { length table.new ≡ length table.old }
    ensures each { (k : ℕ) → k < length table.old → at 0 table.new k ≡ max (at 0 table.old k) (cond (is_body image.now method k) number 0) }
{
    table.raise(method.number() as usize, number);
    let mut left = image.methods().len();
    let mut here = overridden_method(image, method);
    while let Some(other) = here {
        table.raise(other.number() as usize, number);
        if left == 0 {
            return;
        }
        left -= 1;
        here = overridden_method(image, other);
    }
}

/// Raises what a table says of a class, and of all that it descends from.
pub(crate) fn raise_class(image: &Image, table: &mut Sums, class: ClassNumber, number: u64)
    requires { number ≤ 4294967296 }
    ensures size { length table.new ≡ length table.old }
    ensures each { (c : ℕ) → c < length table.old → at 0 table.new c ≡ max (at 0 table.old c) (cond (descends image.now class c) number 0) }
{
    let mut here = Some(class);
    while let Some(class) = here {
        table.raise(class.number() as usize, number);
        here = parent_of(image, class);
    }
}
