//! What a method overrides, itself and through others, in tables of all methods at once.
ghost use Rattle.std.specs.Prelude.{ℕ, ◌≡◌, ◌<◌, ◌≤◌, Some, cond, length, nat_eq, replicate, slice_get};
ghost use Rattle.aom_link_conditions.specs.Overriding.{leads_to};
ghost use Rattle.aom_link_conditions.specs.Chains.{AreOverriders};

use crate::overriding::overridden_method;
use crate::roles::is_class;
use aom_image::{ClassNumber, Image, MethodNumber};
use arrayvec::ArrayVec;

/// A number for each method.
pub type ByMethod = ArrayVec<usize, 1024>;

/// No method: above the numbers of all.
pub const NO_METHOD: usize = 1024;

/// The same number for each method.
pub fn all_alike(number: usize) -> ByMethod
    ensures items { result.items ≡ replicate 1024 number }
    ensures size { length result.items ≡ 1024 }
{
    ArrayVec::from_array_in((), [number; 1024])
}

/// Puts a number at one method.
fn put(table: &mut ByMethod, method: MethodNumber, number: usize)
    requires { length table.old.items ≡ 1024 }
    ensures size { length table.new.items ≡ 1024 }
    ensures each { (m n : ℕ) → slice_get table.old.items m ≡ Some n → slice_get table.new.items m ≡ Some (cond (nat_eq method m) number n) }
{
    table[method.number() as usize] = number;
}

/// Puts a number at each method that is overridden by what overrides that one.
pub fn put_overridden(
    image: &Image,
    table: &mut ByMethod,
    over: Option<MethodNumber>,
    number: usize,
)
    requires { length table.old.items ≡ 1024 }
    ensures size { length table.new.items ≡ 1024 }
    ensures each { (m n : ℕ) → slice_get table.old.items m ≡ Some n → slice_get table.new.items m ≡ Some (cond (leads_to image.now over m) number n) }
{
    let mut left = image.methods().len();
    let mut here = over;
    while let Some(other) = here {
        put(table, other, number);
        if left == 0 {
            return;
        }
        left -= 1;
        here = overridden_method(image, other);
    }
}

/// What a class has in the place of each method: the first of its methods that overrides it.
pub fn overriders_of_class(image: &Image, class: ClassNumber) -> ByMethod
    ensures { AreOverriders image.now class result.items }
{
    let mut overriders = all_alike(NO_METHOD);
    let methods = image.methods().as_slice();
    let mut number = methods.len();
    while number > 0 {
        number -= 1;
        let method = &methods[number];
        if is_class(class, method.class) {
            put_overridden(image, &mut overriders, method.over, number);
        }
    }
    overriders
}
