//! Whether each class overrides a method once.
ghost use Rattle.std.specs.Prelude.{ℕ, ◌≡◌, ◌+◌, ◌<◌, ◌≤◌, ◌↔◌, IfSome, IsTrue, Some, length, slice_get};
ghost use Rattle.aom_link_conditions.specs.Chains.{AreLast, FirstTwice, FirstTwiceIn};

use crate::chains::{ByMethod, all_alike, overriders_of_class, put_overridden};
use crate::needs::class_number;
use crate::roles::is_class;
use aom_image::{ClassNumber, Image};

/// The least number above all methods of a class that override each method.
fn above_overriders_of(image: &Image, class: ClassNumber) -> ByMethod
    ensures { AreLast image.now class result.items }
{
    let mut above = all_alike(0);
    let methods = image.methods();
    for (number, method) in methods.as_slice().iter().enumerate() {
        if is_class(class, method.class) {
            put_overridden(image, &mut above, method.over, number + 1);
        }
    }
    above
}

/// Whether the number above all is the next after the first.
fn is_once(above: usize, first: usize) -> bool
    ensures { IsTrue result ↔ (above ≤ first + 1) }
{
    above <= first || above - first == 1
}

/// The first method that two methods of a class override; the count of methods where there is none.
fn first_twice_in(image: &Image, class: ClassNumber) -> usize
    ensures { FirstTwiceIn image.now class result }
{
    let count = image.methods().len();
    let firsts = overriders_of_class(image, class);
    let above = above_overriders_of(image, class);
    let mut named = 0;
    while named < count && is_once(above[named], firsts[named]) {
        named += 1;
    }
    named
}

/// The first method that two methods of one class override; the count of methods where there is none.
pub fn first_twice(image: &Image) -> usize
    ensures { FirstTwice image.now result }
{
    let mut least = image.methods().len();
    for class in 0..image.classes().len() {
        least = least.min(first_twice_in(image, class_number(class)));
    }
    least
}
