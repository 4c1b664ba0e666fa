//! Methods that run in the place of others.
ghost use Rattle.std.specs.Prelude.{◌≡◌, ◌↔◌, ◌<◌, ◌≤◌, IsTrue, Some, length, position, slice_get};
ghost use Rattle.aom_link_conditions.specs.Families.{BeginsWith};
ghost use Rattle.aom_link_conditions.specs.Overriding.{overridden_method, leads_to, replaces, overrider_of, is_below, RequiresNoMore, MayOverride, MayOverrideNamed, AllMayOverride, IsOnly, OtherOverrider, AllOverriddenOnce, OverridesNothing, OverridersFit};
ghost use Rattle.aom_roles.specs.Firsts.{FirstOf};

use crate::roles::{is_class, number_at};
use crate::same::{same_argument, same_gives};
use crate::singles::first_twice;
use aom_image::{Argument, ClassNumber, Image, Method, MethodNumber, Role};
use aom_roles::{descends, is_quiet, may_leave, same_role};
use bitflags::Flags;

/// What a method overrides.
#[tactic(auto, unfolding(crate::specs::Overriding::over_in, aom_image::specs::Views::method_at))]
pub fn overridden_method(image: &Image, method: MethodNumber) -> Option<MethodNumber>
    ensures { result ≡ overridden_method image.now method }
{
    let methods = image.methods();
    match methods.as_slice().get(method.number() as usize) {
        Some(method) => method.over,
        None => None,
    }
}

/// Whether what overrides that one overrides the method, itself or through others.
pub fn leads_to(image: &Image, over: Option<MethodNumber>, method: MethodNumber) -> bool
    ensures { result ≡ leads_to image.now over method }
{
    let mut left = image.methods().len();
    let mut here = over;
    while let Some(other) = here {
        if other.number() == method.number() {
            return true;
        }
        if left == 0 {
            return false;
        }
        left -= 1;
        here = overridden_method(image, other);
    }
    false
}

#[tactic(auto, unfolding(crate::specs::Overriding::replaces))]
fn replaces(image: &Image, class: ClassNumber, named: MethodNumber, method: &Method) -> bool
    ensures { result ≡ replaces image.now class named method.now }
{
    is_class(class, method.class) && leads_to(image, method.over, named)
}

/// What a class has in the place of a method.
#[tactic(auto, unfolding(crate::specs::Overriding::overrider_of))]
fn overrider_of(image: &Image, class: ClassNumber, named: MethodNumber) -> Option<usize>
    ensures { result ≡ overrider_of image.now class named }
{
    let methods = image.methods();
    methods
        .as_slice()
        .iter()
        .position(|method| replaces(image, class, named, method))
}

#[tactic(auto, unfolding(crate::specs::Overriding::is_below))]
fn is_below(image: &Image, class: Option<ClassNumber>, other: Option<ClassNumber>) -> bool
    ensures { result ≡ is_below image.now class other }
{
    let Some(class) = class else {
        return false;
    };
    match other {
        Some(ancestor) => {
            class.number() != ancestor.number() && descends(image, class, ancestor)
        }
        None => false,
    }
}

fn has_argument(arguments: &[Argument], index: usize, argument: Argument) -> bool
    ensures { IsTrue result ↔ (slice_get arguments.now index ≡ Some argument) }
{
    match arguments.get(index) {
        Some(own) => same_argument(*own, argument),
        None => false,
    }
}

fn begins_with(arguments: &[Argument], first: &[Argument]) -> bool
    ensures { IsTrue result ↔ BeginsWith arguments.now first.now }
{
    for (index, argument) in first.iter().enumerate() {
        if !has_argument(arguments, index, *argument) {
            return false;
        }
    }
    true
}

fn same_arguments(one: &[Argument], other: &[Argument]) -> bool
    ensures { IsTrue result ↔ (one.now ≡ other.now) }
{
    one.len() == other.len() && begins_with(one, other)
}

fn takes_the_same(method: &Method, other: &Method) -> bool
    ensures { IsTrue result ↔ ((method.now.arguments ≡ other.now.arguments) × (method.now.gives ≡ other.now.gives)) }
{
    same_arguments(method.arguments.as_slice(), other.arguments.as_slice())
        && same_gives(method.gives, other.gives)
}

fn requires_no_more(method: &Method, other: &Method) -> bool
    ensures { IsTrue result ↔ RequiresNoMore method.now other.now }
{
    (!may_leave(method) || may_leave(other))
        && (!is_quiet(other) || is_quiet(method))
        && method.before.contains(other.before)
        && other.after.contains(method.after)
}

/// Whether a method may run in the place of another.
fn may_override(image: &Image, method: &Method, other: &Method) -> bool
    ensures { IsTrue result ↔ MayOverride image.now method.now other.now }
{
    is_below(image, method.class, other.class)
        && same_role(method.role, Role::Do)
        && same_role(other.role, Role::Do)
        && takes_the_same(method, other)
        && requires_no_more(method, other)
}

#[tactic(auto, unfolding(aom_image::specs::Views::method_at))]
fn may_override_named(image: &Image, method: &Method) -> bool
    ensures { IsTrue result ↔ MayOverrideNamed image.now method.now }
{
    let Some(over) = method.over else {
        return true;
    };
    let methods = image.methods();
    match methods.as_slice().get(over.number() as usize) {
        Some(other) => may_override(image, method, other),
        None => true,
    }
}

/// The first method that may not stand in the place of the one that it overrides.
pub fn first_bad_override(image: &Image, methods: &[Method]) -> Option<usize>
    ensures { FirstOf (λ _. MayOverrideNamed image.now) methods.now result }
{
    for (number, method) in methods.iter().enumerate() {
        if !may_override_named(image, method) {
            return Some(number);
        }
    }
    None
}

fn all_may_override(image: &Image) -> bool
    ensures { IsTrue result ↔ AllMayOverride image.now }
{
    first_bad_override(image, image.methods().as_slice()).is_none()
}

fn is_found(index: usize, found: Option<usize>) -> bool
    ensures { IsTrue result ↔ (found ≡ Some index) }
{
    found == Some(index)
}

fn is_only(image: &Image, named: MethodNumber, index: usize, method: &Method) -> bool
    ensures { IsTrue result ↔ IsOnly image.now named index method.now }
{
    if !leads_to(image, method.over, named) {
        return true;
    }
    match method.class {
        Some(class) => is_found(index, overrider_of(image, class, named)),
        None => true,
    }
}

/// The first method that overrides that one where another of its class does before it.
fn first_other(image: &Image, methods: &[Method], named: MethodNumber) -> Option<usize>
    ensures { FirstOf (IsOnly image.now named) methods.now result }
{
    for (index, method) in methods.iter().enumerate() {
        if !is_only(image, named, index, method) {
            return Some(index);
        }
    }
    None
}

/// Whether no method overrides another.
fn overrides_nothing(image: &Image) -> bool
    ensures { IsTrue result ↔ OverridesNothing image.now }
{
    let methods = image.methods();
    methods
        .as_slice()
        .iter()
        .all(|method| method.over.is_none())
}

/// The first method that overrides the first that is overridden twice in a class, where another of its class does before it.
/// Where none overrides nothing more is looked at.
pub fn second_overrider(image: &Image) -> Option<usize>
    ensures { OtherOverrider image.now result }
{
    if overrides_nothing(image) {
        return None;
    }
    let methods = image.methods().as_slice();
    let named = first_twice(image);
    if named == methods.len() {
        return None;
    }
    first_other(image, methods, number_at(named))
}

fn overriders_are_single(image: &Image) -> bool
    ensures { IsTrue result ↔ AllOverriddenOnce image.now }
{
    second_overrider(image).is_none()
}

/// Whether what overrides is as it may be.
pub fn overriders_fit(image: &Image) -> bool
    ensures { IsTrue result ↔ OverridersFit image.now }
{
    all_may_override(image) && overriders_are_single(image)
}
