//! Where an image fails a condition.
ghost use Rattle.std.specs.Prelude.{◌≡◌, ◌<◌};
ghost use Rattle.aom_link_conditions.specs.Places.{PlaceOf, place_in};

use crate::LinkFault;
use crate::call_order::call_place;
use crate::families::first_bad_child;
use crate::jumps::jump_place;
use crate::loops::first_unnested;
use crate::needs::{class_number, first_double, first_missing_role, second_main};
use crate::overriding::{first_bad_override, second_overrider};
use crate::roles::number_at;
use aom_image::{ClassNumber, Image, MethodNumber};
use aom_roles::{first_misnaming, first_unordered, first_unshaped, session_root};

/// The class, the method, or the instruction of a method at a place in its code.
#[derive(Clone, Copy)]
pub enum LinkPlace {
    Class(ClassNumber),
    Method(MethodNumber),
    Instruction(MethodNumber, usize),
}

impl LinkPlace {
    /// An instruction of a method, or where there is none the method.
    pub fn in_method(method: usize, place: Option<usize>) -> LinkPlace
        requires { method < 1024 }
        ensures { result ≡ place_in method place }
    {
        let method = number_at(method);
        match place {
            Some(place) => LinkPlace::Instruction(method, place),
            None => LinkPlace::Method(method),
        }
    }

    fn of_class(class: usize) -> LinkPlace
        requires { class < 256 }
        ensures { result ≡ LinkPlace.Class class }
    {
        LinkPlace::Class(class_number(class))
    }
}

fn order_place(image: &Image) -> Option<LinkPlace>
    ensures { PlaceOf image.now LinkFault.ClassOrder result }
{
    if let Some(class) = first_unordered(image, image.classes().as_slice()) {
        return Some(LinkPlace::of_class(class));
    }
    match session_root(image) {
        Some(root) => Some(LinkPlace::Class(root)),
        None => None,
    }
}

fn need_place(image: &Image) -> Option<LinkPlace>
    ensures { PlaceOf image.now LinkFault.MissingRole result }
{
    match first_missing_role(image, image.classes().as_slice()) {
        Some(class) => Some(LinkPlace::of_class(class)),
        None => None,
    }
}

fn double_place(image: &Image) -> Option<LinkPlace>
    ensures { PlaceOf image.now LinkFault.DoubleRole result }
{
    let methods = image.methods().as_slice();
    if let Some(class) = first_double(methods, image.classes().as_slice()) {
        return Some(LinkPlace::of_class(class));
    }
    match second_main(methods) {
        Some(method) => Some(LinkPlace::in_method(method, None)),
        None => None,
    }
}

fn shape_place(image: &Image) -> Option<LinkPlace>
    ensures { PlaceOf image.now LinkFault.RoleShape result }
{
    let methods = image.methods().as_slice();
    match first_unshaped(image, methods) {
        Some(number) => {
            let method = &methods[number];
            let place = first_misnaming(image, method.code.as_slice());
            Some(LinkPlace::in_method(number, place))
        }
        None => None,
    }
}

fn loop_place(image: &Image) -> Option<LinkPlace>
    ensures { PlaceOf image.now LinkFault.BadLoop result }
{
    match first_unnested(image.methods().as_slice()) {
        Some(method) => Some(LinkPlace::in_method(method, None)),
        None => None,
    }
}

fn parent_place(image: &Image) -> Option<LinkPlace>
    ensures { PlaceOf image.now LinkFault.BadParent result }
{
    match first_bad_child(image, image.classes().as_slice()) {
        Some(class) => Some(LinkPlace::of_class(class)),
        None => None,
    }
}

fn override_place(image: &Image) -> Option<LinkPlace>
    ensures { PlaceOf image.now LinkFault.BadOverride result }
{
    if let Some(method) = first_bad_override(image, image.methods().as_slice()) {
        return Some(LinkPlace::in_method(method, None));
    }
    match second_overrider(image) {
        Some(method) => Some(LinkPlace::in_method(method, None)),
        None => None,
    }
}

/// The first class, method or instruction at which an image fails the condition of a fault. None where it keeps the
/// condition, and of a fault that is none of theirs.
pub fn link_place(image: &Image, fault: LinkFault) -> Option<LinkPlace>
    ensures { PlaceOf image.now fault result }
{
    match fault {
        LinkFault::ClassOrder => order_place(image),
        LinkFault::CallOrder => call_place(image),
        LinkFault::MissingRole => need_place(image),
        LinkFault::DoubleRole => double_place(image),
        LinkFault::RoleShape => shape_place(image),
        LinkFault::BadJump => jump_place(image),
        LinkFault::BadLoop => loop_place(image),
        LinkFault::NoMain | LinkFault::OutOfMemory => None,
        LinkFault::BadParent => parent_place(image),
        LinkFault::BadOverride => override_place(image),
    }
}
