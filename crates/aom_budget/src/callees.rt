//! The class by which an instruction may call something.
ghost use Rattle.std.specs.Prelude.{◌≡◌};
ghost use Rattle.aom_static_bounds.specs.Calls.{thing_class, object_class};
ghost use Rattle.aom_image.specs.Views.{method_class};

use aom_abstract_state::Kind;
use aom_image::{ClassNumber, MethodNumber, Thing};
use aom_linker::Linked;

fn thing_class(thing: Thing) -> Option<ClassNumber>
    ensures { result ≡ thing_class thing }
{
    match thing {
        Thing::Object(class) => Some(class),
        Thing::Message => None,
    }
}

/// The class of the object that is there, or may be there.
pub(crate) fn object_class(kind: Kind) -> Option<ClassNumber>
    ensures { result ≡ object_class kind }
{
    match kind {
        Kind::Unset | Kind::Word | Kind::Null => None,
        Kind::Own(thing, _) | Kind::Maybe(thing, _) => thing_class(thing),
    }
}

pub(crate) fn class_of(linked: &Linked, method: MethodNumber) -> Option<ClassNumber>
    ensures { result ≡ method_class linked.now method }
{
    let methods = linked.image().methods();
    match methods.as_slice().get(method.number() as usize) {
        Some(method) => method.class,
        None => None,
    }
}
