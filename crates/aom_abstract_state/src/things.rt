//! Objects and messages.
ghost use Rattle.std.specs.Prelude.{◌≡◌};
ghost use Rattle.aom_roles.specs.Things.{same_thing, is_object};

use aom_image::Thing;

pub fn is_object(thing: Thing) -> bool
    ensures { result ≡ is_object thing }
{
    match thing {
        Thing::Object(_) => true,
        Thing::Message => false,
    }
}

pub fn same_thing(one: Thing, other: Thing) -> bool
    ensures { result ≡ same_thing one other }
{
    match one {
        Thing::Object(class) => match other {
            Thing::Object(number) => class.number() == number.number(),
            Thing::Message => false,
        },
        Thing::Message => !is_object(other),
    }
}
