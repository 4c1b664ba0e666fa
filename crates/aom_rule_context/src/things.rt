//! What a place may own, by what is declared.
ghost use Rattle.std.specs.Prelude.{◌≡◌, IsSome, Some};
ghost use Rattle.aom_image.specs.Views.{fields_of, method_at};
ghost use Rattle.aom_abstract_state.specs.Kinds.{is_own_for, may_be, may_be_declared};
ghost use Rattle.aom_roles.specs.Things.{is_subtype, root_thing, field_thing, holder_by, holder_of, words_of, word_count};

use aom_abstract_state::Kind;
use aom_image::{ClassNumber, FieldIndex, MethodNumber, Role, Thing};
use aom_linker::Linked;
use aom_roles::descends;

/// A thing of the first kind may stand where one of the second is declared.
pub(crate) fn is_subtype(linked: &Linked, one: Thing, other: Thing) -> bool
    ensures { result ≡ is_subtype linked.now one other }
{
    match one {
        Thing::Object(class) => match other {
            Thing::Object(ancestor) => descends(linked.image(), class, ancestor),
            Thing::Message => false,
        },
        Thing::Message => match other {
            Thing::Object(_) => false,
            Thing::Message => true,
        },
    }
}

/// It owns what may stand for that thing.
pub(crate) fn is_own_for(linked: &Linked, thing: Thing, kind: Kind) -> bool
    ensures { result ≡ is_own_for linked.now thing kind }
{
    match kind {
        Kind::Unset | Kind::Word | Kind::Null | Kind::Maybe(_, _) => false,
        Kind::Own(own, _) => is_subtype(linked, own, thing),
    }
}

/// It is what may stand for that thing, or null.
pub(crate) fn may_be(linked: &Linked, thing: Thing, kind: Kind) -> bool
    ensures { result ≡ may_be linked.now thing kind }
{
    match kind {
        Kind::Unset | Kind::Word => false,
        Kind::Null => true,
        Kind::Own(own, _) | Kind::Maybe(own, _) => is_subtype(linked, own, thing),
    }
}

pub(crate) fn may_be_declared(linked: &Linked, declared: Option<Thing>, kind: Kind) -> bool
    ensures { result ≡ may_be_declared linked.now declared kind }
{
    match declared {
        None => false,
        Some(thing) => may_be(linked, thing, kind),
    }
}

/// What the owning fields of a class may own.
pub(crate) fn class_fields<'a>(linked: &'a Linked, class: ClassNumber) -> &'a [Thing]
    ensures { result.now ≡ fields_of linked.now class }
{
    match linked
        .image()
        .classes()
        .as_slice()
        .get(class.number() as usize)
    {
        None => &[],
        Some(declared) => declared.fields.as_slice(),
    }
}

/// What main's fields may own: the root is the only one.
fn root_thing(root: Option<ClassNumber>, field: FieldIndex) -> Option<Thing>
    ensures { result ≡ root_thing root field }
{
    if field.number() == 0 {
        root.map(|class| Thing::Object(class))
    } else {
        None
    }
}

/// What is declared of a field, by the role and the class of a method that works on it.
fn thing_by(
    linked: &Linked,
    role: Role,
    class: Option<ClassNumber>,
    field: FieldIndex,
) -> Option<Thing>
    ensures { result ≡ field_thing linked.now (holder_by (Some role) class) field }
{
    match role {
        Role::Main => root_thing(linked.image().header().root, field),
        _ => match class {
            None => None,
            Some(class) => class_fields(linked, class)
                .get(field.number() as usize)
                .copied(),
        },
    }
}

/// What is declared of a field that the method works on.
pub fn field_thing(linked: &Linked, method: MethodNumber, field: FieldIndex) -> Option<Thing>
    requires { IsSome (method_at linked.now method) }
    ensures { result ≡ field_thing linked.now (holder_of linked.now method) field }
{
    let declared = linked.method(method);
    thing_by(linked, declared.role, declared.class, field)
}

/// How many words an object of a class has.
fn class_words(linked: &Linked, class: ClassNumber) -> u8
    ensures { result ≡ words_of linked.now class }
{
    match linked
        .image()
        .classes()
        .as_slice()
        .get(class.number() as usize)
    {
        None => 0,
        Some(declared) => declared.words,
    }
}

/// How many words a method works on, by its role and its class.
fn words_by(linked: &Linked, role: Role, class: Option<ClassNumber>) -> u8
    ensures { result ≡ word_count linked.now (holder_by (Some role) class) }
{
    match role {
        Role::Main => 0,
        _ => match class {
            None => 0,
            Some(class) => class_words(linked, class),
        },
    }
}

/// How many words the method works on.
#[tactic(auto, using(aom_abstract_state::proofs::AbstractStateLemmas::holder_there))]
pub(crate) fn word_count(linked: &Linked, method: MethodNumber) -> u8
    requires { IsSome (method_at linked.now method) }
    ensures { result ≡ word_count linked.now (holder_of linked.now method) }
{
    let declared = linked.method(method);
    words_by(linked, declared.role, declared.class)
}
