//! What the methods of an image say, by their numbers.
ghost use Rattle.std.specs.Prelude.{◌≡◌, not, ◌+◌, nat_le, length};
ghost use Rattle.aom_abstract_state.specs.Arguments.{after_of, before_of};
ghost use Rattle.aom_image.specs.Views.{arguments_of, gives_of, has, method_class, method_role};
ghost use Rattle.aom_image.specs.declared.method.Thing.TheVariants.{Object};
ghost use Rattle.aom_needs.specs.Sentences.{called_in};
ghost use Rattle.aom_roles.specs.Roles.{is_construct};
ghost use Rattle.aom_roles.specs.Tables.{is_among};
ghost use Rattle.aom_roles.specs.Things.{holder_by, holder_of, word_count, words_of};
ghost use Rattle.aom_typing_rules.specs.Beginning.{begins_here, begins_there, may_begin, resting};
ghost use Rattle.aom_typing_rules.specs.Calls.{awaits, is_destructor, stands_here};

use crate::owners::is_own_for;
use aom_abstract_state::{InitState, Kind, only_if};
use aom_image::{
    Argument, ClassNumber, Gives, MethodNumber, Register, Role, States, Target, Thing,
};
use aom_linker::Linked;
use aom_roles::{gives_of, resting_states};
use bitflags::Flags;

#[tactic(auto, unfolding(aom_image::specs::Views::method_at, aom_image::specs::Views::class_in))]
pub(crate) fn class_of(linked: &Linked, method: MethodNumber) -> Option<ClassNumber>
    ensures { result ≡ method_class linked.now method }
{
    let methods = linked.image().methods();
    match methods.as_slice().get(method.number() as usize) {
        Some(declared) => declared.class,
        None => None,
    }
}

#[tactic(auto, unfolding(aom_image::specs::Views::method_at, aom_image::specs::Views::role_in))]
fn role_of(linked: &Linked, method: MethodNumber) -> Option<Role>
    ensures { result ≡ method_role linked.now method }
{
    let methods = linked.image().methods();
    match methods.as_slice().get(method.number() as usize) {
        Some(declared) => Some(declared.role),
        None => None,
    }
}

#[tactic(auto, unfolding(aom_image::specs::Views::method_at, aom_image::specs::Views::arguments_in))]
pub(crate) fn arguments_of(linked: &Linked, method: MethodNumber) -> &[Argument]
    ensures { result.now ≡ arguments_of linked.now method }
{
    let methods = linked.image().methods();
    match methods.as_slice().get(method.number() as usize) {
        Some(declared) => declared.arguments.as_slice(),
        None => &[],
    }
}

/// The states in which a method begins.
#[tactic(auto, unfolding(aom_image::specs::Views::method_at, aom_abstract_state::specs::Arguments::before_in))]
pub(crate) fn before_of(linked: &Linked, method: MethodNumber) -> States
    ensures { result.0 ≡ before_of linked.now method }
{
    let methods = linked.image().methods();
    match methods.as_slice().get(method.number() as usize) {
        Some(declared) => declared.before,
        None => States::NONE,
    }
}

/// The states in which a method ends.
#[tactic(auto, unfolding(aom_image::specs::Views::method_at, aom_abstract_state::specs::Arguments::after_in))]
pub(crate) fn after_of(linked: &Linked, method: MethodNumber) -> States
    ensures { result.0 ≡ after_of linked.now method }
{
    let methods = linked.image().methods();
    match methods.as_slice().get(method.number() as usize) {
        Some(declared) => declared.after,
        None => States::NONE,
    }
}

fn is_construct(linked: &Linked, method: MethodNumber) -> bool
    ensures { result ≡ is_construct (method_role linked.now method) }
{
    match role_of(linked, method) {
        Some(role) => matches!(role, Role::Construct),
        None => false,
    }
}

pub(crate) fn is_destructor(linked: &Linked, method: MethodNumber) -> bool
    ensures { result ≡ is_destructor linked.now method }
{
    match role_of(linked, method) {
        Some(role) => matches!(role, Role::Destruct),
        None => false,
    }
}

/// The states in which an object that the method works on may be while nothing does.
fn resting(linked: &Linked, method: MethodNumber) -> States
    ensures { result.0 ≡ resting linked.now (method_class linked.now method) }
{
    resting_states(linked.image(), class_of(linked, method))
}

/// The method begins in each state in which the caller's object may be, unless it is static.
fn begins_here(linked: &Linked, method: MethodNumber, states: States) -> bool
    ensures { result ≡ begins_here linked.now method (method_class linked.now method) states.0 }
{
    match class_of(linked, method) {
        None => true,
        Some(_) => before_of(linked, method).contains(states),
    }
}

/// The method begins in each state in which another object may be, unless it constructs that.
fn begins_there(linked: &Linked, method: MethodNumber) -> bool
    ensures { result ≡ begins_there linked.now method }
{
    let begins = before_of(linked, method).contains(resting(linked, method));
    only_if(!is_construct(linked, method), begins)
}

/// The method may be called on that target, where the caller's object may be in those states.
pub(crate) fn may_begin(
    linked: &Linked,
    method: MethodNumber,
    target: Target,
    states: States,
) -> bool
    ensures { result ≡ may_begin linked.now method target states.0 }
{
    match target {
        Target::This => begins_here(linked, method, states),
        Target::Register(_) => begins_there(linked, method),
        Target::Field(_) => begins_there(linked, method),
        Target::Entry(_) => begins_there(linked, method),
    }
}

/// The states in which the object may be that the method is called on.
pub(crate) fn called_in(
    linked: &Linked,
    method: MethodNumber,
    target: Target,
    states: States,
) -> States
    ensures { result.0 ≡ called_in linked.now method target states.0 }
{
    match target {
        Target::This => states,
        Target::Register(_) => resting(linked, method),
        Target::Field(_) => resting(linked, method),
        Target::Entry(_) => resting(linked, method),
    }
}

/// A method of the first class may call one of the second class on its own object, and any method a static one.
fn is_above(linked: &Linked, here: Option<ClassNumber>, class: Option<ClassNumber>) -> bool
    ensures { result ≡ stands_here linked.now here class }
{
    match class {
        None => true,
        Some(class) => match here {
            None => false,
            Some(here) => is_own_for(
                linked,
                Thing::Object(class),
                Kind::Own(Thing::Object(here), InitState::Ready),
            ),
        },
    }
}

/// The first method may call the other on its own object.
pub(crate) fn stands_here(linked: &Linked, method: MethodNumber, callee: MethodNumber) -> bool
    ensures { result ≡ stands_here linked.now (method_class linked.now method) (method_class linked.now callee) }
{
    is_above(linked, class_of(linked, method), class_of(linked, callee))
}

/// The register is one of the arguments, from the first on.
pub(crate) fn is_argument(
    linked: &Linked,
    method: MethodNumber,
    first: Register,
    register: Register,
) -> bool
    ensures { result ≡ is_among first (length (arguments_of linked.now method)) register }
{
    let first = first.number() as usize;
    let number = register.number() as usize;
    first <= number && number - first < arguments_of(linked, method).len()
}

/// The arguments are within the registers, from the first on.
pub(crate) fn are_within(linked: &Linked, method: MethodNumber, first: Register) -> bool
    ensures { result ≡ nat_le (first + length (arguments_of linked.now method)) 16 }
{
    arguments_of(linked, method).len() <= 16 - first.number() as usize
}

fn may_take(gives: Gives, kind: Kind) -> bool
    ensures { result ≡ awaits gives kind }
{
    match gives {
        Gives::Nothing | Gives::Left(_) => true,
        Gives::Word | Gives::Own(_) | Gives::Maybe(_) => kind.is_unowning(),
    }
}

/// What holds that may take what the method gives.
pub(crate) fn awaits(linked: &Linked, method: MethodNumber, kind: Kind) -> bool
    ensures { result ≡ awaits (gives_of linked.now method) kind }
{
    may_take(gives_of(linked.image(), method), kind)
}

#[tactic(auto, unfolding(aom_roles::specs::Things::words_in, aom_image::specs::Views::class_at))]
fn words_of(linked: &Linked, class: ClassNumber) -> u8
    ensures { result ≡ words_of linked.now class }
{
    let classes = linked.image().classes();
    match classes.as_slice().get(class.number() as usize) {
        Some(declared) => declared.words,
        None => 0,
    }
}

fn words_by(linked: &Linked, role: Option<Role>, class: Option<ClassNumber>) -> u8
    ensures { result ≡ word_count linked.now (holder_by role class) }
{
    match role {
        Some(Role::Main) => 0,
        _ => match class {
            None => 0,
            Some(class) => words_of(linked, class),
        },
    }
}

/// How many words the method works on.
pub(crate) fn word_count(linked: &Linked, method: MethodNumber) -> u8
    ensures { result ≡ word_count linked.now (holder_of linked.now method) }
{
    words_by(linked, role_of(linked, method), class_of(linked, method))
}
