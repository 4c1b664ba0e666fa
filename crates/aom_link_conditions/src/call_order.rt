//! What a method may run, and which destructors may come of what it mentions.
ghost use Rattle.std.specs.Prelude.{◌≡◌, ◌<◌, ◌↔◌, IsTrue, IfSome, All};
ghost use Rattle.aom_image.specs.Views.{fields_of};
ghost use Rattle.aom_link_conditions.specs.Orders.{IsOrders};
ghost use Rattle.aom_link_conditions.specs.Calls.{MentionsThing, MentionsArgument, MentionsResult, CallsBelow, MayCancel, RunsBelow, MentionsFields, MentionsRoot, CallsOrdered, AllCallsOrdered};
ghost use Rattle.aom_link_conditions.specs.Places.{PlaceOf};
ghost use Rattle.aom_roles.specs.Firsts.{FirstOf};
ghost use Rattle.aom_link_conditions.specs.declared.fault.LinkFault.TheVariants as LinkFault;

use crate::orders::Orders;
use crate::place::LinkPlace;
use crate::roles::is_main;
use aom_image::{Argument, ClassNumber, Gives, Image, Instr, Method, MethodNumber, Thing};
use aom_instructions::Action;
use aom_roles::gives_of;

fn may_mention_thing(image: &Image, orders: &Orders, method: usize, thing: Thing) -> bool
    requires { IsOrders image.now orders.now }
    ensures { IsTrue result ↔ MentionsThing image.now method thing }
{
    match thing {
        Thing::Object(class) => orders.may_mention(method, class),
        Thing::Message => true,
    }
}

fn may_take(image: &Image, orders: &Orders, method: usize, argument: Argument) -> bool
    requires { IsOrders image.now orders.now }
    ensures { IsTrue result ↔ MentionsArgument image.now method argument }
{
    match argument {
        Argument::Word => true,
        Argument::Own(thing) => may_mention_thing(image, orders, method, thing),
    }
}

fn may_give(image: &Image, orders: &Orders, method: usize, gives: Gives) -> bool
    requires { IsOrders image.now orders.now }
    ensures { IsTrue result ↔ MentionsResult image.now method gives }
{
    match gives {
        Gives::Nothing | Gives::Word => true,
        Gives::Own(thing) | Gives::Maybe(thing) => may_mention_thing(image, orders, method, thing),
        Gives::Left(class) => may_mention_thing(image, orders, method, Thing::Object(class)),
    }
}

fn may_call(image: &Image, orders: &Orders, method: usize, called: MethodNumber) -> bool
    requires { IsOrders image.now orders.now }
    ensures { IsTrue result ↔ CallsBelow image.now method called }
{
    (called.number() as usize) < method
        && orders.may_call(method, called)
        && may_give(image, orders, method, gives_of(image, called))
}

fn may_cancel(image: &Image, orders: &Orders, method: usize, own: Option<ClassNumber>) -> bool
    requires { IsOrders image.now orders.now }
    ensures { IsTrue result ↔ IfSome own (MayCancel image.now method) }
{
    match own {
        Some(class) => orders.may_cancel(method, class),
        None => true,
    }
}

fn may_run(
    image: &Image,
    orders: &Orders,
    method: usize,
    own: Option<ClassNumber>,
    instr: &Instr,
) -> bool
    requires { IsOrders image.now orders.now }
    ensures { IsTrue result ↔ RunsBelow image.now method own instr.now }
{
    match &instr.action() {
        Action::Make(class) => may_mention_thing(image, orders, method, Thing::Object(*class)),
        Action::Call(_, _, called, _, _) => may_call(image, orders, method, *called),
        Action::PushOperation(_, called) => (called.number() as usize) < method,
        Action::Cancel => may_cancel(image, orders, method, own),
        _ => true,
    }
}

fn may_own(image: &Image, orders: &Orders, method: usize, things: &[Thing]) -> bool
    requires { IsOrders image.now orders.now }
    ensures { IsTrue result ↔ All (MentionsThing image.now method) things.now }
{
    for thing in things {
        if !may_mention_thing(image, orders, method, *thing) {
            return false;
        }
    }
    true
}

#[tactic(auto, unfolding(aom_image::specs::Views::fields_in, aom_image::specs::Views::class_at))]
fn fields_of(image: &Image, class: ClassNumber) -> &[Thing]
    ensures { result.now ≡ fields_of image.now class }
{
    let classes = image.classes();
    match classes.as_slice().get(class.number() as usize) {
        Some(class) => class.fields.as_slice(),
        None => &[],
    }
}

fn may_own_fields(image: &Image, orders: &Orders, method: usize, own: Option<ClassNumber>) -> bool
    requires { IsOrders image.now orders.now }
    ensures { IsTrue result ↔ MentionsFields image.now method own }
{
    match own {
        Some(class) => may_own(image, orders, method, fields_of(image, class)),
        None => true,
    }
}

fn may_own_root(image: &Image, orders: &Orders, method: usize) -> bool
    requires { IsOrders image.now orders.now }
    ensures { IsTrue result ↔ MentionsRoot image.now method }
{
    match image.header().root {
        Some(root) => may_mention_thing(image, orders, method, Thing::Object(root)),
        None => true,
    }
}

fn may_take_each(image: &Image, orders: &Orders, method: usize, arguments: &[Argument]) -> bool
    requires { IsOrders image.now orders.now }
    ensures { IsTrue result ↔ All (MentionsArgument image.now method) arguments.now }
{
    for argument in arguments {
        if !may_take(image, orders, method, *argument) {
            return false;
        }
    }
    true
}

/// The first instruction that runs or mentions what does not come before its method.
fn first_early(image: &Image, orders: &Orders, number: usize, method: &Method) -> Option<usize>
    requires { IsOrders image.now orders.now }
    ensures { FirstOf (λ _. RunsBelow image.now number method.now.class) method.now.code result }
{
    let code = method.code.as_slice();
    for (place, instr) in code.iter().enumerate() {
        if !may_run(image, orders, number, method.class, instr) {
            return Some(place);
        }
    }
    None
}

fn may_run_each(image: &Image, orders: &Orders, number: usize, method: &Method) -> bool
    requires { IsOrders image.now orders.now }
    ensures { IsTrue result ↔ All (RunsBelow image.now number method.now.class) method.now.code }
{
    first_early(image, orders, number, method).is_none()
}

fn is_call_ordered(image: &Image, orders: &Orders, number: usize, method: &Method) -> bool
    requires { IsOrders image.now orders.now }
    ensures { IsTrue result ↔ CallsOrdered image.now number method.now }
{
    may_take_each(image, orders, number, method.arguments.as_slice())
        && may_give(image, orders, number, method.gives)
        && may_own_fields(image, orders, number, method.class)
        && (!is_main(method) || may_own_root(image, orders, number))
        && may_run_each(image, orders, number, method)
}

/// The first method that runs or mentions what does not come before it.
fn first_unordered(image: &Image, orders: &Orders, methods: &[Method]) -> Option<usize>
    requires { IsOrders image.now orders.now }
    ensures { FirstOf (CallsOrdered image.now) methods.now result }
{
    for (number, method) in methods.iter().enumerate() {
        if !is_call_ordered(image, orders, number, method) {
            return Some(number);
        }
    }
    None
}

pub fn calls_are_ordered(image: &Image) -> bool
    ensures { IsTrue result ↔ AllCallsOrdered image.now }
{
    let orders = Orders::of_image(image);
    first_unordered(image, &orders, image.methods().as_slice()).is_none()
}

/// Where calls are out of order.
pub fn call_place(image: &Image) -> Option<LinkPlace>
    ensures { PlaceOf image.now LinkFault.CallOrder result }
{
    let orders = Orders::of_image(image);
    let methods = image.methods().as_slice();
    match first_unordered(image, &orders, methods) {
        Some(number) => {
            let place = first_early(image, &orders, number, &methods[number]);
            Some(LinkPlace::in_method(number, place))
        }
        None => None,
    }
}
