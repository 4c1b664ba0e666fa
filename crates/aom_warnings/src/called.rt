//! Methods that nothing calls.
ghost use Rattle.std.specs.Prelude.{◌≡◌, ◌↔◌, IsTrue};
ghost use Rattle.aom_image.specs.Views.{method_at};
ghost use Rattle.aom_link_conditions.specs.Overriding.{leads_to};
ghost use Rattle.aom_warnings.specs.Called.{CallsNot, IsNeverCalled, is_named_in, is_named_role, may_run, named_method};

use aom_image::{Image, Instr, Method, MethodNumber, Role};
use aom_instructions::Action;
use aom_link_conditions::overridden_method;

/// The method that an instruction calls, traps or pushes.
#[tactic(auto, unfolding(crate::specs::Called::named_method))]
fn named_method(instr: &Instr) -> Option<MethodNumber>
    ensures { result ≡ named_method instr.now }
{
    match &instr.action() {
        Action::Call(_, _, method, _, _) | Action::PushOperation(_, method) => Some(*method),
        _ => None,
    }
}

/// Whether what overrides that one overrides the method, itself or through others.
fn leads_to(image: &Image, over: Option<MethodNumber>, method: MethodNumber) -> bool
    ensures { result ≡ leads_to image.now over method }
{
    let mut left = image.methods().len();
    let mut here = over;
    while let Some(other) = here {
        if other.number() == method.number() {
            return true;
        }
        if left == 0 {
            return false;
        }
        left -= 1;
        here = overridden_method(image, other);
    }
    false
}

/// Whether a call of what is named may run a method.
fn may_run(image: &Image, method: MethodNumber, named: Option<MethodNumber>) -> bool
    ensures { result ≡ may_run image.now method named }
{
    match named {
        Some(called) => {
            method.number() == called.number()
                || leads_to(image, overridden_method(image, method), called)
        }
        None => false,
    }
}

fn calls_not(image: &Image, number: MethodNumber, method: &Method) -> bool
    ensures { IsTrue result ↔ CallsNot image.now number method.now }
{
    let code = method.code.as_slice();
    code.iter()
        .all(|instr| !may_run(image, number, named_method(instr)))
}

fn is_named_role(role: Role) -> bool
    ensures { result ≡ is_named_role role }
{
    matches!(role, Role::Do | Role::Undo)
}

#[tactic(auto, unfolding(crate::specs::Called::is_named_in, aom_image::specs::Views::method_at))]
fn is_named(image: &Image, number: MethodNumber) -> bool
    ensures { result ≡ is_named_in (method_at image.now number) }
{
    let methods = image.methods();
    match methods.as_slice().get(number.number() as usize) {
        Some(method) => is_named_role(method.role),
        None => false,
    }
}

/// Whether nothing calls a method that runs only where an instruction names it.
pub fn is_never_called(image: &Image, number: MethodNumber) -> bool
    ensures { IsTrue result ↔ IsNeverCalled image.now number }
{
    let methods = image.methods();
    is_named(image, number)
        && methods
            .as_slice()
            .iter()
            .all(|method| calls_not(image, number, method))
}
