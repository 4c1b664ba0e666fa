//! Classes of which no object is made.
ghost use Rattle.std.specs.Prelude.{◌≡◌, ◌<◌, ◌↔◌, IsTrue, IfSome, Some, false, length};
ghost use Rattle.aom_roles.specs.Families.{descends};
ghost use Rattle.aom_roles.specs.Classes.{sessions_at};
ghost use Rattle.aom_warnings.specs.Made.{IsNeverMade, IsUnmade, MakesNot, ServesNot, makes};

use crate::numbers::class_number;
use aom_image::{ClassNumber, Image, Instr, Method};
use aom_instructions::Action;
use aom_roles::{descends, sessions_at};

/// Whether an instruction makes an object of a class or of one below it.
#[tactic(auto, unfolding(crate::specs::Made::makes))]
fn makes(image: &Image, class: ClassNumber, instr: &Instr) -> bool
    ensures { result ≡ makes image.now class instr.now }
{
    match &instr.action() {
        Action::Make(made) => descends(image, *made, class),
        _ => false,
    }
}

fn makes_not(image: &Image, class: ClassNumber, method: &Method) -> bool
    ensures { IsTrue result ↔ MakesNot image.now class method.now }
{
    let code = method.code.as_slice();
    code.iter().all(|instr| !makes(image, class, instr))
}

/// Whether the root is no object of a class or of one below it.
fn is_unrooted(image: &Image, class: ClassNumber) -> bool
    ensures { IsTrue result ↔ IfSome image.now.header.root (λ r. descends image.now r class ≡ false) }
{
    match image.header().root {
        Some(root) => !descends(image, root, class),
        None => true,
    }
}

fn is_unmade(image: &Image, class: ClassNumber) -> bool
    ensures { IsTrue result ↔ IsUnmade image.now class }
{
    let methods = image.methods();
    is_unrooted(image, class)
        && methods
            .as_slice()
            .iter()
            .all(|method| makes_not(image, class, method))
}

/// Whether there are objects of a class whose sessions are of that one.
fn serves(image: &Image, server: ClassNumber, class: ClassNumber) -> bool
    ensures { IsTrue result ↔ ¬ (sessions_at image.now server ≡ Some class → IsUnmade image.now server) }
{
    match sessions_at(image, server) {
        Some(session) => session.number() == class.number() && !is_unmade(image, server),
        None => false,
    }
}

/// Whether no class whose sessions are of that one has objects.
fn serves_not(image: &Image, class: ClassNumber) -> bool
    ensures { IsTrue result ↔ ServesNot image.now class }
{
    for number in 0..image.classes().len() {
        if serves(image, class_number(number), class) {
            return false;
        }
    }
    true
}

/// Whether no object of a class is made.
pub fn is_never_made(image: &Image, class: ClassNumber) -> bool
    requires { class < length image.now.classes }
    ensures { IsTrue result ↔ IsNeverMade image.now class }
{
    is_unmade(image, class) && serves_not(image, class)
}
