//! Which method has a role.
ghost use Rattle.std.specs.Prelude.{◌≡◌, ◌<◌, ◌≤◌, length, position};
ghost use Rattle.aom_link_conditions.specs.Roles.{same_role, is_inherited, is_main, keeper_of, own_role, fills_role, is_class, role_by, role_of};

use aom_image::{ClassNumber, Image, Method, MethodNumber, Role};
use aom_roles::{parent_of, same_role};

pub fn is_main(method: &Method) -> bool
    ensures { result ≡ is_main method.now }
{
    same_role(method.role, Role::Main)
}

pub fn is_class(class: ClassNumber, of: Option<ClassNumber>) -> bool
    ensures { result ≡ is_class class of }
{
    match of {
        Some(of) => of.number() == class.number(),
        None => false,
    }
}

#[tactic(auto, unfolding(crate::specs::Roles::fills_role))]
pub fn fills_role(class: ClassNumber, role: Role, method: &Method) -> bool
    ensures { result ≡ fills_role class role method.now }
{
    is_class(class, method.class) && same_role(method.role, role)
}

/// The number of the method at an index.
pub fn number_at(index: usize) -> MethodNumber
    requires { index < 1024 }
    ensures { result ≡ index }
{
    MethodNumber::new(index as u16).unwrap()
}

fn main_index(methods: &[Method]) -> Option<usize>
    ensures { result ≡ position is_main methods.now }
{
    methods.iter().position(|method| is_main(method))
}

/// The first main.
pub fn find_main(methods: &[Method]) -> Option<MethodNumber>
    requires { length methods.now ≤ 1024 }
    ensures { result ≡ position is_main methods.now }
{
    match main_index(methods) {
        Some(index) => Some(number_at(index)),
        None => None,
    }
}

fn role_index(methods: &[Method], class: ClassNumber, role: Role) -> Option<usize>
    ensures { result ≡ position (fills_role class role) methods.now }
{
    methods
        .iter()
        .position(|method| fills_role(class, role, method))
}

/// The first method of that class itself with that role.
#[tactic(auto, unfolding(crate::specs::Roles::own_role))]
pub fn own_role(image: &Image, class: ClassNumber, role: Role) -> Option<MethodNumber>
    ensures { result ≡ own_role image.now class role }
{
    let methods = image.methods();
    match role_index(methods.as_slice(), class, role) {
        Some(index) => Some(number_at(index)),
        None => None,
    }
}

/// The first method with that role, of the class itself or of the nearest class above that has one.
fn kept_role(image: &Image, class: ClassNumber, role: Role) -> Option<MethodNumber>
    ensures { result ≡ role_by image.now role (keeper_of image.now class role) }
{
    let mut here = class;
    let mut found = own_role(image, here, role);
    while found.is_none() {
        let Some(parent) = parent_of(image, here) else {
            return None;
        };
        here = parent;
        found = own_role(image, here, role);
    }
    found
}

/// Whether a class without a method of that role has its parent's.
pub fn is_inherited(role: Role) -> bool
    ensures { result ≡ is_inherited role }
{
    match role {
        Role::Construct | Role::Destruct | Role::Run | Role::Cancel | Role::Error => true,
        Role::Do | Role::Main | Role::Accept | Role::Service | Role::Undo => false,
    }
}

/// The first method with that role, of the class itself or of the nearest that it has the role from.
#[tactic(auto, unfolding(crate::specs::Roles::role_of))]
pub fn find_role(image: &Image, class: ClassNumber, role: Role) -> Option<MethodNumber>
    ensures { result ≡ role_of image.now class role }
{
    if is_inherited(role) {
        kept_role(image, class, role)
    } else {
        own_role(image, class, role)
    }
}
