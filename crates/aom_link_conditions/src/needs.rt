//! Which methods a class needs, and which it may have once.
ghost use Rattle.std.specs.Prelude.{◌≡◌, ◌≤◌, ◌<◌, ◌↔◌, IsTrue, length, count_by};
ghost use Rattle.aom_link_conditions.specs.Roles.{fills_role, is_main};
ghost use Rattle.aom_link_conditions.specs.Needs.{Has, HasActive, IsKept, KindNeeds, EmptiesMore, NeedsMet, AllNeedsMet, AtMostOne, ClassSingle, EachSingle, SecondMain, RolesSingle};
ghost use Rattle.aom_roles.specs.Firsts.{FirstOf};

use crate::kept::{Kept, is_kept};
use crate::roles::{fills_role, find_role, is_main, own_role};
use aom_image::{ClassDecl, ClassKind, ClassNumber, Image, Method, Role};

/// The number of the class at an index.
pub fn class_number(index: usize) -> ClassNumber
    requires { index < 256 }
    ensures { result ≡ index }
{
    ClassNumber::new(index as u16).unwrap()
}

fn has_role(image: &Image, class: ClassNumber, role: Role) -> bool
    ensures { IsTrue result ↔ Has image.now class role }
{
    find_role(image, class, role).is_some()
}

/// Whether a class that owns more than its parent has a destructor of its own.
#[tactic(auto, unfolding(aom_image::specs::Views::class_at))]
fn empties_more(image: &Image, class: ClassNumber, decl: &ClassDecl) -> bool
    ensures { IsTrue result ↔ EmptiesMore image.now class decl.now }
{
    let Some(parent) = decl.parent else {
        return true;
    };
    let classes = image.classes();
    match classes.as_slice().get(parent.number() as usize) {
        Some(parent) => {
            decl.fields.len() <= parent.fields.len()
                || own_role(image, class, Role::Destruct).is_some()
        }
        None => true,
    }
}

fn has_active(image: &Image, kept: &Kept, class: ClassNumber) -> bool
    requires { IsKept image.now kept.now }
    ensures { IsTrue result ↔ HasActive image.now class }
{
    is_kept(&kept.runs, class) && is_kept(&kept.cancels, class) && is_kept(&kept.destructs, class)
}

fn meets_kind(image: &Image, kept: &Kept, class: ClassNumber, kind: ClassKind) -> bool
    requires { IsKept image.now kept.now }
    ensures { IsTrue result ↔ KindNeeds image.now class kind }
{
    match kind {
        ClassKind::Plain => true,
        ClassKind::Active { .. } => has_active(image, kept, class),
        ClassKind::Server { .. } => has_role(image, class, Role::Accept),
        ClassKind::Session => has_role(image, class, Role::Service),
    }
}

fn meets_needs(image: &Image, kept: &Kept, class: ClassNumber, decl: &ClassDecl) -> bool
    requires { IsKept image.now kept.now }
    ensures { IsTrue result ↔ NeedsMet image.now class decl.now }
{
    meets_kind(image, kept, class, decl.kind)
        && (decl.fields.is_empty() || is_kept(&kept.destructs, class))
        && empties_more(image, class, decl)
}

/// The first class that wants a method that it needs.
pub fn first_missing_role(image: &Image, classes: &[ClassDecl]) -> Option<usize>
    requires { length classes.now ≤ 256 }
    ensures { FirstOf (NeedsMet image.now) classes.now result }
{
    let kept = Kept::of_image(image);
    for (class, decl) in classes.iter().enumerate() {
        if !meets_needs(image, &kept, class_number(class), decl) {
            return Some(class);
        }
    }
    None
}

/// Whether each class has the methods that it needs.
pub fn needs_are_met(image: &Image) -> bool
    ensures { IsTrue result ↔ AllNeedsMet image.now }
{
    first_missing_role(image, image.classes().as_slice()).is_none()
}

fn at_most_one(methods: &[Method], class: ClassNumber, role: Role) -> bool
    ensures { IsTrue result ↔ AtMostOne methods.now class role }
{
    let mut count: usize = 0;
    for method in methods {
        if fills_role(class, role, method) {
            count += 1;
        }
    }
    count <= 1
}

fn is_single(methods: &[Method], class: ClassNumber) -> bool
    ensures { IsTrue result ↔ ClassSingle methods.now class }
{
    at_most_one(methods, class, Role::Construct)
        && at_most_one(methods, class, Role::Destruct)
        && at_most_one(methods, class, Role::Run)
        && at_most_one(methods, class, Role::Cancel)
        && at_most_one(methods, class, Role::Error)
        && at_most_one(methods, class, Role::Accept)
        && at_most_one(methods, class, Role::Service)
}

/// The first class with two methods of one role that it may have once.
pub fn first_double(methods: &[Method], classes: &[ClassDecl]) -> Option<usize>
    requires { length classes.now ≤ 256 }
    ensures { FirstOf (λ c _. ClassSingle methods.now c) classes.now result }
{
    for (class, _decl) in classes.iter().enumerate() {
        if !is_single(methods, class_number(class)) {
            return Some(class);
        }
    }
    None
}

fn is_each_single(methods: &[Method], classes: &[ClassDecl]) -> bool
    requires { length classes.now ≤ 256 }
    ensures { IsTrue result ↔ EachSingle methods.now classes.now }
{
    first_double(methods, classes).is_none()
}

/// The second main.
pub fn second_main(methods: &[Method]) -> Option<usize>
    ensures { SecondMain methods.now result }
{
    let mut mains: usize = 0;
    for (number, method) in methods.iter().enumerate() {
        if is_main(method) {
            if mains == 1 {
                return Some(number);
            }
            mains += 1;
        }
    }
    None
}

fn has_one_main(methods: &[Method]) -> bool
    ensures { IsTrue result ↔ (count_by is_main methods.now ≤ 1) }
{
    second_main(methods).is_none()
}

/// Whether no class has two methods of one role that it may have once, and there are no two mains.
pub fn roles_are_single(image: &Image) -> bool
    ensures { IsTrue result ↔ RolesSingle image.now }
{
    let methods = image.methods().as_slice();
    is_each_single(methods, image.classes().as_slice()) && has_one_main(methods)
}
