//! What classes own, and whose sessions they are.
ghost use Rattle.std.specs.Prelude.{◌≡◌, ◌<◌, ◌↔◌, IsTrue, All};
ghost use Rattle.aom_roles.specs.Classes.{sessions_of, is_session_kind, kind_at, is_session_in, is_session, sessions_in, sessions_at, OwnsBefore, SessionsBefore, ParentBefore, ClassOrdered, EachOrdered, RootOrdered, SessionRoot, ClassesOrdered};
ghost use Rattle.aom_roles.specs.Firsts.{FirstOf};

use aom_image::{ClassDecl, ClassKind, ClassNumber, Image, Thing};

#[tactic(auto, unfolding(crate::specs::Classes::sessions_of))]
fn sessions_of(kind: ClassKind) -> Option<ClassNumber>
    ensures { result ≡ sessions_of kind }
{
    match kind {
        ClassKind::Server { session, .. } => Some(session),
        _ => None,
    }
}

#[tactic(auto, unfolding(crate::specs::Classes::is_session_kind))]
fn is_session_kind(kind: ClassKind) -> bool
    ensures { result ≡ is_session_kind kind }
{
    matches!(kind, ClassKind::Session)
}

#[tactic(auto, unfolding(crate::specs::Classes::kind_in, aom_image::specs::Views::class_at))]
pub fn kind_at(image: &Image, class: ClassNumber) -> Option<ClassKind>
    ensures { result ≡ kind_at image.now class }
{
    let classes = image.classes();
    match classes.as_slice().get(class.number() as usize) {
        Some(class) => Some(class.kind),
        None => None,
    }
}

#[tactic(auto, unfolding(crate::specs::Classes::is_session_in))]
pub fn is_session_in(kind: Option<ClassKind>) -> bool
    ensures { result ≡ is_session_in kind }
{
    match kind {
        Some(kind) => is_session_kind(kind),
        None => false,
    }
}

fn is_session(image: &Image, class: ClassNumber) -> bool
    ensures { result ≡ is_session image.now class }
{
    is_session_in(kind_at(image, class))
}

#[tactic(auto, unfolding(crate::specs::Classes::sessions_in))]
pub fn sessions_in(kind: Option<ClassKind>) -> Option<ClassNumber>
    ensures { result ≡ sessions_in kind }
{
    match kind {
        Some(kind) => sessions_of(kind),
        None => None,
    }
}

/// The class of the sessions of a class.
pub fn sessions_at(image: &Image, class: ClassNumber) -> Option<ClassNumber>
    ensures { result ≡ sessions_at image.now class }
{
    sessions_in(kind_at(image, class))
}

fn owns_before(image: &Image, class: usize, thing: Thing) -> bool
    ensures { IsTrue result ↔ OwnsBefore image.now class thing }
{
    match thing {
        Thing::Object(owned) => (owned.number() as usize) < class && !is_session(image, owned),
        Thing::Message => true,
    }
}

fn owns_all_before(image: &Image, class: usize, things: &[Thing]) -> bool
    ensures { IsTrue result ↔ All (OwnsBefore image.now class) things.now }
{
    things.iter().all(|thing| owns_before(image, class, *thing))
}

fn has_sessions_before(image: &Image, class: usize, kind: ClassKind) -> bool
    ensures { IsTrue result ↔ SessionsBefore image.now class kind }
{
    match sessions_of(kind) {
        Some(sessions) => (sessions.number() as usize) < class && is_session(image, sessions),
        None => true,
    }
}

fn has_parent_before(class: usize, decl: &ClassDecl) -> bool
    ensures { IsTrue result ↔ ParentBefore class decl.now }
{
    match decl.parent {
        Some(parent) => (parent.number() as usize) < class,
        None => true,
    }
}

fn is_class_ordered(image: &Image, class: usize, decl: &ClassDecl) -> bool
    ensures { IsTrue result ↔ ClassOrdered image.now class decl.now }
{
    owns_all_before(image, class, decl.fields.as_slice())
        && has_sessions_before(image, class, decl.kind)
        && has_parent_before(class, decl)
}

/// The root, where it is a session.
pub fn session_root(image: &Image) -> Option<ClassNumber>
    ensures { SessionRoot image.now result }
{
    match image.header().root {
        Some(root) if is_session(image, root) => Some(root),
        _ => None,
    }
}

/// The first class that names one that does not come before it.
pub fn first_unordered(image: &Image, classes: &[ClassDecl]) -> Option<usize>
    ensures { FirstOf (ClassOrdered image.now) classes.now result }
{
    for (class, decl) in classes.iter().enumerate() {
        if !is_class_ordered(image, class, decl) {
            return Some(class);
        }
    }
    None
}

fn is_each_ordered(image: &Image, classes: &[ClassDecl]) -> bool
    ensures { IsTrue result ↔ EachOrdered image.now classes.now }
{
    first_unordered(image, classes).is_none()
}

fn is_root_ordered(image: &Image) -> bool
    ensures { IsTrue result ↔ RootOrdered image.now }
{
    session_root(image).is_none()
}

pub fn classes_are_ordered(image: &Image) -> bool
    ensures { IsTrue result ↔ ClassesOrdered image.now }
{
    let classes = image.classes();
    is_each_ordered(image, classes.as_slice()) && is_root_ordered(image)
}
