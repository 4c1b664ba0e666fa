//! What a class has of its parent.
ghost use Rattle.std.specs.Prelude.{◌≡◌, ◌↔◌, IsTrue, Some, slice_get};
ghost use Rattle.aom_link_conditions.specs.Families.{AllContinue, BeginsWith, Continues, ContinuesParent};
ghost use Rattle.aom_roles.specs.Firsts.{FirstOf};

use crate::same::{same_kind, same_thing};
use aom_image::{ClassDecl, Image, Thing};

fn has_field(fields: &[Thing], field: usize, thing: Thing) -> bool
    ensures { IsTrue result ↔ (slice_get fields.now field ≡ Some thing) }
{
    match fields.get(field) {
        Some(own) => same_thing(*own, thing),
        None => false,
    }
}

fn begins_with(fields: &[Thing], first: &[Thing]) -> bool
    ensures { IsTrue result ↔ BeginsWith fields.now first.now }
{
    for (field, thing) in first.iter().enumerate() {
        if !has_field(fields, field, *thing) {
            return false;
        }
    }
    true
}

fn continues(class: &ClassDecl, parent: &ClassDecl) -> bool
    ensures { IsTrue result ↔ Continues class.now parent.now }
{
    same_kind(class.kind, parent.kind)
        && parent.words <= class.words
        && begins_with(class.fields.as_slice(), parent.fields.as_slice())
}

#[tactic(auto, unfolding(aom_image::specs::Views::class_at))]
fn continues_parent(image: &Image, class: &ClassDecl) -> bool
    ensures { IsTrue result ↔ ContinuesParent image.now class.now }
{
    let Some(parent) = class.parent else {
        return true;
    };
    let classes = image.classes();
    match classes.as_slice().get(parent.number() as usize) {
        Some(parent) => continues(class, parent),
        None => true,
    }
}

/// The first class that has not what its parent has.
pub fn first_bad_child(image: &Image, classes: &[ClassDecl]) -> Option<usize>
    ensures { FirstOf (λ _. ContinuesParent image.now) classes.now result }
{
    for (class, decl) in classes.iter().enumerate() {
        if !continues_parent(image, decl) {
            return Some(class);
        }
    }
    None
}

/// Whether each class has what its parent has.
pub fn all_continue(image: &Image) -> bool
    ensures { IsTrue result ↔ AllContinue image.now }
{
    first_bad_child(image, image.classes().as_slice()).is_none()
}
