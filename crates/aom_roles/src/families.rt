//! Classes that descend from others.
ghost use Rattle.std.specs.Prelude.{◌≡◌};
ghost use Rattle.aom_image.specs.Image.{Image as ImageRecord};
ghost use Rattle.aom_roles.specs.Families.{descends, lower, parent_in, parent_of};

use aom_image::{ClassDecl, ClassNumber, Image};

/// A lower class, or none.
fn lower(class: ClassNumber, parent: Option<ClassNumber>) -> Option<ClassNumber>
    ensures { result ≡ lower class parent }
{
    match parent {
        Some(parent) if parent.number() < class.number() => Some(parent),
        _ => None,
    }
}

/// The parent of a class.
#[tactic(auto, unfolding(crate::specs::Families::parent_in, aom_image::specs::Views::class_at))]
pub fn parent_of(image: &Image, class: ClassNumber) -> Option<ClassNumber>
    ensures { result ≡ parent_of image.now class }
{
    let classes = image.classes();
    match classes.as_slice().get(class.number() as usize) {
        Some(decl) => lower(class, decl.parent),
        None => None,
    }
}

/// Whether a class is that one, or descends from it.
pub fn descends(image: &Image, class: ClassNumber, ancestor: ClassNumber) -> bool
    ensures { result ≡ descends image.now class ancestor }
{
    let mut here = class;
    while here.number() != ancestor.number() {
        let Some(parent) = parent_of(image, here) else {
            return false;
        };
        here = parent;
    }
    true
}
