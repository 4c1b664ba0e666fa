//! Which classes have the methods that active classes and owners need, their own or from above.
ghost use Rattle.std.specs.Prelude.{ℕ, ◌≡◌, ◌↔◌, IfSome, IsTrue, length, slice_get};
ghost use Rattle.aom_image.specs.Image.{Image as ImageRecord};
ghost use Rattle.aom_image.specs.declared.method.Role.{Role as RoleName};
ghost use Rattle.aom_link_conditions.specs.Needs.{AreKept, Has, IsKept};
ghost use Rattle.aom_link_conditions.specs.Roles.{is_inherited};

use crate::needs::class_number;
use crate::roles::own_role;
use aom_image::{ClassNumber, Image, Role};
use aom_roles::parent_of;
use arrayvec::ArrayVec;

/// For each class whether it has a method of one role.
type Having = ArrayVec<bool, 256>;

/// Which classes have these methods, made once for all that ask.
#[derive(Drop)]
pub struct Kept {
    pub runs: Having,
    pub cancels: Having,
    pub destructs: Having,
}

/// Whether a class has a method of a role itself, or its parent has one, which comes before it in the table.
fn keeps(image: &Image, flags: &[bool], class: ClassNumber, role: Role) -> bool
    requires role { IsTrue (is_inherited role) }
    requires class { class ≡ length flags.now }
    requires sofar { (c : ℕ) → IfSome (slice_get flags.now c) (λ b. IsTrue b ↔ Has image.now c role) }
    ensures { IsTrue result ↔ Has image.now class role }
{
    if own_role(image, class, role).is_some() {
        return true;
    }
    match parent_of(image, class) {
        Some(parent) => flags[parent.number() as usize],
        None => false,
    }
}

fn keeping(image: &Image, role: Role) -> Having
    requires { IsTrue (is_inherited role) }
    ensures { AreKept image.now role result.items }
{
    let mut flags = Having::new();
    for class in 0..256 {
        flags.push(keeps(image, flags.as_slice(), class_number(class), role));
    }
    flags
}

/// Whether a class has a method of the role that a table tells of.
pub fn is_kept(flags: &Having, class: ClassNumber) -> bool
    requires { length flags.now.items ≡ 256 }
    ensures { (p : ImageRecord) (r : RoleName) → AreKept p r flags.now.items → IsTrue result ↔ Has p class r }
{
    flags[class.number() as usize]
}

impl Kept {
    /// The tables of an image.
    pub fn of_image(image: &Image) -> Kept
        ensures { IsKept image.now result }
    {
        Kept {
            runs: keeping(image, Role::Run),
            cancels: keeping(image, Role::Cancel),
            destructs: keeping(image, Role::Destruct),
        }
    }
}
