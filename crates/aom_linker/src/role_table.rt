//! The table of roles.
ghost use Rattle.std.specs.Prelude.{ℕ, ◌≡◌, IfOk, IfSome, length, slice_get};
ghost use Rattle.aom_image.specs.Image.{Image as ImageRecord};
ghost use Rattle.aom_roles.specs.Families.{parent_of};
ghost use Rattle.aom_link_conditions.specs.Roles.{role_of};
ghost use Rattle.aom_linker.specs.Table.{IsRow, IsTable, role_from};

use crate::numbers::class_number;
use aom_image::{ClassNumber, Image, MethodNumber, Role};
use aom_link_conditions::{is_inherited, own_role};
use aom_roles::parent_of;
use std::alloc::{AllocError, Global};

/// The method of each role of a class.
type Row = [Option<MethodNumber>; 10];

/// For each class the method of each role, its own or one that it has from above.
#[derive(Drop)]
pub struct RoleTable {
    pub rows: Vec<Row>,
}

/// The method of a role that the parent of a class has.
fn role_above(
    image: &Image,
    rows: &Vec<Row>,
    class: ClassNumber,
    role: Role,
) -> Option<MethodNumber>
    requires class { class ≡ length rows.now.items }
    requires sofar { (c : ℕ) → IfSome (slice_get rows.now.items c) (IsRow image.now c) }
    ensures { result ≡ role_from image.now role (parent_of image.now class) }
{
    match parent_of(image, class) {
        Some(parent) => rows[parent.number() as usize][role.number() as usize],
        None => None,
    }
}

/// The method of a role of a class: its own, or of a role that classes have from their parents, that of its parent.
fn role_in(image: &Image, rows: &Vec<Row>, class: ClassNumber, role: Role) -> Option<MethodNumber>
    requires class { class ≡ length rows.now.items }
    requires sofar { (c : ℕ) → IfSome (slice_get rows.now.items c) (IsRow image.now c) }
    ensures { result ≡ role_of image.now class role }
{
    let own = own_role(image, class, role);
    if own.is_some() || !is_inherited(role) {
        return own;
    }
    role_above(image, rows, class, role)
}

#[tactic(auto, unfolding(aom_image::specs::Roles::role_number))]
fn row_of(image: &Image, rows: &Vec<Row>, class: ClassNumber) -> Row
    requires class { class ≡ length rows.now.items }
    requires sofar { (c : ℕ) → IfSome (slice_get rows.now.items c) (IsRow image.now c) }
    ensures { IsRow image.now class result }
{
    [
        role_in(image, rows, class, Role::Do),
        role_in(image, rows, class, Role::Main),
        role_in(image, rows, class, Role::Construct),
        role_in(image, rows, class, Role::Destruct),
        role_in(image, rows, class, Role::Run),
        role_in(image, rows, class, Role::Cancel),
        role_in(image, rows, class, Role::Error),
        role_in(image, rows, class, Role::Accept),
        role_in(image, rows, class, Role::Service),
        role_in(image, rows, class, Role::Undo),
    ]
}

impl RoleTable {
    /// The table of an image.
    pub fn of_image(alloc: Global, image: &Image) -> Result<RoleTable, AllocError>
        ensures { IfOk result (λ t. IsTable image.now t.rows.items) }
    {
        let count = image.classes().len();
        let mut rows = Vec::with_capacity(alloc, count)?;
        for class in 0..count {
            rows.push(row_of(image, &rows, class_number(class)))?;
        }
        Ok(RoleTable { rows })
    }

    /// The method of that class with that role.
    pub fn role(&self, class: ClassNumber, role: Role) -> Option<MethodNumber>
        ensures { (p : ImageRecord) → IsTable p self.now.rows.items → result ≡ role_of p class role }
    {
        match self.rows.get(class.number() as usize) {
            Some(row) => row[role.number() as usize],
            None => None,
        }
    }
}
