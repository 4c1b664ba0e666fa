//! The table of bodies.
ghost use Rattle.std.specs.Prelude.{ℕ, ◌≡◌, ◌↔◌, IfOk, IfSome, IsSome, IsTrue, Some, false, length, slice_get};
ghost use Rattle.aom_image.specs.Image.{Image as ImageRecord};
ghost use Rattle.aom_image.specs.Views.{method_at};
ghost use Rattle.aom_link_conditions.specs.Overriding.{body_of};
ghost use Rattle.aom_linker.specs.Bodies.{AreBodies, IsRowOf, OverridesNothingIn, body_above, overrides_in};

use crate::numbers::class_number;
use crate::row::{BodyRow, body_in};
use aom_image::{ClassNumber, Image, Method, MethodNumber};
use aom_link_conditions::is_class;
use aom_roles::parent_of;
use std::alloc::{AllocError, Global};

/// For each class that has an overrider, itself or from above, what a call of each method runs on its objects.
#[derive(Drop)]
pub struct BodyTable {
    pub rows: Vec<Option<BodyRow>>,
}

/// Whether a method is of that class and overrides another.
fn overrides_in(class: ClassNumber, method: &Method) -> bool
    ensures { result ≡ overrides_in class method.now }
{
    is_class(class, method.class) && method.over.is_some()
}

/// Whether no method of a class overrides another.
fn overrides_nothing_in(image: &Image, class: ClassNumber) -> bool
    ensures { IsTrue result ↔ OverridesNothingIn image.now class }
{
    let methods = image.methods();
    methods
        .as_slice()
        .iter()
        .all(|method| !overrides_in(class, method))
}

/// Whether calls on the objects of a class's parent run what its row says.
fn has_row_above(image: &Image, rows: &Vec<Option<BodyRow>>, class: ClassNumber) -> bool
    requires class { class ≡ length rows.now.items }
    requires sofar { (c : ℕ) → IfSome (slice_get rows.now.items c) (IsRowOf image.now c) }
    ensures { result ≡ false → (m : ℕ) → body_above image.now m class ≡ m }
{
    match parent_of(image, class) {
        Some(parent) => rows[parent.number() as usize].is_some(),
        None => false,
    }
}

/// The row of a class that has an overrider, itself or from above; another has none.
fn row_of(
    alloc: Global,
    image: &Image,
    rows: &Vec<Option<BodyRow>>,
    class: ClassNumber,
) -> Result<Option<BodyRow>, AllocError>
    requires class { class ≡ length rows.now.items }
    requires sofar { (c : ℕ) → IfSome (slice_get rows.now.items c) (IsRowOf image.now c) }
    ensures { IfOk result (λ row. IsRowOf image.now class row) }
{
    if overrides_nothing_in(image, class) && !has_row_above(image, rows, class) {
        return Ok(None);
    }
    Ok(Some(BodyRow::of_class(alloc, image, rows, class)?))
}

impl BodyTable {
    /// The table of an image.
    pub fn of_image(alloc: Global, image: &Image) -> Result<BodyTable, AllocError>
        ensures { IfOk result (λ t. AreBodies image.now t.rows.items) }
    {
        let count = image.classes().len();
        let _methods = image.methods();
        let mut rows = Vec::with_capacity(alloc, count)?;
        for class in 0..count {
            rows.push(row_of(alloc, image, &rows, class_number(class))?)?;
        }
        Ok(BodyTable { rows })
    }

    /// The method that a call of that one runs on what counts as that class.
    pub fn body(&self, method: MethodNumber, class: ClassNumber) -> MethodNumber
        ensures { (p : ImageRecord) → AreBodies p self.now.rows.items → IsSome (method_at p method) → result ≡ body_of p method (Some class) }
    {
        match self.rows.get(class.number() as usize) {
            Some(row) => body_in(row, method),
            None => method,
        }
    }
}
