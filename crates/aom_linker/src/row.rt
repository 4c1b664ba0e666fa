//! What a call of each method runs on an object of one class.
ghost use Rattle.std.specs.Prelude.{ℕ, ◌≡◌, ◌<◌, IfOk, IfSome, IsSome, Option, Some, length, slice_get};
ghost use Rattle.aom_image.specs.Image.{Image as ImageRecord};
ghost use Rattle.aom_image.specs.Views.{method_at};
ghost use Rattle.aom_link_conditions.specs.Chains.{number_or_none};
ghost use Rattle.aom_link_conditions.specs.Overriding.{body_by, body_of};
ghost use Rattle.aom_linker.specs.Bodies.{IsRow, IsRowOf, body_above};

use crate::numbers::method_number;
use aom_image::{ClassNumber, Image, MethodNumber};
use aom_link_conditions::{NO_METHOD, overriders_of_class};
use aom_roles::parent_of;
use std::alloc::{AllocError, Global};
use std::marker::Model;

/// For each method the method that a call of it runs on the objects of one class.
#[derive(Drop)]
pub struct BodyRow {
    bodies: Vec<MethodNumber>,
}

impl Model for BodyRow {
    ghost use Rattle.std.specs.Prelude.{ℕ, List};

    ghost Value = { List ℕ };

    ghost view = { λ r. r.bodies.items };
}

/// What a call runs where a class has that in the place of a method, or has nothing there.
fn body_or(own: usize, above: MethodNumber) -> MethodNumber
    ensures { (o : Option ℕ) → own ≡ number_or_none o → IfSome o (λ k. k < 1024) → result ≡ body_by above o }
{
    if own < NO_METHOD {
        method_number(own)
    } else {
        above
    }
}

/// What a call runs by a row, or where there is none.
pub fn body_in(row: &Option<BodyRow>, method: MethodNumber) -> MethodNumber
    ensures { (p : ImageRecord) (c : ℕ) → IsRowOf p c row.now → IsSome (method_at p method) → result ≡ body_of p method (Some c) }
{
    match row {
        Some(row) => row.body(method),
        None => method,
    }
}

/// What a call runs on an object of the parent of a class.
fn above(
    image: &Image,
    rows: &Vec<Option<BodyRow>>,
    class: ClassNumber,
    method: MethodNumber,
) -> MethodNumber
    requires class { class ≡ length rows.now.items }
    requires sofar { (c : ℕ) → IfSome (slice_get rows.now.items c) (IsRowOf image.now c) }
    requires method { IsSome (method_at image.now method) }
    ensures { result ≡ body_above image.now method class }
{
    match parent_of(image, class) {
        Some(parent) => body_in(&rows[parent.number() as usize], method),
        None => method,
    }
}

impl BodyRow {
    /// What a call of each method runs on an object of a class, from what it runs on one of the class's parent.
    pub fn of_class(
        alloc: Global,
        image: &Image,
        rows: &Vec<Option<BodyRow>>,
        class: ClassNumber,
    ) -> Result<BodyRow, AllocError>
        requires class { class ≡ length rows.now.items }
        requires sofar { (c : ℕ) → IfSome (slice_get rows.now.items c) (IsRowOf image.now c) }
        ensures { IfOk result (λ row. IsRow image.now class row) }
    {
        let count = image.methods().len();
        let own = overriders_of_class(image, class);
        let mut bodies = Vec::with_capacity(alloc, count)?;
        for method in 0..count {
            let above = above(image, rows, class, method_number(method));
            bodies.push(body_or(own[method], above))?;
        }
        Ok(BodyRow { bodies })
    }

    /// What a call of that method runs; the method itself past the last.
    fn body(&self, method: MethodNumber) -> MethodNumber
        ensures { (k : ℕ) → slice_get self.now method ≡ Some k → result ≡ k }
    {
        match self.bodies.get(method.number() as usize) {
            Some(body) => *body,
            None => method,
        }
    }
}
