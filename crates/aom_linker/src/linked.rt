//! A linked image.
ghost use Rattle.std.specs.Prelude.{◌≡◌, IfOk, IfErr, IsSome, Some, slice_get};
ghost use Rattle.aom_image.specs.Views.{class_at, method_at, instr_at, fields_of};
ghost use Rattle.aom_link_conditions.specs.Linked.{IsLinked};
ghost use Rattle.aom_link_conditions.specs.Roles.{main_of, role_of};
ghost use Rattle.aom_link_conditions.specs.Faults.{RefusesOrWants};
ghost use Rattle.aom_link_conditions.specs.Overriding.{body_of};

use crate::body_table::BodyTable;
use crate::role_table::RoleTable;
use aom_image::{
    ClassDecl, ClassNumber, FieldIndex, Image, Instr, Method, MethodNumber, Role, Thing,
};
use aom_link_conditions::{LinkFault, check_conditions};
use std::alloc::Global;
use std::marker::Model;

/// An image that keeps the link conditions, with its main.
#[derive(Drop)]
pub struct Linked {
    image: Image,
    roles: RoleTable,
    bodies: BodyTable,
    main: MethodNumber,
}

impl Model for Linked {
    ghost use Rattle.std.specs.Prelude.{◌≡◌, Some};
    ghost use Rattle.aom_image.specs.Image.{Image};
    ghost use Rattle.aom_link_conditions.specs.Linked.{IsLinked};
    ghost use Rattle.aom_link_conditions.specs.Roles.{main_of};
    ghost use Rattle.aom_linker.specs.Bodies.{AreBodies};
    ghost use Rattle.aom_linker.specs.Table.{IsTable};

    ghost Value = { Image };

    ghost view = { λ l. l.image };

    ghost invariant = { λ l. IsLinked l.image × (main_of l.image ≡ Some l.main) × IsTable l.image l.roles.rows.items × AreBodies l.image l.bodies.rows.items };
}

/// Links an image: the image as it was, or the first condition that it fails. A refused image is dropped. Memory is
/// wanted for the tables of roles and of bodies alone, and only of an image that keeps them all.
pub fn link(alloc: Global, image: Image) -> Result<Linked, LinkFault>
    ensures ok { IfOk result (λ l. (l ≡ image) × IsLinked image) }
    ensures err { IfErr result (λ fault. RefusesOrWants image fault) }
{
    let main = check_conditions(&image)?;
    let roles = RoleTable::of_image(alloc, &image)?;
    let bodies = BodyTable::of_image(alloc, &image)?;
    Ok(Linked {
        image,
        roles,
        bodies,
        main,
    })
}

impl Linked {
    /// The image that was linked.
    pub fn image(&self) -> &Image
        ensures { result.now ≡ self.now }
    {
        &self.image
    }

    /// It keeps what is asked of a linked image.
    pub fn facts(&self)
        ensures linked { IsLinked self.now }
    {
        let _ = &self.image;
    }

    /// The method that a run begins with.
    pub fn main(&self) -> MethodNumber
        ensures { main_of self.now ≡ Some result }
    {
        self.main
    }

    /// A class of the image.
    pub fn class(&self, class: ClassNumber) -> &ClassDecl
        requires { IsSome (class_at self.now class) }
        ensures { class_at self.now class ≡ Some result.now }
    {
        self.image.classes().at(class.number() as usize)
    }

    /// A method of the image.
    pub fn method(&self, method: MethodNumber) -> &Method
        requires { IsSome (method_at self.now method) }
        ensures { method_at self.now method ≡ Some result.now }
    {
        self.image.methods().at(method.number() as usize)
    }

    /// The instruction at a place of a method.
    pub fn instr(&self, method: MethodNumber, place: usize) -> Instr
        requires { IsSome (instr_at self.now method place) }
        ensures { instr_at self.now method place ≡ Some result }
    {
        *self.method(method).code.at(place)
    }

    /// The first method of that class with that role.
    pub fn role(&self, class: ClassNumber, role: Role) -> Option<MethodNumber>
        ensures { result ≡ role_of self.now class role }
    {
        self.roles.role(class, role)
    }

    /// The method that a call of that one runs on what counts as that class: its own, or that of the nearest class above it that has
    /// one in the method's place.
    pub fn body(&self, method: MethodNumber, class: ClassNumber) -> MethodNumber
        requires { IsSome (method_at self.now method) }
        ensures { result ≡ body_of self.now method (Some class) }
    {
        self.bodies.body(method, class)
    }

    /// What a field of a class may own.
    pub fn field_class(&self, class: ClassNumber, field: FieldIndex) -> Thing
        requires { IsSome (slice_get (fields_of self.now class) field) }
        ensures { slice_get (fields_of self.now class) field ≡ Some result }
    {
        *self.class(class).fields.at(field.number() as usize)
    }
}
