//! Owning fields that nothing reads.
ghost use Rattle.std.specs.Prelude.{◌≡◌, ◌↔◌, ◌<◌, IsTrue, length, true};
ghost use Rattle.aom_image.specs.Views.{fields_of};
ghost use Rattle.aom_roles.specs.Families.{fields_above, parent_of};
ghost use Rattle.aom_warnings.specs.Fields.{IsNeverRead, ReadsNot, field_read, field_target, is_below, is_field, uses};

use aom_image::{ClassNumber, FieldIndex, Image, Instr, Method, Role, Target, Thing};
use aom_roles::{descends, parent_of, same_role};

fn field_target(target: Target) -> Option<FieldIndex>
    ensures { result ≡ field_target target }
{
    match target {
        Target::Field(field) => Some(field),
        _ => None,
    }
}

/// The owning field that an instruction takes, calls through or tests.
#[tactic(auto, unfolding(crate::specs::Fields::field_read))]
fn field_read(instr: &Instr) -> Option<FieldIndex>
    ensures { result ≡ field_read instr.now }
{
    match *instr {
        Instr::Take(_, field) | Instr::JumpEmpty(field, _) => Some(field),
        Instr::Call(target, _, _, _) | Instr::Trap(target, _, _, _) => field_target(target),
        _ => None,
    }
}

fn is_field(field: FieldIndex, read: Option<FieldIndex>) -> bool
    ensures { result ≡ is_field field read }
{
    match read {
        Some(other) => other.number() == field.number(),
        None => false,
    }
}

fn is_below(image: &Image, class: ClassNumber, own: Option<ClassNumber>) -> bool
    ensures { result ≡ is_below image.now class own }
{
    match own {
        Some(own) => descends(image, own, class),
        None => false,
    }
}

/// Whether a method but a destructor works on an object of a class or of one below it.
fn uses(image: &Image, class: ClassNumber, method: &Method) -> bool
    ensures { result ≡ uses image.now class method.now }
{
    is_below(image, class, method.class) && !same_role(method.role, Role::Destruct)
}

fn reads_not(image: &Image, class: ClassNumber, field: FieldIndex, method: &Method) -> bool
    ensures { IsTrue result ↔ ReadsNot image.now class field method.now }
{
    let code = method.code.as_slice();
    !uses(image, class, method) || code.iter().all(|instr| !is_field(field, field_read(instr)))
}

/// What the owning fields of a class may own.
#[tactic(auto, unfolding(aom_image::specs::Views::fields_in, aom_image::specs::Views::class_at))]
pub fn fields_of(image: &Image, class: ClassNumber) -> &[Thing]
    ensures { result.now ≡ fields_of image.now class }
{
    let classes = image.classes();
    match classes.as_slice().get(class.number() as usize) {
        Some(class) => class.fields.as_slice(),
        None => &[],
    }
}

/// How many owning fields a class has of its parent.
fn fields_above(image: &Image, class: ClassNumber) -> usize
    ensures { result ≡ fields_above image.now (parent_of image.now class) }
{
    match parent_of(image, class) {
        Some(parent) => fields_of(image, parent).len(),
        None => 0,
    }
}

/// Whether nothing reads a field of a class, but for destructors.
pub fn is_never_read(image: &Image, class: ClassNumber, field: FieldIndex) -> bool
    requires { field < length (fields_of image.now class) }
    ensures { IsTrue result ↔ IsNeverRead image.now class field }
{
    let methods = image.methods();
    fields_above(image, class) <= field.number() as usize
        && methods
            .as_slice()
            .iter()
            .all(|method| reads_not(image, class, field, method))
}
