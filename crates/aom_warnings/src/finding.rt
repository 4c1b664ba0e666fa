//! All warnings of an image.
ghost use Rattle.std.specs.Prelude.{◌≡◌, ◌≤◌, ◌<◌, ◌++◌, ◌∷◌, [], IfOk, IsSome, OnOk, Some, length, slice_get};
ghost use Rattle.aom_image.specs.Views.{fields_of, method_at};
ghost use Rattle.aom_warnings.specs.Reached.{MarksReached};
ghost use Rattle.aom_warnings.specs.Warnings.{Adds, AreAll, OfClass, OfField, OfFirst, OfMethod, OfReach, OfWriting, TellsOne, added};
ghost use Rattle.aom_warnings.specs.declared.warning.Warning.{Warning as WarningName};
ghost use Rattle.aom_warnings.specs.declared.warning.Warning.TheVariants.{NeverCalled, NeverMade};

use crate::Warning;
use crate::called::is_never_called;
use crate::fields::{fields_of, is_never_read};
use crate::flow::{is_cut, reached};
use crate::made::is_never_made;
use crate::numbers::{class_number, field_index, method_number};
use crate::registers::{is_unread, written_word};
use aom_image::{ClassNumber, FieldIndex, Image, Method, MethodNumber};
use std::alloc::{AllocError, Global};

/// Adds a warning, where there is one.
fn add(warnings: &mut Vec<Warning>, warning: Option<Warning>) -> Result<(), AllocError>
    ensures { OnOk result (warnings.new.items ≡ warnings.old.items ++ added warning) }
{
    match warning {
        Some(warning) => Ok(warnings.push(warning)?),
        None => Ok(()),
    }
}

/// Whether an object of a class is made.
fn made(image: &Image, class: ClassNumber) -> Option<Warning>
    requires { class < length image.now.classes }
    ensures { TellsOne image.now (λ w. w ≡ NeverMade class) result }
{
    if is_never_made(image, class) {
        Some(Warning::NeverMade(class))
    } else {
        None
    }
}

/// Whether a field of a class is read.
fn read(image: &Image, class: ClassNumber, field: FieldIndex) -> Option<Warning>
    requires { field < length (fields_of image.now class) }
    ensures { TellsOne image.now (OfField class field) result }
{
    if is_never_read(image, class, field) {
        Some(Warning::NeverRead(class, field))
    } else {
        None
    }
}

/// Whether a method is called.
fn called(image: &Image, method: MethodNumber) -> Option<Warning>
    ensures { TellsOne image.now (λ w. w ≡ NeverCalled method) result }
{
    if is_never_called(image, method) {
        Some(Warning::NeverCalled(method))
    } else {
        None
    }
}

/// Whether the place before one is reached, and it is not.
fn reach(
    image: &Image,
    number: MethodNumber,
    method: &Method,
    marks: &[bool],
    place: usize,
) -> Option<Warning>
    requires method { method_at image.now number ≡ Some method.now }
    requires marks { MarksReached method.now.code marks.now }
    requires size { length marks.now ≡ length method.now.code }
    requires place { place < length marks.now }
    ensures { TellsOne image.now (OfReach number place) result }
{
    if is_cut(method.code.as_slice(), marks, place) {
        Some(Warning::NeverReached(number, place))
    } else {
        None
    }
}

/// Whether what a place of a method writes is used.
fn writing(image: &Image, number: MethodNumber, method: &Method, place: usize) -> Option<Warning>
    requires method { method_at image.now number ≡ Some method.now }
    requires place { place < length method.now.code }
    ensures { TellsOne image.now (OfWriting number place) result }
{
    let register = written_word(method.code.at(place))?;
    if is_unread(image, method, register) {
        Some(Warning::NeverUsed(number, place, register))
    } else {
        None
    }
}

/// Adds the warnings of the fields of a class.
fn add_fields(
    image: &Image,
    class: ClassNumber,
    warnings: &mut Vec<Warning>,
) -> Result<(), AllocError>
    ensures { OnOk result (Adds image.now (OfFirst (OfField class) (length (fields_of image.now class))) warnings.old.items warnings.new.items) }
{
    let _classes = image.classes();
    for field in 0..fields_of(image, class).len() {
        add(warnings, read(image, class, field_index(field)))?;
    }
    Ok(())
}

/// Adds the warnings of a class.
fn add_class(
    image: &Image,
    class: ClassNumber,
    warnings: &mut Vec<Warning>,
) -> Result<(), AllocError>
    requires { class < length image.now.classes }
    ensures { OnOk result (Adds image.now (OfClass class) warnings.old.items warnings.new.items) }
{
    add(warnings, made(image, class))?;
    Ok(add_fields(image, class, warnings)?)
}

/// Adds the warnings of the places of a method that are not reached.
fn add_reach(
    alloc: Global,
    image: &Image,
    number: MethodNumber,
    method: &Method,
    warnings: &mut Vec<Warning>,
) -> Result<(), AllocError>
    requires method { method_at image.now number ≡ Some method.now }
    requires code { 1 ≤ length method.now.code }
    ensures { OnOk result (Adds image.now (OfFirst (OfReach number) (length method.now.code)) warnings.old.items warnings.new.items) }
{
    let marks = reached(alloc, method.code.as_slice())?;
    for place in 0..method.code.len() {
        add(warnings, reach(image, number, method, &marks, place))?;
    }
    Ok(())
}

/// Adds the warnings of the registers that a method writes.
fn add_writing(
    image: &Image,
    number: MethodNumber,
    method: &Method,
    warnings: &mut Vec<Warning>,
) -> Result<(), AllocError>
    requires { method_at image.now number ≡ Some method.now }
    ensures { OnOk result (Adds image.now (OfFirst (OfWriting number) (length method.now.code)) warnings.old.items warnings.new.items) }
{
    for place in 0..method.code.len() {
        add(warnings, writing(image, number, method, place))?;
    }
    Ok(())
}

/// Adds the warnings of a method.
fn add_method(
    alloc: Global,
    image: &Image,
    number: MethodNumber,
    method: &Method,
    warnings: &mut Vec<Warning>,
) -> Result<(), AllocError>
    requires method { method_at image.now number ≡ Some method.now }
    requires code { 1 ≤ length method.now.code }
    ensures { OnOk result (Adds image.now (OfMethod number) warnings.old.items warnings.new.items) }
{
    add(warnings, called(image, number))?;
    add_reach(alloc, image, number, method, warnings)?;
    Ok(add_writing(image, number, method, warnings)?)
}

/// Adds the warnings of all classes.
fn add_classes(image: &Image, warnings: &mut Vec<Warning>) -> Result<(), AllocError>
    ensures { OnOk result (Adds image.now (OfFirst OfClass (length image.now.classes)) warnings.old.items warnings.new.items) }
{
    for class in 0..image.classes().len() {
        add_class(image, class_number(class), warnings)?;
    }
    Ok(())
}

/// Adds the warnings of all methods.
fn add_methods(alloc: Global, image: &Image, warnings: &mut Vec<Warning>) -> Result<(), AllocError>
    ensures { OnOk result (Adds image.now (OfFirst OfMethod (length image.now.methods)) warnings.old.items warnings.new.items) }
{
    let methods = image.methods();
    for number in 0..methods.len() {
        add_method(
            alloc,
            image,
            method_number(number),
            methods.at(number),
            warnings,
        )?;
    }
    Ok(())
}

/// All warnings of an image: class by class, and then method by method. It fails where memory is wanting alone.
pub fn warnings(alloc: Global, image: &Image) -> Result<Vec<Warning>, AllocError>
    ensures { IfOk result (λ warnings. AreAll image.now warnings.items) }
{
    let mut warnings = Vec::new(alloc);
    add_classes(image, &mut warnings)?;
    add_methods(alloc, image, &mut warnings)?;
    Ok(warnings)
}
