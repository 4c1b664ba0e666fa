//! Where an image fails a link condition: in its listing, in the text that it is of, and in one line of that.
ghost use Rattle.std.specs.Prelude.{◌≡◌, ◌≤◌, ◌++◌, ◌^◌, OnOk, length, slice_get};
ghost use Rattle.aom_diagnostics.specs.Linking.{class_text, declared_class, declared_method, link_line, link_source, link_text};

use crate::as_line::{line_of, refusal_line};
use crate::finding::{class_statement, method_statement};
use crate::place::{write_heading, write_method};
use crate::source::{write_found, write_source};
use aom_cost_report::FigureWriter;
use aom_disassembler::class_line;
use aom_image::{ClassDecl, ClassNumber, Image, MethodNumber};
use aom_link_conditions::LinkPlace;
use std::alloc::{AllocError, Global};

/// Writes the line of a listing that declares a class.
fn write_class_line(
    alloc: Global,
    out: &mut FigureWriter,
    number: ClassNumber,
    class: &ClassDecl,
) -> Result<(), AllocError>
    ensures { OnOk result (out.new ≡ out.old ++ class_text number class.now) }
{
    let line = class_line(alloc, u32::from(number.number()), class)?;
    out.words(b"In: ")?;
    out.words(&line)
}

/// Writes what a listing says of a class.
fn write_class(
    alloc: Global,
    out: &mut FigureWriter,
    image: &Image,
    number: ClassNumber,
) -> Result<(), AllocError>
    ensures { OnOk result (out.new ≡ out.old ++ declared_class number (slice_get image.now.classes number)) }
{
    match image.classes().as_slice().get(number.number() as usize) {
        None => Ok(()),
        Some(class) => write_class_line(alloc, out, number, class),
    }
}

/// Writes what a listing says of a method as a whole.
fn write_declared_method(
    alloc: Global,
    out: &mut FigureWriter,
    image: &Image,
    number: MethodNumber,
) -> Result<(), AllocError>
    ensures { OnOk result (out.new ≡ out.old ++ declared_method number (slice_get image.now.methods number)) }
{
    match image.methods().as_slice().get(number.number() as usize) {
        None => Ok(()),
        Some(method) => write_heading(alloc, out, number, method),
    }
}

/// Writes what a listing says of the place where an image fails a link condition.
pub fn write_link_place(
    alloc: Global,
    out: &mut FigureWriter,
    image: &Image,
    place: LinkPlace,
) -> Result<(), AllocError>
    ensures { OnOk result (out.new ≡ out.old ++ link_text image.now place) }
{
    match place {
        LinkPlace::Class(class) => write_class(alloc, out, image, class),
        LinkPlace::Method(method) => write_declared_method(alloc, out, image, method),
        LinkPlace::Instruction(method, place) => write_method(alloc, out, image, method, place),
    }
}

/// Writes the statements of a text that declare what fails a link condition, and hold it.
pub fn write_link_source(
    out: &mut FigureWriter,
    text: &[u8],
    place: LinkPlace,
) -> Result<(), AllocError>
    requires { length text.now ≤ 2 ^ 20 }
    ensures { OnOk result (out.new ≡ out.old ++ link_source text.now place) }
{
    match place {
        LinkPlace::Class(class) => {
            let number = class.number() as usize;
            write_found(out, b"In line ", class_statement(text, number))
        }
        LinkPlace::Method(method) => {
            let number = method.number() as usize;
            write_found(out, b"In line ", method_statement(text, number))
        }
        LinkPlace::Instruction(method, place) => write_source(out, text, method, place),
    }
}

/// The line of a text where its image fails a link condition.
pub fn link_line(text: &[u8], place: LinkPlace) -> Option<u32>
    requires { length text.now ≤ 2 ^ 20 }
    ensures { result ≡ link_line text.now place }
{
    match place {
        LinkPlace::Class(class) => line_of(class_statement(text, class.number() as usize)),
        LinkPlace::Method(method) => line_of(method_statement(text, method.number() as usize)),
        LinkPlace::Instruction(method, place) => refusal_line(text, method, place),
    }
}
