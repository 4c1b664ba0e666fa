//! Classes, what they descend from, and what their objects own.
ghost use Rattle.std.specs.Prelude.{◌≡◌, ◌≤◌, ◌<◌, ◌++◌, OnOk, length};
ghost use Rattle.aom_cost_report.specs.Each.{numbered};
ghost use Rattle.aom_cost_report.specs.Classes.{kind_word, class_heading, thing_text, field_line, fields_text, parent_line, parent_text, class_text, classes_text};

use crate::over::{class_is_over, write_color};
use crate::{FigureWriter, Names};
use aom_budget::Figures;
use aom_image::{ClassDecl, ClassKind, ClassNumber, Thing};
use aom_linker::Linked;
use std::alloc::AllocError;

/// The number of the class at an index.
fn class_number(index: usize) -> ClassNumber
    requires { index < 256 }
    ensures { result ≡ index }
{
    ClassNumber::new(index as u16).unwrap()
}

fn write_kind_word(out: &mut FigureWriter, kind: ClassKind) -> Result<(), AllocError>
    ensures { OnOk result (out.new ≡ out.old ++ kind_word kind) }
{
    match kind {
        ClassKind::Plain => out.words(b" plain\""),
        ClassKind::Active { .. } => out.words(b" active\""),
        ClassKind::Server { .. } => out.words(b" server\""),
        ClassKind::Session => out.words(b" session\""),
    }
}

/// Words, and a class behind them.
fn write_class_number(
    out: &mut FigureWriter,
    words: &[u8],
    class: ClassNumber,
) -> Result<(), AllocError>
    ensures { OnOk result (out.new ≡ out.old ++ numbered words.now class) }
{
    out.count(words, u64::from(class.number()))
}

/// A box for a class, told by its name, with its kind.
fn write_class_heading(
    out: &mut FigureWriter,
    names: &Names,
    class: ClassNumber,
    kind: ClassKind,
) -> Result<(), AllocError>
    ensures { OnOk result (out.new ≡ out.old ++ class_heading names.now class kind) }
{
    write_class_number(out, b"c", class)?;
    out.words(b" [shape=box label=\"")?;
    names.write_class(out, b"c", class)?;
    write_kind_word(out, kind)
}

/// What is owned.
fn write_thing(out: &mut FigureWriter, thing: Thing) -> Result<(), AllocError>
    ensures { OnOk result (out.new ≡ out.old ++ thing_text thing) }
{
    match thing {
        Thing::Object(class) => out.count(b" -> c", u64::from(class.number())),
        Thing::Message => out.words(b" -> message"),
    }
}

fn write_field(
    out: &mut FigureWriter,
    class: ClassNumber,
    field: u64,
    thing: Thing,
) -> Result<(), AllocError>
    ensures { OnOk result (out.new ≡ out.old ++ field_line class field thing) }
{
    out.count(b"c", u64::from(class.number()))?;
    write_thing(out, thing)?;
    out.count(b" [label=\"f", field)?;
    out.words(b"\"]\n")
}

fn write_fields(
    out: &mut FigureWriter,
    class: ClassNumber,
    fields: &[Thing],
) -> Result<(), AllocError>
    ensures { OnOk result (out.new ≡ out.old ++ fields_text class fields.now) }
{
    for (field, thing) in fields.iter().enumerate() {
        write_field(out, class, field as u64, *thing)?;
    }
    Ok(())
}

fn write_parent_line(
    out: &mut FigureWriter,
    class: ClassNumber,
    parent: ClassNumber,
) -> Result<(), AllocError>
    ensures { OnOk result (out.new ≡ out.old ++ parent_line class parent) }
{
    write_class_number(out, b"c", class)?;
    write_class_number(out, b" -> c", parent)?;
    out.words(b" [arrowhead=empty]\n")
}

/// The class's parent, if it has one.
fn write_parent(
    out: &mut FigureWriter,
    class: ClassNumber,
    parent: Option<ClassNumber>,
) -> Result<(), AllocError>
    ensures { OnOk result (out.new ≡ out.old ++ parent_text class parent) }
{
    match parent {
        Some(parent) => write_parent_line(out, class, parent),
        None => Ok(()),
    }
}

/// A class, red where its dispatches are over what is declared of them, its parent, and what each of its owning fields may own.
fn write_class(
    out: &mut FigureWriter,
    names: &Names,
    linked: &Linked,
    figures: &Figures,
    class: ClassNumber,
    declaration: &ClassDecl,
) -> Result<(), AllocError>
    ensures { OnOk result (out.new ≡ out.old ++ class_text names.now linked.now figures.now.prices class declaration.now) }
{
    write_class_heading(out, names, class, declaration.kind)?;
    write_color(out, class_is_over(linked, figures, class, declaration))?;
    out.words(b"]\n")?;
    write_parent(out, class, declaration.parent)?;
    write_fields(out, class, declaration.fields.as_slice())
}

pub(crate) fn write_classes(
    out: &mut FigureWriter,
    names: &Names,
    linked: &Linked,
    figures: &Figures,
    classes: &[ClassDecl],
) -> Result<(), AllocError>
    requires { length classes.now ≤ 256 }
    ensures { OnOk result (out.new ≡ out.old ++ classes_text names.now linked.now figures.now.prices classes.now) }
{
    for (index, class) in classes.iter().enumerate() {
        write_class(out, names, linked, figures, class_number(index), class)?;
    }
    Ok(())
}
