//! The warnings of an image as a text, by the names and the lines of its text, where there is one.
ghost use Rattle.std.specs.Prelude.{◌≡◌, ◌++◌, IfErr, IfOk, OnOk, codes, decimal, map};
ghost use Rattle.aom_commands.specs.Assembly.{RefusesBytes};
ghost use Rattle.aom_cost_report.specs.Names.{label};
ghost use Rattle.aom_cost_report.specs.Places.{place_text};
ghost use Rattle.aom_diagnostic_commands.specs.Warned.{IsWarned, classes_in, lead, line_in, message, methods_in, place_of, subject, warning_line, warning_lines, warning_text};

use crate::program::LoadedProgram;
use crate::telling::Telling;
use aom_codec::decode;
use aom_commands::Fault;
use aom_cost_report::FigureWriter;
use aom_diagnostics::{class_names, link_line, method_names};
use aom_link_conditions::LinkPlace;
use aom_warnings::{Warning, warnings};
use std::alloc::{AllocError, Global};

fn place_of(warning: &Warning) -> LinkPlace
    ensures { result ≡ place_of warning.now }
{
    match *warning {
        Warning::NeverMade(class) | Warning::NeverRead(class, _) => LinkPlace::Class(class),
        Warning::NeverCalled(method) => LinkPlace::Method(method),
        Warning::NeverReached(method, place) => LinkPlace::Instruction(method, place),
        Warning::NeverUsed(method, place, _) => LinkPlace::Instruction(method, place),
    }
}

/// Writes the name at a number or, where there is none, words and the number.
pub(crate) fn write_label(
    out: &mut FigureWriter,
    names: &[&[u8]],
    words: &[u8],
    number: u16,
) -> Result<(), AllocError>
    ensures { OnOk result (out.new ≡ out.old ++ label (map (λ w. w.now) names.now) words.now number) }
{
    match names.get(number as usize) {
        Some(name) => out.words(name),
        None => out.count(words, u64::from(number)),
    }
}

/// Writes a place of a method.
fn write_place(
    out: &mut FigureWriter,
    methods: &[&[u8]],
    method: u16,
    place: usize,
) -> Result<(), AllocError>
    ensures { OnOk result (out.new ≡ out.old ++ label (map (λ w. w.now) methods.now) (codes "method ") method ++ codes " " ++ decimal place) }
{
    write_label(out, methods, b"method ", method)?;
    out.count(b" ", place as u64)
}

/// Writes what a warning is about.
fn write_subject(
    out: &mut FigureWriter,
    classes: &[&[u8]],
    methods: &[&[u8]],
    warning: &Warning,
) -> Result<(), AllocError>
    ensures { OnOk result (out.new ≡ out.old ++ subject (map (λ w. w.now) classes.now) (map (λ w. w.now) methods.now) warning.now) }
{
    match *warning {
        Warning::NeverMade(class) => write_label(out, classes, b"class ", class.number()),
        Warning::NeverRead(class, _) => write_label(out, classes, b"class ", class.number()),
        Warning::NeverCalled(method) => write_label(out, methods, b"method ", method.number()),
        Warning::NeverReached(method, place) => write_place(out, methods, method.number(), place),
        Warning::NeverUsed(method, place, _) => write_place(out, methods, method.number(), place),
    }
}

/// Writes what a warning says.
fn write_message(out: &mut FigureWriter, warning: &Warning) -> Result<(), AllocError>
    ensures { OnOk result (out.new ≡ out.old ++ message warning.now) }
{
    match *warning {
        Warning::NeverMade(_) => out.words(b": no object of it is made"),
        Warning::NeverRead(_, field) => {
            out.count(b": nothing reads the field ", u64::from(field.number()))
        }
        Warning::NeverCalled(_) => out.words(b": nothing calls it"),
        Warning::NeverReached(_, _) => out.words(b": no way leads here"),
        Warning::NeverUsed(_, _, register) => out.count(
            b": nothing reads the word in r",
            u64::from(register.number()),
        ),
    }
}

/// Writes the number of a line behind the name of its file.
fn write_line_number(out: &mut FigureWriter, line: Option<u32>) -> Result<(), AllocError>
    ensures { OnOk result (out.new ≡ out.old ++ place_text line) }
{
    match line {
        Some(line) => out.count(b":", u64::from(line)),
        None => Ok(()),
    }
}

/// The line of a program's text that a warning is about.
fn line_in(program: &LoadedProgram, warning: &Warning) -> Option<u32>
    ensures { result ≡ line_in program.now.text warning.now }
{
    match program.text() {
        Some(text) => link_line(text.bytes(), place_of(warning)),
        None => None,
    }
}

/// Writes what stands before a warning.
fn write_lead(out: &mut FigureWriter, telling: Telling, line: Option<u32>) -> Result<(), AllocError>
    ensures { OnOk result (out.new ≡ out.old ++ lead telling.entry line) }
{
    match telling {
        Telling::AsLine(file) => {
            out.words(file)?;
            write_line_number(out, line)?;
            out.words(b": warning: ")
        }
        Telling::Plain | Telling::Explained => out.words(b"warning "),
    }
}

/// Writes a warning in a line.
fn write_warning(
    out: &mut FigureWriter,
    telling: Telling,
    line: Option<u32>,
    classes: &[&[u8]],
    methods: &[&[u8]],
    warning: &Warning,
) -> Result<(), AllocError>
    ensures { OnOk result (out.new ≡ out.old ++ warning_text telling.entry line (map (λ w. w.now) classes.now) (map (λ w. w.now) methods.now) warning.now) }
{
    write_lead(out, telling, line)?;
    write_subject(out, classes, methods, warning)?;
    write_message(out, warning)?;
    out.words(b"\n")
}

/// Writes warnings, one line behind the other.
fn write_warnings(
    out: &mut FigureWriter,
    telling: Telling,
    program: &LoadedProgram,
    classes: &[&[u8]],
    methods: &[&[u8]],
    warnings: &[Warning],
) -> Result<(), AllocError>
    requires classes { map (λ w. w.now) classes.now ≡ classes_in program.now.text }
    requires methods { map (λ w. w.now) methods.now ≡ methods_in program.now.text }
    ensures { OnOk result (out.new ≡ out.old ++ warning_lines (warning_line telling.entry program.now.text) warnings.now) }
{
    for warning in warnings {
        let line = line_in(program, warning);
        write_warning(out, telling, line, classes, methods, warning)?;
    }
    Ok(())
}

/// The names of the classes of a program's text, where there is a text.
pub(crate) fn classes_in<'a>(
    alloc: Global,
    program: &'a LoadedProgram,
) -> Result<Vec<&'a [u8]>, AllocError>
    ensures { IfOk result (λ names. map (λ w. w.now) names.items ≡ classes_in program.now.text) }
{
    match program.text() {
        Some(text) => class_names(alloc, text.bytes()),
        None => Ok(Vec::new(alloc)),
    }
}

/// The names of the methods of a program's text, where there is a text.
fn methods_in<'a>(alloc: Global, program: &'a LoadedProgram) -> Result<Vec<&'a [u8]>, AllocError>
    ensures { IfOk result (λ names. map (λ w. w.now) names.items ≡ methods_in program.now.text) }
{
    match program.text() {
        Some(text) => method_names(alloc, text.bytes()),
        None => Ok(Vec::new(alloc)),
    }
}

/// The lines of warnings.
fn lines_of(
    alloc: Global,
    telling: Telling,
    program: &LoadedProgram,
    warnings: &[Warning],
) -> Result<Vec<u8>, AllocError>
    ensures { IfOk result (λ told. told.items ≡ warning_lines (warning_line telling.entry program.now.text) warnings.now) }
{
    let classes = classes_in(alloc, program)?;
    let methods = methods_in(alloc, program)?;
    let mut out = FigureWriter::new(alloc);
    write_warnings(&mut out, telling, program, &classes, &methods, warnings)?;
    Ok(out.into_text())
}

/// The lines that tell all warnings of a program's image, or the first fault of its bytes.
pub fn warned_text(
    alloc: Global,
    program: &LoadedProgram,
    telling: Telling,
) -> Result<Vec<u8>, Fault>
    ensures ok { IfOk result (λ text. IsWarned (warning_line telling.entry program.now.text) program.now.image text.items) }
    ensures err { IfErr result (λ fault. RefusesBytes program.now.image fault) }
{
    let image = decode(alloc, program.image())?;
    let warnings = warnings(alloc, &image)?;
    Ok(lines_of(alloc, telling, program, &warnings)?)
}
