//! The explanation of a fault, in the files of its call.
ghost use Rattle.std.specs.Prelude.{◌≡◌, ◌++◌, IfOk, OnOk};
ghost use Rattle.aom_diagnostics.specs.Compared.{compared_text};
ghost use Rattle.aom_diagnostics.specs.Entries.{entry_text};
ghost use Rattle.aom_diagnostics.specs.Sources.{declared_text};
ghost use Rattle.aom_diagnostics.specs.Table.{word_texts};
ghost use Rattle.aom_diagnostics.specs.declared.word.Unnumbered.TheVariants.{Text};
ghost use Rattle.aom_commands.specs.Acceptable.{IsSerialized};
ghost use Rattle.aom_diagnostic_commands.specs.Explained.{Adds, AddsBeside, AddsKnown, AddsRefusal, Explains, ExplainsByText, KnownThere, by_text, refusal_source, refusal_texts, texts_of};

use crate::linking::{write_link, write_link_beside};
use crate::stopping::write_known_at;
use crate::told_by::{RefusedPlace, Told};
use crate::with_text::ImageText;
use crate::wrong::write_asm;
use aom_budget::BudgetFault;
use aom_codec::decode;
use aom_commands::Fault;
use aom_cost_report::{FigureWriter, Names};
use aom_diagnostics::{
    Explanation, Unnumbered, asm_entry, boot_entry, budget_entry, class_names, link_entry,
    load_entry, method_names, script_entry, verify_entry, word_entry, write_compared,
    write_declared, write_entry, write_line, write_method, write_source,
};
use aom_image::Image;
use aom_verify::Refusal;
use std::alloc::{AllocError, Global};

/// What is told of a refusal by its number.
fn refusal_entry(refusal: Refusal) -> Explanation
    ensures { result ≡ refusal_texts refusal }
{
    match refusal {
        Refusal::OutOfMemory => word_entry(Unnumbered::Memory),
        Refusal::Refused { why, .. } => verify_entry(why),
    }
}

/// What is told of a fault by its kind and number.
pub fn entry_of(fault: &Fault) -> Explanation
    ensures { result ≡ texts_of fault.now }
{
    match *fault {
        Fault::Load(fault) => load_entry(fault),
        Fault::Asm(fault) => asm_entry(fault.kind),
        Fault::Link(fault) => link_entry(fault),
        Fault::Verify(refusal) => refusal_entry(refusal),
        Fault::Budget(fault) => budget_entry(fault),
        Fault::Script(fault) => script_entry(fault.kind),
        Fault::Boot(fault) => boot_entry(fault),
        Fault::Native => word_entry(Unnumbered::Native),
        Fault::File => word_entry(Unnumbered::File),
        Fault::Write => word_entry(Unnumbered::Write),
        Fault::Memory => word_entry(Unnumbered::Memory),
    }
}

/// Writes what the listing of an image says of the place of a refusal, and what is known there.
fn write_refusal(
    alloc: Global,
    out: &mut FigureWriter,
    image: &[u8],
    refusal: Refusal,
) -> Result<(), AllocError>
    ensures { OnOk result (AddsRefusal image.now refusal out.old out.new) }
{
    match refusal {
        Refusal::OutOfMemory => Ok(()),
        Refusal::Refused { method, place, why } => match decode(alloc, image) {
            Ok(image) => {
                write_method(alloc, out, &image, method, place)?;
                let names = Names::none();
                let told = Told {
                    names: &names,
                    text: None,
                };
                write_known_at(
                    alloc,
                    out,
                    &told,
                    image,
                    &RefusedPlace { method, place, why },
                )
            }
            Err(_) => Err(AllocError),
        },
    }
}

/// Writes what is said of the place of a fault.
fn write_place(
    alloc: Global,
    out: &mut FigureWriter,
    fault: &Fault,
    image: &[u8],
    text: &[u8],
) -> Result<(), AllocError>
    ensures { OnOk result (Adds image.now text.now fault.now out.old out.new) }
{
    match fault {
        Fault::Asm(fault) => write_asm(alloc, out, text, *fault),
        Fault::Script(fault) => write_line(out, text, fault.line),
        Fault::Budget(fault) => write_compared(out, fault),
        Fault::Verify(refusal) => write_refusal(alloc, out, image, *refusal),
        Fault::Link(fault) => write_link(alloc, out, image, *fault),
        _ => Ok(()),
    }
}

/// The explanation of a fault. `image` is the call's image, and `text` the text or the script in which a fault's line is
/// counted; of a call that has none they are empty.
pub fn explanation(
    alloc: Global,
    fault: &Fault,
    image: &[u8],
    text: &[u8],
) -> Result<Vec<u8>, AllocError>
    ensures { IfOk result (λ said. Explains image.now text.now fault.now said.items) }
{
    let mut out = FigureWriter::new(alloc);
    write_entry(&mut out, &entry_of(fault))?;
    write_place(alloc, &mut out, fault, image, text)?;
    Ok(out.into_text())
}

/// Writes what is known at the place of a refusal, by the names and the lines of the text that the image is of.
fn write_known_by_text(
    alloc: Global,
    out: &mut FigureWriter,
    image: Image,
    text: &ImageText,
    at: &RefusedPlace,
) -> Result<(), AllocError>
    ensures { OnOk result (KnownThere (by_text text.now) image at.now.method at.now.place at.now.why out.old out.new) }
{
    let classes = class_names(alloc, text.bytes())?;
    let methods = method_names(alloc, text.bytes())?;
    let names = Names::new(&classes, &methods);
    let told = Told {
        names: &names,
        text: Some(text),
    };
    write_known_at(alloc, out, &told, image, at)
}

/// Writes where the text that the image is of has the place of a refusal, and what is known there.
fn write_refusal_source(
    alloc: Global,
    out: &mut FigureWriter,
    image: &[u8],
    text: &ImageText,
    refusal: Refusal,
) -> Result<(), AllocError>
    ensures { OnOk result (AddsKnown image.now text.now refusal (out.old ++ refusal_source text.now refusal) out.new) }
{
    match refusal {
        Refusal::OutOfMemory => Ok(()),
        Refusal::Refused { method, place, why } => match decode(alloc, image) {
            Ok(image) => {
                write_source(out, text.bytes(), method, place)?;
                write_known_by_text(
                    alloc,
                    out,
                    image,
                    text,
                    &RefusedPlace { method, place, why },
                )
            }
            Err(_) => Err(AllocError),
        },
    }
}

/// Writes what has been compared, and where the text that the image is of declares the budget.
fn write_budget(
    out: &mut FigureWriter,
    text: &ImageText,
    fault: &BudgetFault,
) -> Result<(), AllocError>
    ensures { OnOk result (out.new ≡ out.old ++ (compared_text fault.now ++ declared_text text.now fault.now)) }
{
    write_compared(out, fault)?;
    write_declared(out, text.bytes(), fault)
}

/// Writes what is said of the place of a fault by the text that the image is of.
fn write_beside(
    alloc: Global,
    out: &mut FigureWriter,
    fault: &Fault,
    image: &[u8],
    text: &ImageText,
    script: &[u8],
) -> Result<(), AllocError>
    ensures { OnOk result (AddsBeside image.now text.now script.now fault.now out.old out.new) }
{
    match fault {
        Fault::Asm(fault) => write_line(out, script, fault.line),
        Fault::Script(fault) => write_line(out, script, fault.line),
        Fault::Budget(fault) => write_budget(out, text, fault),
        Fault::Verify(refusal) => write_refusal_source(alloc, out, image, text, *refusal),
        Fault::Link(fault) => write_link_beside(alloc, out, image, text, *fault),
        _ => Ok(()),
    }
}

/// The explanation of a fault by the text that the image is of. Lines are counted in the script.
pub fn explanation_by_text(
    alloc: Global,
    fault: &Fault,
    image: &[u8],
    text: &ImageText,
    script: &[u8],
) -> Result<Vec<u8>, AllocError>
    ensures { IfOk result (λ said. ExplainsByText image.now text.now script.now fault.now said.items) }
{
    let mut out = FigureWriter::new(alloc);
    write_entry(&mut out, &entry_of(fault))?;
    write_beside(alloc, &mut out, fault, image, text, script)?;
    Ok(out.into_text())
}

/// The explanation of a text that the image beside it is not of.
pub fn other_explanation(alloc: Global) -> Result<Vec<u8>, AllocError>
    ensures { IfOk result (λ said. said.items ≡ entry_text (word_texts Text)) }
{
    let mut out = FigureWriter::new(alloc);
    write_entry(&mut out, &word_entry(Unnumbered::Text))?;
    Ok(out.into_text())
}
