//! Single lines of a listing, for those who tell of one place.
ghost use Rattle.std.specs.Prelude.{◌≡◌, ◌≤◌, length, IfOk};
ghost use Rattle.aom_disassembler.specs.Classes.{class_words};
ghost use Rattle.aom_disassembler.specs.Methods.{heading_words};
ghost use Rattle.aom_disassembler.specs.Single.{line_at};
ghost use Rattle.aom_disassembler.specs.Text.{line_of};

use crate::jumps::targets;
use crate::writer::ListingWriter;
use aom_image::{ClassDecl, Instr, Method};
use std::alloc::{AllocError, Global};

/// The line that declares a class, at its place among the classes.
pub fn class_line(alloc: Global, place: u32, class: &ClassDecl) -> Result<Vec<u8>, AllocError>
    ensures { IfOk result (λ v. v.items ≡ line_of (class_words place class.now)) }
{
    let mut writer = ListingWriter::new(alloc);
    writer.class(place, class)?;
    Ok(writer.into_text())
}

/// The line that declares a method, at its place among the methods.
pub fn heading_line(alloc: Global, place: u32, method: &Method) -> Result<Vec<u8>, AllocError>
    ensures { IfOk result (λ v. v.items ≡ line_of (heading_words place method.now)) }
{
    let mut writer = ListingWriter::new(alloc);
    writer.heading(place, method)?;
    Ok(writer.into_text())
}

/// The line of the instruction at a place of the code, with its label where something jumps to it. Behind the code there is
/// none.
pub fn line_at(alloc: Global, code: &[Instr], place: usize) -> Result<Vec<u8>, AllocError>
    requires { length code.now ≤ 1024 }
    ensures { IfOk result (λ v. v.items ≡ line_at code.now place) }
{
    let mut writer = ListingWriter::new(alloc);
    if let Some(instr) = code.get(place) {
        writer.instruction(targets(code)[place], place as u32, *instr)?;
    }
    Ok(writer.into_text())
}
