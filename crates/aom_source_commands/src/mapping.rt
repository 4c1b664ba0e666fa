//! The map of an assembly text: where its lines come from in the source, and the names of its registers.
ghost use Rattle.std.specs.Prelude.{◌≡◌, ◌++◌, IfOk, OnOk, flat_map};
ghost use Rattle.aom_source_commands.specs.Mapping.{line_row, map_text, name_row};

use crate::told::write_added;
use aom_cost_report::FigureWriter;
use aom_source::{Origin, Written};
use aom_source_code::{NamedRegister, Note, Reason};
use aom_source_tokens::Tokens;
use std::alloc::{AllocError, Global};

/// A row for each line of the text, `LINE:COLUMN` in the source and why the line was added, then one for each name of a register, `rN NAME FIRST-LAST` by the
/// lines of the text, all of which count from 1.
pub fn map_of(
    alloc: Global,
    tokens: &Tokens<'_>,
    written: &Written<'_>,
) -> Result<Vec<u8>, AllocError>
    ensures { IfOk result (λ text. text.items ≡ map_text tokens.now written.now.origins.items written.now.names.items) }
{
    let mut text = FigureWriter::new(alloc);
    for origin in &written.origins {
        write_line(&mut text, tokens, *origin)?;
    }
    for named in &written.names {
        write_name(&mut text, *named)?;
    }
    Ok(text.into_text())
}

/// Writes the row of a line.
fn write_line(
    text: &mut FigureWriter,
    tokens: &Tokens<'_>,
    origin: Origin<'_>,
) -> Result<(), AllocError>
    ensures { OnOk result (text.new ≡ text.old ++ line_row tokens.now origin.entry) }
{
    let place = tokens.get(origin.token as usize).place;
    text.count(b"", u64::from(place.line))?;
    text.count(b":", u64::from(place.column))?;
    if origin.note.reason != Reason::Written {
        text.words(b" ")?;
        write_added(text, origin.note.reason, origin.note.name)?;
    }
    text.words(b"\n")
}

/// Writes the row of a name, if the register has it in a line.
fn write_name(text: &mut FigureWriter, named: NamedRegister<'_>) -> Result<(), AllocError>
    ensures { OnOk result (text.new ≡ text.old ++ name_row named.entry) }
{
    if named.to <= named.from {
        return Ok(());
    }
    text.count(b"r", named.register as u64)?;
    text.words(b" ")?;
    text.words(named.name)?;
    text.count(b" ", named.from as u64 + 1)?;
    text.count(b"-", named.to as u64)?;
    text.words(b"\n")
}
