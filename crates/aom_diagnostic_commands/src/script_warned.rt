//! The warnings of a script beside a program, by the names of the program's text, where there is one.
ghost use Rattle.std.specs.Prelude.{◌≡◌, ◌++◌, IfErr, IfOk, OnOk, codes, map};
ghost use Rattle.aom_commands.specs.Assembly.{RefusesBytes};
ghost use Rattle.aom_commands.specs.Headline.{over};
ghost use Rattle.aom_diagnostic_commands.specs.Warned.{IsScriptWarned, WarnsOfScript, classes_in, script_line, warning_lines};

use crate::program::{LoadedProgram, Program};
use crate::warned::{classes_in, write_label};
use aom_codec::decode;
use aom_commands::Fault;
use aom_cost_report::FigureWriter;
use aom_script_warnings::{NoServer, script_warnings};
use aom_transcript::{Sink, write_text};
use std::alloc::{AllocError, Global};

/// The most bytes of a script.
const MAX_BYTES: usize = 1 << 20;

/// Writes a warning in a line.
fn write_script_line(
    out: &mut FigureWriter,
    classes: &[&[u8]],
    warning: &NoServer,
) -> Result<(), AllocError>
    ensures { OnOk result (out.new ≡ out.old ++ script_line (map (λ w. w.now) classes.now) warning.now) }
{
    let class = u16::from(warning.class);
    out.count(b"warning line ", u64::from(warning.line))?;
    out.words(b" of the script: ")?;
    write_label(out, classes, b"class ", class)?;
    out.words(b" is no server\n")
}

/// The lines of warnings, one behind the other.
fn script_lines(
    alloc: Global,
    classes: &[&[u8]],
    warnings: &[NoServer],
) -> Result<Vec<u8>, AllocError>
    ensures { IfOk result (λ text. text.items ≡ warning_lines (script_line (map (λ w. w.now) classes.now)) warnings.now) }
{
    let mut out = FigureWriter::new(alloc);
    for warning in warnings {
        write_script_line(&mut out, classes, warning)?;
    }
    Ok(out.into_text())
}

/// The lines that tell all warnings of a script beside a program's image, or the first fault of its bytes.
fn script_warned_text(
    alloc: Global,
    program: &LoadedProgram,
    script: &[u8],
) -> Result<Vec<u8>, Fault>
    ensures ok { IfOk result (λ text. IsScriptWarned (classes_in program.now.text) program.now.image script.now text.items) }
    ensures err { IfErr result (λ fault. RefusesBytes program.now.image fault) }
{
    let image = decode(alloc, program.image())?;
    if script.len() > MAX_BYTES {
        return Ok(Vec::new(alloc));
    }
    let warnings = script_warnings(alloc, &image, script)?;
    let classes = classes_in(alloc, program)?;
    Ok(script_lines(alloc, &classes, &warnings)?)
}

/// Writes the warnings of a script beside a program, one in a line. Where the program has no image, or memory is wanting, it writes nothing: what
/// runs the script tells that.
pub fn warn_script<E: Sink>(alloc: Global, program: Program<'_>, script: &[u8], errors: &mut E)
    ensures { WarnsOfScript program.entry script.now (over E.out E.failed errors.old errors.new) }
{
    match program.load(alloc) {
        Ok(loaded) => match script_warned_text(alloc, &loaded, script) {
            Ok(text) => write_text(errors, &text),
            Err(_) => {}
        },
        Err(_) => {}
    }
}
