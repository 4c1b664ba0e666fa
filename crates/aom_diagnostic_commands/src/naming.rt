//! Runs, figures and graphs that are told by the names of their text, and figures by its lines too.
ghost use Rattle.std.specs.Prelude.{◌≤◌, length};
ghost use Rattle.aom_natives.specs.Owed.{OweNothing};
ghost use Rattle.aom_commands.specs.Headline.{RunAnswersBy, over};
ghost use Rattle.aom_commands.specs.Unreported.{Unreported};
ghost use Rattle.aom_commands.specs.Prices.{ChecksBy, PricesAnswersBy};
ghost use Rattle.aom_commands.specs.Translations.{DrawsBy};
ghost use Rattle.aom_diagnostic_commands.specs.Naming.{SaysText, by_names, line_in, placed_names, text_names};
ghost use Rattle.aom_diagnostic_commands.specs.Tellings.{names_in};
ghost use Rattle.aom_diagnostic_commands.specs.declared.telling.Telling.TheVariants.{Plain};

use crate::program::LoadedProgram;
use crate::telling::Telling;
use crate::with_text::{ImageText, TextFault};
use aom_commands::{ExitStatus, Fault, report, try_check, try_draw, try_run};
use aom_cost_report::{Names, Places};
use aom_diagnostics::{class_lines, class_names, image_line, method_lines, method_names};
use aom_natives::Native;
use aom_transcript::{Sink, write_text};
use std::alloc::Global;

/// Runs an image as its text names its classes, and leaves its fault to be told.
fn try_run_by_names<W: Sink>(
    alloc: Global,
    image: &[u8],
    text: &ImageText,
    script: &[u8],
    limit: u32,
    boxes: Vec<Box<dyn Native>>,
    out: &mut W,
) -> Result<ExitStatus, Fault>
    requires limit { (1 ≤ limit) × (limit ≤ 1000000000) }
    requires owed { OweNothing (λ b. (⟦<dyn Native as Native>⟧ b.vtable).owed b.value) boxes.items }
    ensures { Unreported (RunAnswersBy (by_names text.now) image.now script.now limit (length boxes.items) (over W.out W.failed out.old out.new)) result }
{
    let names = class_names(alloc, text.bytes())?;
    try_run(alloc, image, script, limit, boxes, Some(&names), out)
}

/// Runs an image, by the names of its text where they are asked for and there is one, and leaves its fault to be told.
pub fn try_run_told<W: Sink>(
    alloc: Global,
    program: &LoadedProgram,
    names: bool,
    script: &[u8],
    limit: u32,
    boxes: Vec<Box<dyn Native>>,
    out: &mut W,
) -> Result<ExitStatus, Fault>
    requires limit { (1 ≤ limit) × (limit ≤ 1000000000) }
    requires owed { OweNothing (λ b. (⟦<dyn Native as Native>⟧ b.vtable).owed b.value) boxes.items }
    ensures { Unreported (RunAnswersBy (line_in names program.now.text) program.now.image script.now limit (length boxes.items) (over W.out W.failed out.old out.new)) result }
{
    if !names {
        return try_run(alloc, program.image(), script, limit, boxes, None, out);
    }
    match program.text() {
        Some(text) => try_run_by_names(alloc, program.image(), text, script, limit, boxes, out),
        None => try_run(alloc, program.image(), script, limit, boxes, None, out),
    }
}

/// Tells why a text is refused beside an image.
pub fn report_text_fault<E: Sink>(fault: &TextFault, errors: &mut E) -> ExitStatus
    ensures { SaysText fault.now result (over E.out E.failed errors.old errors.new) }
{
    match *fault {
        TextFault::Asm(fault) => {
            report(&Fault::Asm(fault), errors);
            ExitStatus::CallRefused
        }
        TextFault::Other => {
            write_text(errors, b"text\n");
            ExitStatus::CallRefused
        }
        TextFault::Memory => report(&Fault::Memory, errors),
    }
}

/// Checks an image, tells its figures by the names of its text, and leaves its fault to be told.
fn try_prices_by_names<W: Sink>(
    alloc: Global,
    image: &[u8],
    text: &ImageText,
    out: &mut W,
) -> Result<ExitStatus, Fault>
    ensures { Unreported (PricesAnswersBy (text_names text.now) image.now (over W.out W.failed out.old out.new)) result }
{
    let classes = class_names(alloc, text.bytes())?;
    let methods = method_names(alloc, text.bytes())?;
    try_check(alloc, image, &Names::new(&classes, &methods), true, out)
}

/// Checks an image, tells its figures by the names and the lines of its text in a file of that name, and leaves its fault to be told.
fn try_prices_by_lines<W: Sink>(
    alloc: Global,
    image: &[u8],
    text: &ImageText,
    file: &[u8],
    out: &mut W,
) -> Result<ExitStatus, Fault>
    ensures { Unreported (PricesAnswersBy (placed_names file.now text.now) image.now (over W.out W.failed out.old out.new)) result }
{
    let classes = class_names(alloc, text.bytes())?;
    let methods = method_names(alloc, text.bytes())?;
    let class_lines = class_lines(alloc, text.bytes())?;
    let method_lines = method_lines(alloc, text.bytes())?;
    let places = Places::new(file, image_line(text.bytes()), &class_lines, &method_lines);
    let names = Names::placed(&classes, &methods, places);
    try_check(alloc, image, &names, true, out)
}

/// Draws an image with the names of its text, and leaves its fault to be told.
fn try_draw_by_names<W: Sink>(
    alloc: Global,
    image: &[u8],
    text: &ImageText,
    out: &mut W,
) -> Result<ExitStatus, Fault>
    ensures { Unreported (DrawsBy (text_names text.now) image.now (over W.out W.failed out.old out.new)) result }
{
    let classes = class_names(alloc, text.bytes())?;
    let methods = method_names(alloc, text.bytes())?;
    try_draw(alloc, image, &Names::new(&classes, &methods), out)
}

/// Draws an image, by the names of its text where there is one, and leaves its fault to be told.
pub fn try_draw_told<W: Sink>(
    alloc: Global,
    program: &LoadedProgram,
    out: &mut W,
) -> Result<ExitStatus, Fault>
    ensures { Unreported (DrawsBy (names_in Plain program.now.text) program.now.image (over W.out W.failed out.old out.new)) result }
{
    match program.text() {
        Some(text) => try_draw_by_names(alloc, program.image(), text, out),
        None => try_draw(alloc, program.image(), &Names::none(), out),
    }
}

/// Checks an image with its figures, tells these by its text where there is one, and leaves its fault to be told.
fn try_prices_told<W: Sink>(
    alloc: Global,
    program: &LoadedProgram,
    telling: Telling,
    out: &mut W,
) -> Result<ExitStatus, Fault>
    ensures { Unreported (PricesAnswersBy (names_in telling.entry program.now.text) program.now.image (over W.out W.failed out.old out.new)) result }
{
    match program.text() {
        Some(text) => match telling {
            Telling::AsLine(file) => try_prices_by_lines(alloc, program.image(), text, file, out),
            Telling::Plain => try_prices_by_names(alloc, program.image(), text, out),
            Telling::Explained => try_prices_by_names(alloc, program.image(), text, out),
        },
        None => try_check(alloc, program.image(), &Names::none(), true, out),
    }
}

/// Checks an image, with its figures where they are asked, and leaves its fault to be told.
pub fn try_check_told<W: Sink>(
    alloc: Global,
    program: &LoadedProgram,
    telling: Telling,
    prices: bool,
    out: &mut W,
) -> Result<ExitStatus, Fault>
    ensures { Unreported (ChecksBy (names_in telling.entry program.now.text) prices program.now.image (over W.out W.failed out.old out.new)) result }
{
    if prices {
        return try_prices_told(alloc, program, telling, out);
    }
    try_check(alloc, program.image(), &Names::none(), false, out)
}
