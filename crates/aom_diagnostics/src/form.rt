//! How an instruction is written.
ghost use Rattle.std.specs.Prelude.{◌≡◌, ◌++◌, OnOk};
ghost use Rattle.aom_diagnostics.specs.Forms.{form_line, form_words, in_order, large_form, lettered, small_form};

use aom_cost_report::FigureWriter;
use aom_image::{Kinds, LargeKind, Mnemonic, OperandOrder, SmallKind};
use std::alloc::AllocError;

/// Writes a register or a field, with its letter.
fn write_lettered(out: &mut FigureWriter, what: &[u8], letter: u8) -> Result<(), AllocError>
    ensures { OnOk result (out.new ≡ out.old ++ lettered what.now letter) }
{
    out.words(what)?;
    out.words(&[letter])
}

fn write_small(out: &mut FigureWriter, kind: SmallKind, letter: u8) -> Result<(), AllocError>
    ensures { OnOk result (out.new ≡ out.old ++ small_form kind letter) }
{
    match kind {
        SmallKind::Unused => Ok(()),
        SmallKind::Register | SmallKind::TrapResult => write_lettered(out, b" r", letter),
        SmallKind::Word => write_lettered(out, b" w", letter),
        SmallKind::Field => write_lettered(out, b" f", letter),
        SmallKind::Depth => out.words(b" D"),
        SmallKind::CallTarget => out.words(b" TARGET"),
    }
}

fn write_large(out: &mut FigureWriter, kind: LargeKind) -> Result<(), AllocError>
    ensures { OnOk result (out.new ≡ out.old ++ large_form kind) }
{
    match kind {
        LargeKind::Nothing => Ok(()),
        LargeKind::Number | LargeKind::Rounds => out.words(b" N"),
        LargeKind::Place => out.words(b" L"),
        LargeKind::Class => out.words(b" CLASS"),
        LargeKind::Method => out.words(b" METHOD"),
    }
}

/// Writes what stands for operands, in the order of a text.
fn write_operands(out: &mut FigureWriter, kinds: Kinds) -> Result<(), AllocError>
    ensures { OnOk result (out.new ≡ out.old ++ in_order kinds.order kinds) }
{
    write_small(out, kinds.a, b'A')?;
    match kinds.order {
        OperandOrder::LargeLast => {
            write_small(out, kinds.b, b'B')?;
            write_small(out, kinds.c, b'C')?;
            write_large(out, kinds.d)
        }
        OperandOrder::LargeSecond => {
            write_large(out, kinds.d)?;
            write_small(out, kinds.b, b'B')?;
            write_small(out, kinds.c, b'C')
        }
    }
}

fn write_words(out: &mut FigureWriter, mnemonic: Mnemonic) -> Result<(), AllocError>
    ensures { OnOk result (out.new ≡ out.old ++ form_words mnemonic) }
{
    out.words(mnemonic.text())?;
    write_operands(out, mnemonic.row().kinds())
}

/// Writes the line that tells how the instruction of a mnemonic is written.
pub(crate) fn write_form_line(out: &mut FigureWriter, mnemonic: Mnemonic) -> Result<(), AllocError>
    ensures { OnOk result (out.new ≡ out.old ++ form_line mnemonic) }
{
    out.words(b"Its form: ")?;
    write_words(out, mnemonic)?;
    out.words(b"\n")
}
