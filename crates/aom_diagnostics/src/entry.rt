//! What is told of a fault by its kind and number alone.
ghost use Rattle.std.specs.Prelude.{◌≡◌, ◌++◌, OnOk};
ghost use Rattle.aom_diagnostics.specs.Entries.{entry_text, meaning_line, remedy_line, sentence};

use aom_cost_report::FigureWriter;
use std::alloc::AllocError;
use std::marker::Model;

/// A fault's entry: what it is called, what it means, and what usually mends it. `write_entry` writes it.
#[derive(Drop)]
pub struct Explanation {
    pub(crate) name: &'static [u8],
    pub(crate) meaning: &'static [u8],
    pub(crate) remedy: &'static [u8],
}

impl Model for Explanation {
    ghost use Rattle.aom_diagnostics.specs.Entries.{Texts};

    ghost Value = { Texts };

    ghost view = { λ e. record { name = e.name.now; meaning = e.meaning.now; remedy = e.remedy.now } };
}

/// Writes words to the end of a line.
fn write_sentence(out: &mut FigureWriter, words: &[u8]) -> Result<(), AllocError>
    ensures { OnOk result (out.new ≡ out.old ++ sentence words.now) }
{
    out.words(words)?;
    out.words(b"\n")
}

impl Explanation {
    /// Writes what a fault is called to the end of a line.
    pub(crate) fn write_name(&self, out: &mut FigureWriter) -> Result<(), AllocError>
        ensures { OnOk result (out.new ≡ out.old ++ sentence self.now.name) }
    {
        write_sentence(out, self.name)
    }
}

fn write_meaning(out: &mut FigureWriter, entry: &Explanation) -> Result<(), AllocError>
    ensures { OnOk result (out.new ≡ out.old ++ meaning_line entry.now) }
{
    out.words(entry.name)?;
    out.words(b": ")?;
    write_sentence(out, entry.meaning)
}

fn write_remedy(out: &mut FigureWriter, entry: &Explanation) -> Result<(), AllocError>
    ensures { OnOk result (out.new ≡ out.old ++ remedy_line entry.now) }
{
    out.words(b"To mend it: ")?;
    write_sentence(out, entry.remedy)
}

/// Writes an entry in two lines.
pub fn write_entry(out: &mut FigureWriter, entry: &Explanation) -> Result<(), AllocError>
    ensures { OnOk result (out.new ≡ out.old ++ entry_text entry.now) }
{
    write_meaning(out, entry)?;
    write_remedy(out, entry)
}
