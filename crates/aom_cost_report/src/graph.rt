//! The whole graph.
ghost use Rattle.std.specs.Prelude.{◌≡◌, IfOk};
ghost use Rattle.aom_cost_report.specs.Dot.{dot_text};

use crate::class::write_classes;
use crate::method::write_methods;
use crate::way::write_way;
use crate::{FigureWriter, Names};
use aom_budget::Figures;
use aom_linker::Linked;
use std::alloc::{AllocError, Global};

/// The graph of an image in Graphviz's language, with its figures, and with the names of classes and methods where there are some.
pub fn dot_text(
    alloc: Global,
    names: &Names,
    linked: &Linked,
    figures: &Figures,
) -> Result<Vec<u8>, AllocError>
    ensures { IfOk result (λ text. text.items ≡ dot_text names.now linked.now figures.now) }
{
    let mut out = FigureWriter::new(alloc);
    let image = linked.image();
    out.words(b"digraph aom {\n")?;
    write_classes(&mut out, names, linked, figures, image.classes().as_slice())?;
    write_methods(&mut out, names, linked, figures, image.methods().as_slice())?;
    write_way(&mut out, linked, figures)?;
    out.words(b"}\n")?;
    Ok(out.into_text())
}
