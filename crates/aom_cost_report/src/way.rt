//! The way to the greatest price: from main on to the dearest of the methods that a method leads to, as long as there is one.
ghost use Rattle.std.specs.Prelude.{◌≡◌, ◌++◌, None, OnOk};
ghost use Rattle.aom_link_conditions.specs.Roles.{main_of};
ghost use Rattle.aom_cost_report.specs.Way.{bold_line, costlier, costlier_one, costliest, costliest_of, is_costlier, way_of};

use crate::FigureWriter;
use crate::edge::{Edge, write_arrow};
use aom_budget::Figures;
use aom_image::{Instr, MethodNumber};
use aom_linker::Linked;
use std::alloc::AllocError;

/// Whether an edge leads to a greater price than another, or to an equal one of a lower method.
fn is_costlier(figures: &Figures, edge: &Edge, other: &Edge) -> bool
    ensures { result ≡ is_costlier figures.now.prices edge.now other.now }
{
    let price = figures.price(edge.to);
    let others = figures.price(other.to);
    others < price || (others == price && edge.to.number() < other.to.number())
}

/// The first of two edges, unless the second is dearer.
fn costlier_one(figures: &Figures, first: &Edge, second: &Edge) -> Edge
    ensures { result ≡ costlier_one figures.now.prices first.now second.now }
{
    if is_costlier(figures, second, first) {
        *second
    } else {
        *first
    }
}

/// The dearer one of two edges, where they are there: the first of them, unless the second is dearer.
fn costlier(figures: &Figures, best: Option<Edge>, edge: Option<Edge>) -> Option<Edge>
    ensures { result ≡ costlier figures.now.prices best edge }
{
    match edge {
        None => best,
        Some(edge) => match best {
            None => Some(edge),
            Some(best) => Some(costlier_one(figures, &best, &edge)),
        },
    }
}

/// The dearest edge of a method's code.
fn costliest(figures: &Figures, code: &[Instr]) -> Option<Edge>
    ensures { result ≡ costliest figures.now.prices None code.now }
{
    let mut best = None;
    for instr in code {
        best = costlier(figures, best, Edge::of(*instr));
    }
    best
}

/// The dearest edge of a method.
#[tactic(auto, unfolding(aom_image::specs::Views::method_at))]
fn costliest_of(linked: &Linked, figures: &Figures, method: MethodNumber) -> Option<Edge>
    ensures { result ≡ costliest_of linked.now figures.now.prices method }
{
    let methods = linked.image().methods();
    match methods.as_slice().get(method.number() as usize) {
        Some(method) => costliest(figures, method.code.as_slice()),
        None => None,
    }
}

fn write_bold(out: &mut FigureWriter, from: MethodNumber, edge: Edge) -> Result<(), AllocError>
    ensures { OnOk result (out.new ≡ out.old ++ bold_line from edge) }
{
    write_arrow(out, from, edge)?;
    out.words(b" penwidth=3]\n")
}

/// The way from main on. It has at most as many edges as there are methods.
pub(crate) fn write_way(
    out: &mut FigureWriter,
    linked: &Linked,
    figures: &Figures,
) -> Result<(), AllocError>
    ensures { OnOk result (out.new ≡ out.old ++ way_of linked.now figures.now.prices (main_of linked.now)) }
{
    let mut at = linked.main();
    let count = linked.image().methods().len();
    for _ in 0..count {
        match costliest_of(linked, figures, at) {
            Some(edge) => {
                let to = edge.to;
                write_bold(out, at, edge)?;
                at = to;
            }
            None => return Ok(()),
        }
    }
    Ok(())
}
