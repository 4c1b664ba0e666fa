//! How an instruction leads from its method to another.
ghost use Rattle.std.specs.Prelude.{◌≡◌, ◌++◌, OnOk};
ghost use Rattle.aom_cost_report.specs.Edges.{arrow, edge_of, edge_line, edge_text, code_text, kind_text};

use crate::FigureWriter;
use aom_image::{Instr, MethodNumber};
use aom_instructions::{Action, CallMode};
use std::alloc::AllocError;

#[derive(Clone, Copy)]
pub(crate) enum EdgeKind {
    Call,
    /// A call under a trap.
    Trap,
    /// An operation that is pushed on the cleanup stack.
    Operation,
}

#[derive(Clone, Copy)]
pub(crate) struct Edge {
    pub(crate) kind: EdgeKind,
    pub(crate) to: MethodNumber,
}

impl Edge {
    /// The method that an instruction leads to, if it leads to one.
    pub(crate) fn of(instr: Instr) -> Option<Edge>
        ensures { result ≡ edge_of instr }
    {
        match &instr.action() {
            Action::Call(CallMode::Plain, _, to, _, _) => Some(Edge {
                kind: EdgeKind::Call,
                to: *to,
            }),
            Action::Call(CallMode::Trapped, _, to, _, _) => Some(Edge {
                kind: EdgeKind::Trap,
                to: *to,
            }),
            Action::PushOperation(_, to) => Some(Edge {
                kind: EdgeKind::Operation,
                to: *to,
            }),
            _ => None,
        }
    }
}

fn words_of(kind: EdgeKind) -> &'static [u8]
    ensures { result.now ≡ kind_text kind }
{
    match kind {
        EdgeKind::Call => b" [key=call",
        EdgeKind::Trap => b" [key=trap style=dashed",
        EdgeKind::Operation => b" [key=operation style=dotted",
    }
}

/// An edge without its end.
pub(crate) fn write_arrow(
    out: &mut FigureWriter,
    from: MethodNumber,
    edge: Edge,
) -> Result<(), AllocError>
    ensures { OnOk result (out.new ≡ out.old ++ arrow from edge) }
{
    out.count(b"m", u64::from(from.number()))?;
    out.count(b" -> m", u64::from(edge.to.number()))?;
    out.words(words_of(edge.kind))
}

fn write_edge(out: &mut FigureWriter, from: MethodNumber, edge: Edge) -> Result<(), AllocError>
    ensures { OnOk result (out.new ≡ out.old ++ edge_line from edge) }
{
    write_arrow(out, from, edge)?;
    out.words(b"]\n")
}

fn write_instruction(
    out: &mut FigureWriter,
    from: MethodNumber,
    instr: Instr,
) -> Result<(), AllocError>
    ensures { OnOk result (out.new ≡ out.old ++ edge_text from (edge_of instr)) }
{
    match Edge::of(instr) {
        Some(edge) => write_edge(out, from, edge),
        None => Ok(()),
    }
}

/// The edges of a method's code.
pub(crate) fn write_code(
    out: &mut FigureWriter,
    from: MethodNumber,
    code: &[Instr],
) -> Result<(), AllocError>
    ensures { OnOk result (out.new ≡ out.old ++ code_text from code.now) }
{
    for instr in code {
        write_instruction(out, from, *instr)?;
    }
    Ok(())
}
