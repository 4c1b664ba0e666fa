//! What costs more than is declared of it, or is over a limit.
ghost use Rattle.std.specs.Prelude.{◌≡◌, ◌++◌, OnOk};
ghost use Rattle.aom_cost_report.specs.Over.{color_text, class_is_over, main_is_over, method_is_over, is_over};

use crate::FigureWriter;
use aom_budget::{Figures, budget_of};
use aom_image::{ClassDecl, ClassNumber, MethodNumber};
use aom_linker::Linked;
use std::alloc::AllocError;

/// Whether a price is more than what is declared, where something is.
fn is_over(price: u64, declared: Option<u32>) -> bool
    ensures { result ≡ is_over price declared }
{
    match declared {
        Some(declared) => u64::from(declared) < price,
        None => false,
    }
}

/// Whether a dispatch of an object of that class may cost more than is declared of it.
pub(crate) fn class_is_over(
    linked: &Linked,
    figures: &Figures,
    class: ClassNumber,
    declaration: &ClassDecl,
) -> bool
    ensures { result ≡ class_is_over linked.now figures.now.prices class declaration.now }
{
    let price = figures.kind_price(linked, class, declaration.kind);
    is_over(price, budget_of(declaration))
}

/// Whether it is main, and main's dispatch may cost more than is declared of it.
fn main_is_over(linked: &Linked, figures: &Figures, method: MethodNumber) -> bool
    ensures { result ≡ main_is_over linked.now figures.now.prices method }
{
    let declared = linked.image().header().budget;
    linked.main() == method && is_over(figures.main_price(linked), Some(declared))
}

/// Whether a method may come to more frames or cleanup entries than there may be, or is a main that is over its budget.
pub(crate) fn method_is_over(linked: &Linked, figures: &Figures, method: MethodNumber) -> bool
    ensures { result ≡ method_is_over linked.now figures.now method }
{
    256 < figures.frames(method)
        || 1024 < figures.entries(method)
        || main_is_over(linked, figures, method)
}

/// Red, where something is over.
#[tactic(auto, unfolding(crate::specs::Over::color_text))]
pub(crate) fn write_color(out: &mut FigureWriter, is_over: bool) -> Result<(), AllocError>
    ensures { OnOk result (out.new ≡ out.old ++ color_text is_over) }
{
    if is_over {
        out.words(b" color=red")
    } else {
        Ok(())
    }
}
