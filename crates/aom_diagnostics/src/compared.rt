//! What is compared where an image may come to too much.
ghost use Rattle.std.specs.Prelude.{◌≡◌, ◌++◌, OnOk};
ghost use Rattle.aom_diagnostics.specs.Compared.{compared_text, over_text};

use aom_budget::{BudgetFault, BudgetOwner};
use aom_cost_report::FigureWriter;
use std::alloc::AllocError;

/// Writes what a dispatch may take, and what is declared of it.
fn write_over(
    out: &mut FigureWriter,
    budget_owner: BudgetOwner,
    price: u64,
    declared: u32,
) -> Result<(), AllocError>
    ensures { OnOk result (out.new ≡ out.old ++ over_text budget_owner price declared) }
{
    out.words(b"Compared: ")?;
    out.budget_owner(budget_owner)?;
    out.count(b" may take ", price)?;
    out.count(b" steps, and declared are ", u64::from(declared))?;
    out.words(b"\n")
}

/// Writes what has been compared.
pub fn write_compared(out: &mut FigureWriter, fault: &BudgetFault) -> Result<(), AllocError>
    ensures { OnOk result (out.new ≡ out.old ++ compared_text fault.now) }
{
    match *fault {
        BudgetFault::OverBudget {
            budget_owner,
            price,
            declared,
        } => write_over(out, budget_owner, price, declared),
        BudgetFault::TooDeep => out.words(b"Compared: the frames of each method, with 256\n"),
        BudgetFault::CleanupTooDeep => {
            out.words(b"Compared: the cleanup entries of each method, with 1024\n")
        }
        BudgetFault::OutOfMemory => Ok(()),
    }
}
