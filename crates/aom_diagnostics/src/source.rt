//! Where a fault is in the text that an image is of.
ghost use Rattle.std.specs.Prelude.{◌≡◌, ◌≤◌, ◌++◌, ◌^◌, OnOk, length};
ghost use Rattle.aom_diagnostics.specs.Sources.{budget_statement, declared_text, found_text, source_text, spaced, statement_text};

use crate::finding::{class_statement, image_statement, instruction_statement, method_statement};
use aom_budget::{BudgetFault, BudgetOwner};
use aom_cost_report::FigureWriter;
use aom_image::MethodNumber;
use aom_text::{Statement, WordCursor};
use std::alloc::AllocError;

/// Writes words, each behind a space.
fn write_words(out: &mut FigureWriter, words: WordCursor) -> Result<(), AllocError>
    ensures { OnOk result (out.new ≡ out.old ++ spaced words.entry) }
{
    let mut words = words;
    while let Some(word) = words.next() {
        out.words(b" ")?;
        out.words(word)?;
    }
    Ok(())
}

fn write_statement(
    out: &mut FigureWriter,
    lead: &[u8],
    statement: Statement,
) -> Result<(), AllocError>
    ensures { OnOk result (out.new ≡ out.old ++ statement_text lead.now statement.entry) }
{
    out.count(lead, u64::from(statement.line))?;
    out.words(b":")?;
    write_words(out, statement.words)?;
    out.words(b"\n")
}

/// Writes a statement with its line, where there is one.
pub(crate) fn write_found(
    out: &mut FigureWriter,
    lead: &[u8],
    found: Option<Statement>,
) -> Result<(), AllocError>
    ensures { OnOk result (out.new ≡ out.old ++ found_text lead.now found.entry) }
{
    match found {
        Some(statement) => write_statement(out, lead, statement),
        None => Ok(()),
    }
}

/// Writes the statement of a text that declares a method, and the one that holds the instruction at a place of it.
pub fn write_source(
    out: &mut FigureWriter,
    text: &[u8],
    number: MethodNumber,
    place: usize,
) -> Result<(), AllocError>
    requires { length text.now ≤ 2 ^ 20 }
    ensures { OnOk result (out.new ≡ out.old ++ source_text text.now number place) }
{
    let number = number.number() as usize;
    write_found(out, b"In line ", method_statement(text, number))?;
    write_found(out, b"At line ", instruction_statement(text, number, place))
}

/// The statement of a text that declares a budget.
pub(crate) fn budget_statement(text: &[u8], budget_owner: BudgetOwner) -> Option<Statement>
    requires { length text.now ≤ 2 ^ 20 }
    ensures { result ≡ budget_statement text.now budget_owner }
{
    match budget_owner {
        BudgetOwner::Main => image_statement(text),
        BudgetOwner::Class(class) => class_statement(text, class.number() as usize),
    }
}

/// Writes the statement of a text that declares the budget that is too low.
pub fn write_declared(
    out: &mut FigureWriter,
    text: &[u8],
    fault: &BudgetFault,
) -> Result<(), AllocError>
    requires { length text.now ≤ 2 ^ 20 }
    ensures { OnOk result (out.new ≡ out.old ++ declared_text text.now fault.now) }
{
    match *fault {
        BudgetFault::OverBudget { budget_owner, .. } => {
            write_found(
                out,
                b"Declared in line ",
                budget_statement(text, budget_owner),
            )
        }
        _ => Ok(()),
    }
}
