//! Lines of a text, and a fault in one line with its place, as compilers write it.
ghost use Rattle.std.specs.Prelude.{◌≡◌, ◌≤◌, ◌++◌, ◌^◌, IfOk, OnOk, length};
ghost use Rattle.aom_diagnostics.specs.Lines.{budget_line, class_lines, image_line, line_of, as_line_text, lines_in, method_lines, refusal_line};

use crate::Explanation;
use crate::finding::{begins_with, image_statement, instruction_statement, method_statement};
use crate::source::budget_statement;
use aom_budget::BudgetFault;
use aom_cost_report::FigureWriter;
use aom_image::MethodNumber;
use aom_syntax::Keyword;
use aom_text::{Statement, StatementCursor};
use std::alloc::{AllocError, Global};

pub(crate) fn line_of(found: Option<Statement>) -> Option<u32>
    ensures { result ≡ line_of found.entry }
{
    match found {
        Some(statement) => Some(statement.line),
        None => None,
    }
}

/// The line of a text that holds the instruction at a place of a method. Behind the last instruction it is that of the method.
pub fn refusal_line(text: &[u8], number: MethodNumber, place: usize) -> Option<u32>
    requires { length text.now ≤ 2 ^ 20 }
    ensures { result ≡ refusal_line text.now number place }
{
    let number = number.number() as usize;
    match line_of(instruction_statement(text, number, place)) {
        Some(line) => Some(line),
        None => line_of(method_statement(text, number)),
    }
}

/// The line of a text that declares the budget that is too low.
pub fn budget_line(text: &[u8], fault: &BudgetFault) -> Option<u32>
    requires { length text.now ≤ 2 ^ 20 }
    ensures { result ≡ budget_line text.now fault.now }
{
    match *fault {
        BudgetFault::OverBudget { budget_owner, .. } => line_of(budget_statement(
            text,
            budget_owner,
        )),
        _ => None,
    }
}

/// The line of a text that declares the image.
pub fn image_line(text: &[u8]) -> Option<u32>
    requires { length text.now ≤ 2 ^ 20 }
    ensures { result ≡ image_line text.now }
{
    line_of(image_statement(text))
}

/// The lines of the statements that begin with a keyword.
fn lines_in(alloc: Global, key: Keyword, mut text: StatementCursor) -> Result<Vec<u32>, AllocError>
    ensures { IfOk result (λ lines. lines.items ≡ lines_in key text.entry) }
{
    let mut lines = Vec::new(alloc);
    while let Some(statement) = text.next() {
        if begins_with(key, &statement.words) {
            lines.push(statement.line)?;
        }
    }
    Ok(lines)
}

/// The lines that declare a text's classes, that of class 0 first.
pub fn class_lines(alloc: Global, text: &[u8]) -> Result<Vec<u32>, AllocError>
    requires { length text.now ≤ 2 ^ 20 }
    ensures { IfOk result (λ lines. lines.items ≡ class_lines text.now) }
{
    lines_in(alloc, Keyword::Class, StatementCursor::of(text))
}

/// The lines that declare a text's methods, that of method 0 first.
pub fn method_lines(alloc: Global, text: &[u8]) -> Result<Vec<u32>, AllocError>
    requires { length text.now ≤ 2 ^ 20 }
    ensures { IfOk result (λ lines. lines.items ≡ method_lines text.now) }
{
    lines_in(alloc, Keyword::Method, StatementCursor::of(text))
}

/// Writes a fault in one line: the name of the file, the number of the line where there is one, how the fault is told, and what
/// it is called.
pub fn write_as_line(
    out: &mut FigureWriter,
    file: &[u8],
    line: Option<u32>,
    reported: &[u8],
    entry: &Explanation,
) -> Result<(), AllocError>
    ensures { OnOk result (out.new ≡ out.old ++ as_line_text file.now line reported.now entry.now.name) }
{
    out.words(file)?;
    out.place(line)?;
    out.words(b": ")?;
    out.words(reported)?;
    out.words(b": ")?;
    entry.write_name(out)
}
