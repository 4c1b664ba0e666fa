//! The way from a text to its image.
ghost use Rattle.std.specs.Prelude.{◌≡◌, ◌≢◌, ◌≤◌, ◌^◌, length, IfOk, IfErr, Ok, Err, [], false, true};
ghost use Rattle.aom_text.specs.Text.{statements};
ghost use Rattle.aom_text.specs.declared.fault.AsmFaultKind.TheVariants.{OutOfMemory};
ghost use Rattle.aom_syntax.specs.Reading.{ReadsOrNoMemory};
ghost use Rattle.aom_asm.specs.Denoted.{at_line, Answers, read_rest, read_after, read_program, read_statements, scope_of, last_line_of, denoted, image_of};

use crate::names::declared_names;
use crate::program::ParsedProgram;
use crate::statements::{Statements, list_statements};
use aom_image::{ClassDecl, Image, Items};
use aom_syntax::{Keyword, Scope, WordReader};
use aom_text::{AsmFault, AsmFaultKind, Statement, StatementCursor, last_line};
use std::alloc::{AllocError, Global};

/// The most bytes of a text.
const MAX_BYTES: usize = 1 << 20;

fn at_line<T>(line: u32, said: Result<T, AsmFaultKind>) -> Result<T, AsmFault>
    ensures { result ≡ at_line line said }
{
    match said {
        Ok(value) => Ok(value),
        Err(kind) => Err(AsmFault { line, kind }),
    }
}

/// Reads all statements of a text.
fn read_program<'a>(
    alloc: Global,
    mut text: Statements<'_, 'a>,
    last: u32,
    scope: &Scope,
) -> Result<ParsedProgram<'a>, AsmFault>
    ensures { Answers (λ p. p) result (read_program last scope.now text.entry) }
{
    match text.next() {
        Some(first) => read_after(alloc, first, text, last, scope),
        None => Err(AsmFault {
            line: last,
            kind: AsmFaultKind::BadShape,
        }),
    }
}

/// Reads the first statement, and those after it.
fn read_after<'a>(
    alloc: Global,
    first: Statement<'a>,
    text: Statements<'_, 'a>,
    last: u32,
    scope: &Scope,
) -> Result<ParsedProgram<'a>, AsmFault>
    ensures { Answers (λ p. p) result (read_after last scope.now first.entry text.entry) }
{
    let opened = ParsedProgram::open(alloc, scope, WordReader::of(first.words));
    let mut program = at_line(first.line, opened)?;
    match read_rest(alloc, text, last, scope, &mut program) {
        Ok(()) => Ok(program),
        Err(fault) => {
            drop(program);
            Err(fault)
        }
    }
}

/// Reads the statements after others.
fn read_rest<'a>(
    alloc: Global,
    mut text: Statements<'_, 'a>,
    last: u32,
    scope: &Scope,
    program: &mut ParsedProgram<'a>,
) -> Result<(), AsmFault>
    ensures { Answers (λ _. program.new) result (read_rest last scope.now program.old text.entry) }
{
    while let Some(statement) = text.next() {
        let reader = WordReader::of(statement.words);
        at_line(statement.line, program.take(alloc, scope, reader, &text))?;
    }
    at_line(last, program.check_closed())
}

/// The names of a text, which are not told apart yet.
fn scope_of<'a>(alloc: Global, text: &Statements<'_, 'a>) -> Result<Scope<'a>, AllocError>
    ensures { IfOk result (λ s. s ≡ scope_of false text.now []) }
{
    let classes = declared_names(alloc, text.again(), Keyword::Class)?;
    let methods = declared_names(alloc, text.again(), Keyword::Method)?;
    Ok(Scope {
        is_strict: false,
        classes,
        methods,
        kinds: Items::from_vec(Vec::new(alloc)),
    })
}

fn named<'a>(alloc: Global, text: &Statements<'_, 'a>) -> Result<Scope<'a>, AsmFaultKind>
    ensures { ReadsOrNoMemory (λ s. s) result (Ok (scope_of false text.now [])) }
{
    Ok(scope_of(alloc, text)?)
}

/// Reads the statements first, whatever the names, and then with the names.
fn read_statements<'a>(
    alloc: Global,
    text: Statements<'_, 'a>,
    last: u32,
) -> Result<ParsedProgram<'a>, AsmFault>
    ensures { Answers image_of result (read_statements last text.entry) }
{
    let scope = at_line(last, named(alloc, &text))?;
    let first = read_program(alloc, text.again(), last, &scope)?;
    read_again(alloc, scope, first.into_classes(), text, last)
}

/// Reads the statements with the names told apart, and with the classes that were read before.
fn read_again<'a>(
    alloc: Global,
    mut scope: Scope<'a>,
    kinds: Items<ClassDecl>,
    text: Statements<'_, 'a>,
    last: u32,
) -> Result<ParsedProgram<'a>, AsmFault>
    ensures { Answers (λ p. p) result (read_program last (record scope.entry { is_strict = true; kinds = kinds }) text.entry) }
{
    scope.is_strict = true;
    scope.kinds = kinds;
    let program = read_program(alloc, text, last, &scope);
    drop(scope);
    program
}

/// The last line of a text, and 1 where there is none.
fn last_line_of(text: &[u8]) -> u32
    requires { length text.now ≤ 2 ^ 20 }
    ensures { result ≡ last_line_of text.now }
{
    last_line(text).max(1)
}

/// The statements of a text.
fn found<'a>(alloc: Global, text: &'a [u8]) -> Result<Vec<Statement<'a>>, AsmFaultKind>
    requires { length text.now ≤ 2 ^ 20 }
    ensures { ReadsOrNoMemory (λ v. v.items) result (Ok (statements text.now)) }
{
    Ok(list_statements(alloc, StatementCursor::of(text))?)
}

/// Reads a text that is not too long.
fn read_text<'a>(alloc: Global, text: &'a [u8]) -> Result<ParsedProgram<'a>, AsmFault>
    ensures { Answers image_of result (denoted text.now) }
{
    if text.len() > MAX_BYTES {
        return Err(AsmFault {
            line: 1,
            kind: AsmFaultKind::LimitPassed,
        });
    }
    let last = last_line_of(text);
    let statements = at_line(last, found(alloc, text))?;
    read_statements(alloc, Statements::of(statements.as_slice()), last)
}

/// The image that a text denotes. A text that denotes none has a fault, with the line of the first.
pub fn assemble(alloc: Global, text: &[u8]) -> Result<Image, AsmFault>
    ensures image { IfOk result (λ i. denoted text.now ≡ Ok i) }
    ensures fault { IfErr result (λ e. e.kind ≢ OutOfMemory → denoted text.now ≡ Err e) }
{
    let image = read_text(alloc, text)?.into_image();
    Ok(image)
}
