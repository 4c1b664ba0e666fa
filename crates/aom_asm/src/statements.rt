//! The statements of a text, found once and read several times.
ghost use Rattle.std.specs.Prelude.{◌≡◌, IfOk};
ghost use Rattle.aom_text.specs.Text.{first_statement, other_statements};

use aom_text::{Statement, StatementCursor};
use std::alloc::{AllocError, Global};
use std::marker::Model;

/// All statements of a text that are still to be read.
pub fn list_statements<'a>(
    alloc: Global,
    mut text: StatementCursor<'a>,
) -> Result<Vec<Statement<'a>>, AllocError>
    ensures { IfOk result (λ v. v.items ≡ text.entry) }
{
    let mut statements = Vec::new(alloc);
    while let Some(statement) = text.next() {
        statements.push(statement)?;
    }
    Ok(statements)
}

/// Statements that were found, and are still to be read.
#[derive(Drop)]
pub struct Statements<'b, 'a> {
    rest: &'b [Statement<'a>],
}

impl<'b, 'a> Model for Statements<'b, 'a> {
    ghost use Rattle.std.specs.Prelude.{List};
    ghost use Rattle.aom_text.specs.declared.text.Statement.{Statement};

    ghost Value = { List Statement };

    ghost view = { λ t. t.rest.now };
}

impl<'b, 'a> Statements<'b, 'a> {
    pub fn of(found: &'b [Statement<'a>]) -> Statements<'b, 'a>
        ensures { result ≡ found.now }
    {
        Statements { rest: found }
    }

    /// The same statements, to be read on their own.
    pub fn again(&self) -> Statements<'b, 'a>
        ensures { result ≡ self.now }
    {
        Statements { rest: self.rest }
    }

    /// The next statement, which is read.
    pub fn next(&mut self) -> Option<Statement<'a>>
        ensures statement { result ≡ first_statement self.old }
        ensures rest { self.new ≡ other_statements self.old }
    {
        match self.rest {
            [] => None,
            [first, others @ ..] => {
                self.rest = others;
                Some(Statement {
                    line: first.line,
                    words: first.words.again(),
                })
            }
        }
    }
}
