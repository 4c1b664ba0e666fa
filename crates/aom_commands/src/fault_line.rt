//! The line of a fault, in a buffer of its own, so that no memory is taken for it.
ghost use Rattle.std.specs.Prelude.{◌≡◌, ◌+◌, ◌≤◌, [], ◌++◌, length, decimal, codes};
ghost use Rattle.aom_transcript.specs.Text.{ended};
ghost use Rattle.aom_verify.specs.Refusals.{line_of};
ghost use Rattle.aom_budget.specs.Faults.{line_of as budget_line, budget_owner_text};
ghost use Rattle.aom_commands.specs.Status.{fault_line};

use crate::Fault;
use aom_budget::{BudgetFault, BudgetOwner};
use aom_transcript::Text;
use aom_verify::Refusal;

/// No fault's line is longer.
const LONGEST: usize = 96;

/// The line by which a fault is told.
pub type FaultLine = Text<LONGEST>;

/// The line by which a fault is told, with its line feed.
pub(crate) fn fault_line(fault: &Fault) -> FaultLine
    ensures { result ≡ ended (fault_line fault.now) }
{
    let mut line = fault.line();
    line.add(b"\n");
    line
}

impl Fault {
    /// The words by which a fault is told, without a line feed.
    pub fn line(&self) -> FaultLine
        ensures text { result ≡ fault_line self.now }
        ensures short { length result ≤ 92 }
    {
        let mut line = FaultLine::new();
        add_fault(&mut line, self);
        line
    }
}

fn add_fault(line: &mut FaultLine, fault: &Fault)
    requires { line.old ≡ [] }
    ensures text { line.new ≡ fault_line fault.now }
    ensures short { length line.new ≤ 92 }
{
    match fault {
        Fault::Load(fault) => line.add_count(b"load ", fault.number()),
        Fault::Asm(fault) => {
            line.add_count(b"asm ", fault.line);
            line.add_count(b" ", fault.kind.number());
        }
        Fault::Link(fault) => line.add_count(b"link ", fault.number()),
        Fault::Verify(refusal) => add_refusal(line, refusal),
        Fault::Budget(fault) => add_budget(line, fault),
        Fault::Script(fault) => {
            line.add_count(b"script ", fault.line);
            line.add_count(b" ", fault.kind.number());
        }
        Fault::Boot(fault) => line.add_count(b"boot ", fault.number()),
        Fault::Native => line.add(b"native"),
        Fault::File => line.add(b"file"),
        Fault::Write => line.add(b"write"),
        Fault::Memory => line.add(b"memory"),
    }
}

fn add_refusal(line: &mut FaultLine, refusal: &Refusal)
    requires { line.old ≡ [] }
    ensures text { line.new ≡ line_of refusal.now }
    ensures short { length line.new ≤ 80 }
{
    match *refusal {
        Refusal::OutOfMemory => line.add(b"memory"),
        Refusal::Refused { method, place, why } => {
            line.add_count(b"verify ", method.number());
            line.add_count(b" ", place);
            line.add_count(b" ", why.number());
        }
    }
}

fn add_budget(line: &mut FaultLine, fault: &BudgetFault)
    requires { line.old ≡ [] }
    ensures text { line.new ≡ budget_line fault.now }
    ensures short { length line.new ≤ 92 }
{
    match *fault {
        BudgetFault::OverBudget {
            budget_owner,
            price,
            declared,
        } => {
            add_budget_owner(line, budget_owner);
            line.add_count(b" price ", price);
            line.add_count(b" declared ", declared);
        }
        BudgetFault::TooDeep => line.add(b"budget 2"),
        BudgetFault::CleanupTooDeep => line.add(b"budget 3"),
        BudgetFault::OutOfMemory => line.add(b"budget 4"),
    }
}

/// Adds whose budget it is.
fn add_budget_owner(line: &mut FaultLine, budget_owner: BudgetOwner)
    requires { line.old ≡ [] }
    ensures text { line.new ≡ codes "budget 1 " ++ budget_owner_text budget_owner }
    ensures short { length line.new ≤ 35 }
{
    line.add(b"budget 1 ");
    match budget_owner {
        BudgetOwner::Main => line.add(b"main"),
        BudgetOwner::Class(class) => {
            line.add_count(b"class ", class.number());
        }
    }
}
