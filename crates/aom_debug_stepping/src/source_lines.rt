//! Whether a run has left a line of a source.
ghost use Rattle.std.specs.Prelude.{◌≡◌, length};
ghost use Rattle.aom_run.specs.Calls.{Stands, RefinesWithNatives};
ghost use Rattle.aom_semantics.specs.State.{State};
ghost use Rattle.aom_debug_symbols.specs.NameLists.{line_at};
ghost use Rattle.aom_debug_stepping.specs.Next.{next_of, spot_of};
ghost use Rattle.aom_debug_stepping.specs.SourceLines.{has_left, is_other, leaves_at, scope_at, scope_of};

use crate::spot_at;
use aom_debug_protocol::CodeLocation;
use aom_debug_symbols::SourceNames;
use aom_run::HostedMachine;

/// So many lines of a source.
#[derive(Drop)]
pub struct LineSteps<'a> {
    pub names: SourceNames<'a>,
    /// Whether the lines of a method that is called count.
    pub enters: bool,
    pub count: u32,
}

/// A line of a source at which a run is, and how many tasks are at hand there.
#[derive(Drop)]
pub struct LineScope<'a> {
    pub names: SourceNames<'a>,
    /// None where no instruction is next.
    pub line: Option<u32>,
    pub depth: usize,
    /// Whether the lines of a method that is called count.
    pub enters: bool,
}

/// The line that is told for what is next, with so many tasks at hand.
fn scope_by<'a>(
    names: &SourceNames<'a>,
    enters: bool,
    depth: usize,
    next: Option<CodeLocation>,
) -> LineScope<'a>
    ensures { result ≡ scope_of names.now enters next depth }
{
    match next {
        Some(spot) => LineScope {
            names: names.copy(),
            line: names.line(spot),
            depth,
            enters,
        },
        None => LineScope {
            names: names.copy(),
            line: None,
            depth,
            enters: true,
        },
    }
}

/// The line at which a run is.
pub(crate) fn line_scope<'a>(
    machine: &HostedMachine,
    names: &SourceNames<'a>,
    enters: bool,
) -> LineScope<'a>
    requires { Stands machine.now }
    ensures { (s : State) → RefinesWithNatives machine.now s → result ≡ scope_at machine.now.core.image names.now enters s }
{
    let parts = machine.core.parts();
    let next = spot_at(parts, machine.core.accepted().linked());
    scope_by(names, enters, parts.stack.len(), next)
}

/// Whether a line is another than at first. Any is where there was none.
fn is_other(first: Option<u32>, now: Option<u32>) -> bool
    ensures { result ≡ is_other first now }
{
    match (first, now) {
        (Some(first), Some(now)) => first != now,
        _ => true,
    }
}

/// Whether an instruction that is next, with so many tasks at hand, is no more of that line.
fn leaves_at(scope: &LineScope, tasks: usize, spot: CodeLocation) -> bool
    ensures { result ≡ leaves_at scope.now tasks (line_at scope.now.names spot) }
{
    if tasks > scope.depth {
        return scope.enters;
    }
    tasks < scope.depth || is_other(scope.line, scope.names.line(spot))
}

/// Whether an instruction is next that is no more of that line.
pub(crate) fn has_left(machine: &HostedMachine, scope: &LineScope) -> bool
    requires { Stands machine.now }
    ensures { (s : State) → RefinesWithNatives machine.now s → result ≡ has_left scope.now (length s.tasks) (spot_of (next_of machine.now.core.image s)) }
{
    let parts = machine.core.parts();
    match spot_at(parts, machine.core.accepted().linked()) {
        Some(spot) => leaves_at(scope, parts.stack.len(), spot),
        None => false,
    }
}
