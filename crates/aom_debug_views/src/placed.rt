//! Lines behind which stands the path of an object.
ghost use Rattle.std.specs.Prelude.{◌≡◌, ◌++◌, IfErr, IfOk, IfSome, true};
ghost use Rattle.aom_machine.specs.Agreement.{AgreesInAll};
ghost use Rattle.aom_machine_state.specs.Stands.{Stands, Refines};
ghost use Rattle.aom_semantics.specs.State.{State};
ghost use Rattle.aom_transcript.specs.Sinks.{after};
ghost use Rattle.aom_transcript.specs.Text.{ended};
ghost use Rattle.aom_debug_symbols.specs.Answers.{head_by, reports_class};
ghost use Rattle.aom_debug_views.specs.Reporting.{IsCut};
ghost use Rattle.aom_debug_views.specs.Seeking.{on_text, path_behind, path_text, placed, placed_by};

use crate::seeking::path_to;
use crate::sending::send;
use crate::way::PathText;
use aom_budget::Accepted;
use aom_debug_protocol::{Answer, DebugFault};
use aom_debug_symbols::{SourceNames, classed_line};
use aom_machine_state::Parts;
use aom_transcript::Sink;

/// The way to the object of that number, where there is a text and the object lives.
pub(crate) fn path_by(
    parts: &Parts,
    accepted: &Accepted,
    names: &SourceNames,
    number: u32,
) -> Option<PathText>
    requires stands { Stands (record { image = accepted.now; parts = parts.now }) }
    requires agrees { AgreesInAll (record { image = accepted.now; parts = parts.now }) }
    ensures { (s : State) → Refines (record { image = accepted.now; parts = parts.now }) s → result ≡ path_text names.now s number }
{
    if names.has_text() {
        path_to(parts, accepted, number)
    } else {
        None
    }
}

/// Writes a path behind a space, if there is one.
fn send_path<W: Sink>(path: Option<PathText>, out: &mut W) -> Result<(), DebugFault>
    ensures ok { IfOk result (λ _. W.out out.new ≡ after (W.out out.old) (path_behind path)) }
    ensures err { IfErr result (λ fault. IsCut (path_behind path) fault (W.failed out.new) (W.out out.old) (W.out out.new)) }
{
    match path {
        Some(path) => {
            send(b" ", out)?;
            send(path.as_bytes(), out)
        }
        None => Ok(()),
    }
}

/// Writes what a line begins with, the path behind it, if there is one, and the end of the line.
fn send_placed<W: Sink>(head: &[u8], path: Option<PathText>, out: &mut W) -> Result<(), DebugFault>
    ensures ok { IfOk result (λ _. W.out out.new ≡ after (W.out out.old) (ended (head.now ++ path_behind path))) }
    ensures err { IfErr result (λ fault. IsCut (ended (head.now ++ path_behind path)) fault (W.failed out.new) (W.out out.old) (W.out out.new)) }
{
    send(head, out)?;
    send_path(path, out)?;
    send(b"\n", out)
}

/// Writes an answer that tells a class, and the path behind it.
fn report_placed<W: Sink>(
    names: &SourceNames,
    answer: Answer,
    path: Option<PathText>,
    out: &mut W,
) -> Result<(), DebugFault>
    requires { reports_class answer ≡ true }
    ensures ok { IfOk result (λ _. W.out out.new ≡ after (W.out out.old) (ended (head_by names.now answer ++ path_behind path))) }
    ensures err { IfErr result (λ fault. IsCut (ended (head_by names.now answer ++ path_behind path)) fault (W.failed out.new) (W.out out.old) (W.out out.new)) }
{
    match classed_line(names, answer) {
        Some(head) => send_placed(head.as_bytes(), path, out),
        None => Ok(()),
    }
}

/// Writes it if there is one.
pub(crate) fn report_any_placed<W: Sink>(
    names: &SourceNames,
    answer: Option<Answer>,
    path: Option<PathText>,
    out: &mut W,
) -> Result<(), DebugFault>
    requires { IfSome answer (λ a. reports_class a ≡ true) }
    ensures ok { IfOk result (λ _. W.out out.new ≡ after (W.out out.old) (placed_by names.now (placed answer path))) }
    ensures err { IfErr result (λ fault. IsCut (placed_by names.now (placed answer path)) fault (W.failed out.new) (W.out out.old) (W.out out.new)) }
{
    match answer {
        Some(answer) => report_placed(names, answer, path, out),
        None => Ok(()),
    }
}

/// Writes a line with a path, if there is one.
pub(crate) fn report_on<W: Sink>(path: Option<PathText>, out: &mut W) -> Result<(), DebugFault>
    ensures ok { IfOk result (λ _. W.out out.new ≡ after (W.out out.old) (on_text path)) }
    ensures err { IfErr result (λ fault. IsCut (on_text path) fault (W.failed out.new) (W.out out.old) (W.out out.new)) }
{
    match path {
        Some(path) => send_placed(b"on", Some(path), out),
        None => Ok(()),
    }
}
