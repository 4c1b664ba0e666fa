//! What an inspection writes.
ghost use Rattle.std.specs.Prelude.{◌≡◌, IfErr, IfNone, IfOk, IfSome};
ghost use Rattle.aom_transcript.specs.Text.{ended};
ghost use Rattle.aom_transcript.specs.Sinks.{after};
ghost use Rattle.aom_debug_protocol.specs.Answers.{answer_text};
ghost use Rattle.aom_diagnostics.specs.Sources.{spaced};
ghost use Rattle.aom_debug_symbols.specs.Answers.{answer_by, behind, head_by, lead_text, shown_at, shown_spot, statement_text};
ghost use Rattle.aom_debug_views.specs.Reporting.{IsCut, answers_by, answers_text, listed, tail_text};

use aom_debug_protocol::{Answer, DebugFault, line_of};
use aom_debug_symbols::{NamedLine, SourceNames, named_line, shown_statement};
use aom_text::{Statement, WordCursor};
use aom_transcript::{Sink, Text, write_text};

/// What stands before the words of a statement.
type Lead = Text<32>;

/// Writes a text. It is a write fault where the sink fails.
pub fn send<W: Sink>(text: &[u8], out: &mut W) -> Result<(), DebugFault>
    ensures ok { IfOk result (λ _. W.out out.new ≡ after (W.out out.old) text.now) }
    ensures err { IfErr result (λ fault. IsCut text.now fault (W.failed out.new) (W.out out.old) (W.out out.new)) }
{
    write_text(out, text);
    if out.has_failed() {
        return Err(DebugFault::WriteFault);
    }
    Ok(())
}

/// Writes an answer on a line, by numbers alone. It is a write fault where the sink fails.
pub fn report<W: Sink>(answer: Answer, out: &mut W) -> Result<(), DebugFault>
    ensures ok { IfOk result (λ _. W.out out.new ≡ after (W.out out.old) (ended (answer_text answer))) }
    ensures err { IfErr result (λ fault. IsCut (ended (answer_text answer)) fault (W.failed out.new) (W.out out.old) (W.out out.new)) }
{
    let line = line_of(answer);
    send(line.as_bytes(), out)
}

/// Writes it if there is one.
pub fn report_any<W: Sink>(answer: Option<Answer>, out: &mut W) -> Result<(), DebugFault>
    ensures ok { IfOk result (λ _. W.out out.new ≡ after (W.out out.old) (answers_text (listed answer))) }
    ensures err { IfErr result (λ fault. IsCut (answers_text (listed answer)) fault (W.failed out.new) (W.out out.old) (W.out out.new)) }
{
    match answer {
        Some(answer) => report(answer, out),
        None => Ok(()),
    }
}

/// Writes words, each behind a space.
fn send_words<W: Sink>(mut words: WordCursor, out: &mut W) -> Result<(), DebugFault>
    ensures ok { IfOk result (λ _. W.out out.new ≡ after (W.out out.old) (spaced words.entry)) }
    ensures err { IfErr result (λ fault. IsCut (spaced words.entry) fault (W.failed out.new) (W.out out.old) (W.out out.new)) }
{
    while let Some(word) = words.next() {
        send(b" ", out)?;
        send(word, out)?;
    }
    Ok(())
}

/// Writes what stands before the words of a statement.
fn send_lead<W: Sink>(line: u32, out: &mut W) -> Result<(), DebugFault>
    ensures ok { IfOk result (λ _. W.out out.new ≡ after (W.out out.old) (lead_text line)) }
    ensures err { IfErr result (λ fault. IsCut (lead_text line) fault (W.failed out.new) (W.out out.old) (W.out out.new)) }
{
    let mut lead = Lead::new();
    lead.add_count(b" line ", line);
    lead.add(b":");
    send(lead.as_bytes(), out)
}

/// Writes the line of a statement, and its words.
fn send_statement<W: Sink>(statement: Statement, out: &mut W) -> Result<(), DebugFault>
    ensures ok { IfOk result (λ _. W.out out.new ≡ after (W.out out.old) (statement_text statement.entry)) }
    ensures err { IfErr result (λ fault. IsCut (statement_text statement.entry) fault (W.failed out.new) (W.out out.old) (W.out out.new)) }
{
    send_lead(statement.line, out)?;
    send_words(statement.words, out)
}

/// Writes the statement, if there is one, and the end of the line.
fn send_tail<W: Sink>(found: Option<Statement>, out: &mut W) -> Result<(), DebugFault>
    ensures ok { IfOk result (λ _. W.out out.new ≡ after (W.out out.old) (tail_text found.entry)) }
    ensures err { IfErr result (λ fault. IsCut (tail_text found.entry) fault (W.failed out.new) (W.out out.old) (W.out out.new)) }
{
    match found {
        Some(statement) => {
            send_statement(statement, out)?;
            send(b"\n", out)
        }
        None => send(b"\n", out),
    }
}

/// Writes what a line begins with, and the statement behind it, if there is one, and ends it.
fn send_shown<W: Sink>(head: &[u8], found: Option<Statement>, out: &mut W) -> Result<(), DebugFault>
    ensures ok { IfOk result (λ _. W.out out.new ≡ after (W.out out.old) (ended (behind head.now found.entry))) }
    ensures err { IfErr result (λ fault. IsCut (ended (behind head.now found.entry)) fault (W.failed out.new) (W.out out.old) (W.out out.new)) }
{
    send(head, out)?;
    send_tail(found, out)
}

/// What the line of an answer begins with, where it tells a class, a method or a fault.
fn head_of(names: &SourceNames, answer: &Answer) -> Option<NamedLine>
    ensures some { IfSome result (λ line. line ≡ head_by names.now answer.now) }
    ensures none { IfNone result (answer_by names.now answer.now ≡ answer_text answer.now) }
{
    named_line(names, *answer)
}

/// The statement that stands behind it.
fn statement_of<'a>(names: &SourceNames<'a>, answer: &Answer) -> Option<Statement<'a>>
    ensures { result ≡ shown_at names.now (shown_spot answer.now) }
{
    shown_statement(names, *answer)
}

/// Writes an answer by the names and the lines of a text, or as ever.
fn report_told<W: Sink>(names: &SourceNames, answer: &Answer, out: &mut W) -> Result<(), DebugFault>
    ensures ok { IfOk result (λ _. W.out out.new ≡ after (W.out out.old) (ended (answer_by names.now answer.now))) }
    ensures err { IfErr result (λ fault. IsCut (ended (answer_by names.now answer.now)) fault (W.failed out.new) (W.out out.old) (W.out out.new)) }
{
    match head_of(names, answer) {
        Some(head) => send_shown(head.as_bytes(), statement_of(names, answer), out),
        None => report(*answer, out),
    }
}

/// Writes an answer on a line by the names and the lines of a text, where there is one.
pub fn report_by<W: Sink>(
    names: &SourceNames,
    answer: Answer,
    out: &mut W,
) -> Result<(), DebugFault>
    ensures ok { IfOk result (λ _. W.out out.new ≡ after (W.out out.old) (ended (answer_by names.now answer))) }
    ensures err { IfErr result (λ fault. IsCut (ended (answer_by names.now answer)) fault (W.failed out.new) (W.out out.old) (W.out out.new)) }
{
    report_told(names, &answer, out)
}

/// Writes it if there is one.
pub fn report_any_by<W: Sink>(
    names: &SourceNames,
    answer: Option<Answer>,
    out: &mut W,
) -> Result<(), DebugFault>
    ensures ok { IfOk result (λ _. W.out out.new ≡ after (W.out out.old) (answers_by names.now (listed answer))) }
    ensures err { IfErr result (λ fault. IsCut (answers_by names.now (listed answer)) fault (W.failed out.new) (W.out out.old) (W.out out.new)) }
{
    match answer {
        Some(answer) => report_by(names, answer, out),
        None => Ok(()),
    }
}
