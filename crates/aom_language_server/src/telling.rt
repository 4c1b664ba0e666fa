//! What compiling tells of a document.
ghost use Rattle.std.specs.Prelude.{◌≡◌, ◌<◌, ◌^◌, IfOk, length};
ghost use Rattle.serde_json.specs.View.{view};
ghost use Rattle.aom_language_server.specs.Telling.{AreFaults, IsHover, fault_data, faults_data};

use aom_language_answers::{Position, Ruler, diagnostic, hover, text_or_none};
use aom_source_commands::{Diagnosis, diagnose, notes_of_source};
use aom_source_names::Names;
use serde_json::Value;
use std::alloc::{AllocError, Global};

/// The most bytes of a text that is looked at.
const MOST_BYTES: usize = 1 << 22;

/// The faults of a text.
pub fn diagnostics(alloc: Global, text: &str) -> Result<Value, AllocError>
    ensures { IfOk result (λ v. AreFaults text.now (view v)) }
{
    let source = text.as_bytes();
    let faults = diagnose(alloc, source)?;
    list_of(alloc, &source[..source.len().min(MOST_BYTES)], &faults)
}

/// Faults of a text, each at its place.
fn list_of(alloc: Global, source: &[u8], faults: &[Diagnosis]) -> Result<Value, AllocError>
    requires { length source.now < 2 ^ 32 }
    ensures { IfOk result (λ v. view v ≡ faults_data source.now faults.now) }
{
    let mut ruler = Ruler::of(source);
    let mut list: Vec<Value> = Vec::new(alloc);
    for fault in faults {
        list.push(fault_of(alloc, &mut ruler, source, fault)?)?;
    }
    Ok(Value::Array(list))
}

/// A fault at its place.
fn fault_of(
    alloc: Global,
    ruler: &mut Ruler<'_>,
    source: &[u8],
    fault: &Diagnosis,
) -> Result<Value, AllocError>
    requires { length source.now < 2 ^ 32 }
    ensures same { ruler.new ≡ ruler.old }
    ensures is { IfOk result (λ v. view v ≡ fault_data ruler.old source.now fault.now) }
{
    let message = text_or_none(&fault.message);
    diagnostic(alloc, ruler, source, fault.place.at, fault.fault, message)
}

/// What is told of a name and of its line.
pub fn told_at(
    alloc: Global,
    names: &Names<'_, '_>,
    ruler: &mut Ruler<'_>,
    wanted: Position,
) -> Result<Value, AllocError>
    ensures same { ruler.new ≡ ruler.old }
    ensures is { IfOk result (λ v. IsHover names.now ruler.old wanted (view v)) }
{
    match notes_of_source(alloc, names.tokens().source())? {
        Some(notes) => hover(alloc, names, ruler, wanted, notes.as_slice()),
        None => hover(alloc, names, ruler, wanted, &[]),
    }
}
