//! Messages as they come in.
ghost use Rattle.std.specs.Prelude.{◌≡◌, IfOk, option_map, string_bytes};
ghost use Rattle.serde_json.specs.Data.{null};
ghost use Rattle.serde_json.specs.Errors.{IsMemory};
ghost use Rattle.serde_json.specs.Find.{get};
ghost use Rattle.serde_json.specs.View.{view};
ghost use Rattle.aom_language_answers.specs.declared.replies.ReplyFault.TheVariants.{Parse};
ghost use Rattle.aom_language_answers.specs.Messages.{No_message, called, is_id, is_version, message_by, message_said, message_view, method_said, not_called, says_outcome};

use crate::replies::ReplyFault;
use serde_json::{Error, Value};
use std::alloc::{AllocError, Global};

/// What a message is.
#[derive(Drop)]
pub enum Incoming {
    Request {
        id: Value,
        method: String,
        params: Value,
    },
    Notification {
        method: String,
        params: Value,
    },
    /// The answer to a request of the server's, which makes none.
    Response,
    /// No request, with the number that it has nevertheless, if it has.
    Refused {
        id: Value,
        fault: ReplyFault,
    },
}

/// What the bytes of a message say.
pub fn read_message(alloc: Global, message: &[u8]) -> Result<Incoming, AllocError>
    ensures { IfOk result (λ incoming. message_view incoming ≡ message_said message.now) }
{
    match Value::from_slice(alloc, message) {
        Ok(value) => message_of(alloc, &value),
        Err(error) => unread(&error),
    }
}

/// Bytes that are not read are no JSON, unless memory is wanted.
fn unread(error: &Error) -> Result<Incoming, AllocError>
    ensures { IfOk result (λ incoming. (IsMemory error.now → ⊥) × (message_view incoming ≡ No_message null Parse)) }
{
    if error.is_memory() {
        return Err(AllocError);
    }
    Ok(refused(Value::Null, ReplyFault::Parse))
}

/// What a value says.
fn message_of(alloc: Global, value: &Value) -> Result<Incoming, AllocError>
    ensures { IfOk result (λ incoming. message_view incoming ≡ message_by (method_said (view value.now)) (view value.now)) }
{
    let id = member_of(value, "id")?;
    let method = method_of(alloc, value)?;
    let params = member_of(value, "params")?;
    Ok(match method {
        Some(method) => called(id, method, params.unwrap_or(Value::Null)),
        None => not_called(id, says_outcome(value)),
    })
}

/// A copy of a member, if there is one.
fn member_of(value: &Value, name: &str) -> Result<Option<Value>, AllocError>
    ensures { IfOk result (λ found. option_map view found ≡ get name.now (view value.now)) }
{
    match value.get(name) {
        Some(found) => Ok(Some(found.clone()?)),
        None => Ok(None),
    }
}

/// The method that a message of the protocol calls.
fn method_of(alloc: Global, value: &Value) -> Result<Option<String>, AllocError>
    ensures { IfOk result (λ found. option_map (λ method. string_bytes method) found ≡ method_said (view value.now)) }
{
    if !is_version(value.get("jsonrpc").and_then(Value::as_str)) {
        return Ok(None);
    }
    match value.get("method").and_then(Value::as_str) {
        Some(method) => Ok(Some(String::from_str(alloc, method)?)),
        None => Ok(None),
    }
}

/// Whether a message says the protocol's own version.
fn is_version(version: Option<&str>) -> bool
    ensures { result ≡ is_version (option_map (λ text. text.now) version.entry) }
{
    match version {
        Some(version) => version == "2.0",
        None => false,
    }
}

/// Whether a message says how a request has gone.
fn says_outcome(value: &Value) -> bool
    ensures { result ≡ says_outcome (view value.now) }
{
    value.get("result").is_some() || value.get("error").is_some()
}

/// A message with a method: a request, if it has a number.
fn called(id: Option<Value>, method: String, params: Value) -> Incoming
    ensures { message_view result ≡ called (option_map view id) (string_bytes method) (view params) }
{
    match id {
        None => Incoming::Notification { method, params },
        Some(id) if is_id(&id) => Incoming::Request { id, method, params },
        Some(_) => refused(Value::Null, ReplyFault::Request),
    }
}

/// A message without a method: a response, if it has a number and says how it went.
fn not_called(id: Option<Value>, says_outcome: bool) -> Incoming
    ensures { message_view result ≡ not_called (option_map view id) says_outcome }
{
    match id {
        Some(_) if says_outcome => Incoming::Response,
        Some(id) if is_id(&id) => refused(id, ReplyFault::Request),
        _ => refused(Value::Null, ReplyFault::Request),
    }
}

fn refused(id: Value, fault: ReplyFault) -> Incoming
    ensures { message_view result ≡ No_message (view id) fault }
{
    Incoming::Refused { id, fault }
}

/// A request is told by a text or an integer.
fn is_id(id: &Value) -> bool
    ensures { result ≡ is_id (view id.now) }
{
    id.is_string() || id.is_i64() || id.is_u64()
}
