//! What is sent, as JSON.
ghost use Rattle.std.specs.Prelude.{◌≡◌, IfOk};
ghost use Rattle.serde_json.specs.View.{view};
ghost use Rattle.aom_language_answers.specs.Replies.{fault_code, fault_data, fault_text, notice_data, reply_data};

use serde_json::{Value, json};
use std::alloc::{AllocError, Global};

/// Why a message is refused.
#[derive(Clone, Copy, PartialEq, Eq, Debug)]
pub enum ReplyFault {
    /// No JSON, or no head that says how long the message is.
    Parse,
    /// JSON that is no request.
    Request,
    Method,
    Params,
    /// A request before `initialize`.
    NotInitialized,
}

impl ReplyFault {
    fn code(self) -> i64
        ensures { result ≡ fault_code self }
    {
        match self {
            ReplyFault::Parse => -32700,
            ReplyFault::Request => -32600,
            ReplyFault::Method => -32601,
            ReplyFault::Params => -32602,
            ReplyFault::NotInitialized => -32002,
        }
    }

    fn text(self) -> &'static str
        ensures { result.now ≡ fault_text self }
    {
        match self {
            ReplyFault::Parse => "this is no message",
            ReplyFault::Request => "this is no request that can be answered now",
            ReplyFault::Method => "there is no such method",
            ReplyFault::Params => "the parameters do not fit",
            ReplyFault::NotInitialized => "initialize comes first",
        }
    }
}

/// The answer to a request.
pub fn reply(alloc: Global, id: &Value, found: Value) -> Result<Value, AllocError>
    ensures { IfOk result (λ v. view v ≡ reply_data (view id.now) (view found)) }
{
    json!(in alloc; {"jsonrpc": "2.0", "id": id, "result": found})
}

/// The refusal of a request.
pub fn refuse(alloc: Global, id: &Value, fault: ReplyFault) -> Result<Value, AllocError>
    ensures { IfOk result (λ v. view v ≡ fault_data (view id.now) fault) }
{
    let (code, text) = (fault.code(), fault.text());
    json!(in alloc; {"jsonrpc": "2.0", "id": id, "error": {"code": code, "message": text}})
}

/// A notification.
pub fn notice(alloc: Global, method: &str, params: Value) -> Result<Value, AllocError>
    ensures { IfOk result (λ v. view v ≡ notice_data method.now (view params)) }
{
    json!(in alloc; {"jsonrpc": "2.0", "method": method, "params": params})
}
