//! What parameters say of documents.
ghost use Rattle.std.specs.Prelude.{◌≡◌, codes, option_and_then, option_map};
ghost use Rattle.serde_json.specs.Find.{as_str, pointer};
ghost use Rattle.serde_json.specs.View.{items_view, view};
ghost use Rattle.aom_language_answers.specs.Parameters.{changed_text, last_text, number_said, position_said, whole_text, whole_texts};

use crate::position::Position;
use serde_json::Value;

/// The name of the document that parameters are about.
pub fn uri_of(params: &Value) -> Option<&str>
    ensures { option_map (λ uri. uri.now) result ≡ option_and_then as_str (pointer (codes "/textDocument/uri") (view params.now)) }
{
    params.pointer("/textDocument/uri").and_then(Value::as_str)
}

/// The text of a document that is opened.
pub fn opened_text(params: &Value) -> Option<&str>
    ensures { option_map (λ text. text.now) result ≡ option_and_then as_str (pointer (codes "/textDocument/text") (view params.now)) }
{
    params.pointer("/textDocument/text").and_then(Value::as_str)
}

/// The text of a document behind its changes: the last one's. None, where one is a part or has no text, or where there are none.
pub fn changed_text(params: &Value) -> Option<&str>
    ensures { option_map (λ text. text.now) result ≡ changed_text (view params.now) }
{
    let changes = params.get("contentChanges").and_then(Value::as_array)?;
    last_text(changes)
}

/// The last text of some changes, if each has one.
fn last_text(changes: &[Value]) -> Option<&str>
    ensures { option_map (λ text. text.now) result ≡ last_text (whole_texts (items_view changes.now)) }
{
    let mut text = None;
    for change in changes {
        text = Some(whole_text(change)?);
    }
    text
}

/// The text of a change that is no part.
fn whole_text(change: &Value) -> Option<&str>
    ensures { option_map (λ text. text.now) result ≡ whole_text (view change.now) }
{
    if change.get("range").is_some() {
        return None;
    }
    change.get("text").and_then(Value::as_str)
}

/// The position that parameters name.
pub fn position_of(params: &Value) -> Option<Position>
    ensures { result ≡ position_said (number_said (codes "/position/line") (view params.now)) (number_said (codes "/position/character") (view params.now)) }
{
    let line = number_at(params, "/position/line")?;
    let character = number_at(params, "/position/character")?;
    Some(Position { line, character })
}

/// The number at a place of parameters.
fn number_at(params: &Value, path: &str) -> Option<u64>
    ensures { result ≡ number_said path.now (view params.now) }
{
    params.pointer(path).and_then(Value::as_u64)
}
