//! What is asked of a document, and what is found.
ghost use Rattle.std.specs.Prelude.{◌≡◌, ◌≢◌, ◌^◌, IfOk, option_map};
ghost use Rattle.serde_json.specs.View.{view};
ghost use Rattle.aom_source_tokens.specs.declared.fault.TokenFaultKind.TheVariants.{OutOfMemory};
ghost use Rattle.aom_language_server.specs.Queries.{IsFound, IsFoundAt, IsFoundIn, IsRenaming, new_name_said, position_asked, query_of, unread};
ghost use Rattle.aom_language_server.specs.Telling.{up_to};

use crate::telling::told_at;
use aom_language_answers::{
    Documents, Position, Ruler, definition, position_of, prepare, rename, symbols, uri_of,
};
use aom_source_names::Names;
use aom_source_tokens::{TokenFaultKind, Tokens};
use serde_json::Value;
use std::alloc::{AllocError, Global};

/// What is asked of a document.
#[derive(Clone, Copy, PartialEq, Eq, Debug)]
pub enum Query {
    Symbols,
    Definition,
    Hover,
    PrepareRename,
    Rename,
}

impl Query {
    /// What a method asks.
    pub fn of(method: &str) -> Option<Query>
        ensures { result ≡ query_of method.now }
    {
        match method {
            "textDocument/documentSymbol" => Some(Query::Symbols),
            "textDocument/definition" => Some(Query::Definition),
            "textDocument/hover" => Some(Query::Hover),
            "textDocument/prepareRename" => Some(Query::PrepareRename),
            "textDocument/rename" => Some(Query::Rename),
            _ => None,
        }
    }
}

/// What is found in the open documents. Nothing, where the parameters name none of them, or no position.
pub fn found(
    alloc: Global,
    query: Query,
    params: &Value,
    documents: &Documents,
) -> Result<Option<Value>, AllocError>
    ensures { IfOk result (λ found. IsFound query (view params.now) documents.now (option_map view found)) }
{
    let Some(uri) = uri_of(params) else {
        return Ok(None);
    };
    match documents.text(uri) {
        Some(text) => found_in(alloc, query, params, uri, text),
        None => Ok(None),
    }
}

/// What is found in the document of a name.
fn found_in(
    alloc: Global,
    query: Query,
    params: &Value,
    uri: &str,
    text: &str,
) -> Result<Option<Value>, AllocError>
    ensures { IfOk result (λ found. IsFoundIn query (view params.now) uri.now text.now (position_asked query (view params.now)) (option_map view found)) }
{
    let Some(position) = position_asked(query, params) else {
        return Ok(None);
    };
    match Tokens::of(alloc, text.as_bytes()) {
        Ok(tokens) => found_at(alloc, query, params, uri, &tokens, position),
        Err(fault) => unread(alloc, query, fault.kind),
    }
}

/// The position that is asked about. The symbols are those of the whole document.
fn position_asked(query: Query, params: &Value) -> Option<Position>
    ensures { result ≡ position_asked query (view params.now) }
{
    let position = position_of(params);
    match query {
        Query::Symbols => Some(position.unwrap_or(Position {
            line: 0,
            character: 0,
        })),
        _ => position,
    }
}

/// What is found in a text that has no tokens. Want of memory says nothing of a text.
fn unread(alloc: Global, query: Query, fault: TokenFaultKind) -> Result<Option<Value>, AllocError>
    ensures { IfOk result (λ found. (fault ≢ OutOfMemory) × (option_map view found ≡ unread query)) }
{
    if let TokenFaultKind::OutOfMemory = fault {
        return Err(AllocError);
    }
    Ok(match query {
        Query::Symbols => Some(Value::Array(Vec::new(alloc))),
        Query::Rename => None,
        _ => Some(Value::Null),
    })
}

/// What is found in a text by its tokens.
fn found_at(
    alloc: Global,
    query: Query,
    params: &Value,
    uri: &str,
    tokens: &Tokens<'_>,
    wanted: Position,
) -> Result<Option<Value>, AllocError>
    ensures { IfOk result (λ found. IsFoundAt query (view params.now) uri.now tokens.now (up_to (2 ^ 20) tokens.now.bytes) wanted (option_map view found)) }
{
    let names = Names::of(alloc, tokens)?;
    let mut ruler = Ruler::of(tokens.source());
    match query {
        Query::Symbols => Ok(Some(symbols(alloc, &names, &mut ruler)?)),
        Query::Definition => Ok(Some(definition(alloc, &names, &mut ruler, wanted, uri)?)),
        Query::Hover => Ok(Some(told_at(alloc, &names, &mut ruler, wanted)?)),
        Query::PrepareRename => Ok(Some(prepare(alloc, &names, &mut ruler, wanted)?)),
        Query::Rename => renamed(alloc, &names, &mut ruler, wanted, uri, params),
    }
}

/// The edits that give a name the one that the parameters say.
fn renamed(
    alloc: Global,
    names: &Names<'_, '_>,
    ruler: &mut Ruler<'_>,
    wanted: Position,
    uri: &str,
    params: &Value,
) -> Result<Option<Value>, AllocError>
    ensures { IfOk result (λ found. IsRenaming uri.now names.now ruler.old wanted (new_name_said (view params.now)) (option_map view found)) }
{
    match params.get("newName").and_then(Value::as_str) {
        Some(name) => rename(alloc, names, ruler, wanted, uri, name),
        None => Ok(None),
    }
}
