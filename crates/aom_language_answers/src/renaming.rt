//! A name changed in all its places.
ghost use Rattle.std.specs.Prelude.{◌≡◌, IfOk, IfSome, Some, ℕ, codes, false, length, true};
ghost use Rattle.aom_source_names.specs.Meanings.{has_name};
ghost use Rattle.serde_json.specs.Data.{member, no_members, object};
ghost use Rattle.serde_json.specs.View.{view};
ghost use Rattle.aom_language_answers.specs.Places.{first_name_at};
ghost use Rattle.aom_language_answers.specs.Renaming.{edit_data, edits_data, prepare_data, rename_data};

use crate::places::{name_at, range_of};
use crate::position::{Position, Ruler};
use aom_source_names::Names;
use aom_source_tokens::{Kind, Tokens};
use serde_json::{Map, Value, json};
use std::alloc::{AllocError, Global};

/// The most places that are changed at once.
const MOST_PLACES: usize = 4096;

/// The range of the name at a position, if that can be renamed: if it is declared in the source. Null, where it cannot.
pub fn prepare(
    alloc: Global,
    names: &Names<'_, '_>,
    ruler: &mut Ruler<'_>,
    wanted: Position,
) -> Result<Value, AllocError>
    ensures same { ruler.new ≡ ruler.old }
    ensures is { IfOk result (λ v. view v ≡ prepare_data names.now ruler.old (first_name_at names.now ruler.old wanted)) }
{
    let Some(at) = name_at(names, ruler, wanted) else {
        return Ok(Value::Null);
    };
    if names.places(alloc, at)?.is_empty() {
        return Ok(Value::Null);
    }
    range_of(alloc, names, ruler, at)
}

/// The edits that give the name at a position another one, in the document of that name. Nothing, where the position has no name that is declared, where the
/// new one is no name, or where the source has it already.
pub fn rename(
    alloc: Global,
    names: &Names<'_, '_>,
    ruler: &mut Ruler<'_>,
    wanted: Position,
    uri: &str,
    new_name: &str,
) -> Result<Option<Value>, AllocError>
    ensures renames { IfOk result (λ found. IfSome found
        (λ v. (at : ℕ) × (first_name_at names.now ruler.old wanted ≡ Some at) × (view v ≡ rename_data uri.now new_name.now names.now ruler.old at))) }
    ensures free { IfOk result (λ found. IfSome found (λ _. has_name new_name.now (length names.now.tokens) names.now ≡ false)) }
{
    if !is_new_name(alloc, names, new_name)? {
        return Ok(None);
    }
    let Some(at) = name_at(names, ruler, wanted) else {
        return Ok(None);
    };
    let places = names.places(alloc, at)?;
    if places.is_empty() || MOST_PLACES < places.len() {
        return Ok(None);
    }
    let edits = edits_of(alloc, names, ruler, &places, new_name)?;
    Ok(Some(changes_of(alloc, uri, edits)?))
}

/// The edits of a document.
fn changes_of(alloc: Global, uri: &str, edits: Value) -> Result<Value, AllocError>
    ensures { IfOk result (λ v. view v ≡ object (member (codes "changes") (object (member uri.now (view edits) no_members)) no_members)) }
{
    let mut changes = Map::new(alloc);
    serde_json::put(&mut changes, alloc, uri, edits)?;
    let changes = Value::Object(changes);
    json!(in alloc; {"changes": changes})
}

/// The edits that give names at some tokens another one.
fn edits_of(
    alloc: Global,
    names: &Names<'_, '_>,
    ruler: &mut Ruler<'_>,
    places: &[u32],
    new_name: &str,
) -> Result<Value, AllocError>
    ensures { IfOk result (λ v. view v ≡ edits_data new_name.now names.now ruler.old places.now) }
{
    let mut edits: Vec<Value> = Vec::new(alloc);
    for place in places {
        edits.push(edit(alloc, names, ruler, *place, new_name)?)?;
    }
    Ok(Value::Array(edits))
}

fn edit(
    alloc: Global,
    names: &Names<'_, '_>,
    ruler: &mut Ruler<'_>,
    place: u32,
    new_name: &str,
) -> Result<Value, AllocError>
    ensures same { ruler.new ≡ ruler.old }
    ensures is { IfOk result (λ v. view v ≡ edit_data new_name.now names.now ruler.old place) }
{
    let range = range_of(alloc, names, ruler, place)?;
    json!(in alloc; {"range": range, "newText": new_name})
}

/// Whether a text is a name, and the source has none that is the same.
fn is_new_name(alloc: Global, names: &Names<'_, '_>, new_name: &str) -> Result<bool, AllocError>
    ensures { IfOk result (λ is. is ≡ true → has_name new_name.now (length names.now.tokens) names.now ≡ false) }
{
    let Ok(tokens) = Tokens::of(alloc, new_name.as_bytes()) else {
        return Ok(false);
    };
    let is_name = match tokens.get(0).kind {
        Kind::Name(name) => tokens.len() == 1 && name.len() == new_name.len(),
        _ => false,
    };
    drop(tokens);
    Ok(is_name && !names.has(new_name.as_bytes()))
}
