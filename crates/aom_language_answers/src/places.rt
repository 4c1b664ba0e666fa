//! Where names are: the name at a position, and where it is declared.
ghost use Rattle.std.specs.Prelude.{◌≡◌, ◌<◌, ◌^◌, IfOk};
ghost use Rattle.aom_source_tokens.specs.Tokens.{word_of};
ghost use Rattle.aom_source_names.specs.Words.{is_name};
ghost use Rattle.serde_json.specs.View.{view};
ghost use Rattle.aom_language_answers.specs.Places.{definition_data, first_name_at, is_name_at, is_within, location_data, locations_data, name_range, name_size};
ghost use Rattle.aom_language_answers.specs.Positions.{range_data};

use crate::position::{Position, Range, Ruler};
use aom_source_names::Names;
use aom_source_tokens::Kind;
use serde_json::{Value, json};
use std::alloc::{AllocError, Global};

/// The token that is a name, and at which, or right behind which, a position is.
#[tactic(auto, unfolding(crate::specs::Places::first_name_in))]
pub fn name_at(names: &Names<'_, '_>, ruler: &mut Ruler<'_>, wanted: Position) -> Option<u32>
    ensures same { ruler.new ≡ ruler.old }
    ensures is { result ≡ first_name_at names.now ruler.old wanted }
{
    let mut found = None;
    for at in 0..names.tokens().len() as u32 {
        if found.is_none() && is_name_at(names, ruler, wanted, at) {
            found = Some(at);
        }
    }
    found
}

fn is_name_at(names: &Names<'_, '_>, ruler: &mut Ruler<'_>, wanted: Position, at: u32) -> bool
    ensures same { ruler.new ≡ ruler.old }
    ensures is { result ≡ is_name_at names.now ruler.old wanted at }
{
    is_name(names.kind(at as usize)) && is_within(range(names, ruler, at), wanted)
}

fn is_name(kind: Kind<'_>) -> bool
    ensures { result ≡ is_name (word_of kind.entry) }
{
    matches!(kind, Kind::Name(_))
}

/// Whether a position is in a range of one line, or at its end.
fn is_within(range: Range, wanted: Position) -> bool
    ensures { result ≡ is_within range wanted }
{
    range.start.line == wanted.line
        && range.start.character <= wanted.character
        && wanted.character <= range.end.character
}

/// How many bytes a name has, and none what is no name.
fn name_size(kind: Kind<'_>) -> usize
    ensures is { result ≡ name_size (word_of kind.entry) }
    ensures few { result < 2 ^ 63 }
{
    match kind {
        Kind::Name(name) => name.len(),
        _ => 0,
    }
}

/// The range of a token that is a name.
fn range(names: &Names<'_, '_>, ruler: &mut Ruler<'_>, at: u32) -> Range
    ensures same { ruler.new ≡ ruler.old }
    ensures is { result ≡ name_range names.now ruler.old at }
{
    let place = names.tokens().get(at as usize).place.at;
    ruler.range(place as usize, name_size(names.kind(at as usize)))
}

/// The same, as JSON.
pub fn range_of(
    alloc: Global,
    names: &Names<'_, '_>,
    ruler: &mut Ruler<'_>,
    at: u32,
) -> Result<Value, AllocError>
    ensures same { ruler.new ≡ ruler.old }
    ensures is { IfOk result (λ v. view v ≡ range_data (name_range names.now ruler.old at)) }
{
    range(names, ruler, at).to_value(alloc)
}

/// The places where the name at a position is declared, in the document of that name.
pub fn definition(
    alloc: Global,
    names: &Names<'_, '_>,
    ruler: &mut Ruler<'_>,
    wanted: Position,
    uri: &str,
) -> Result<Value, AllocError>
    ensures { IfOk result (λ v. view v ≡ definition_data uri.now names.now ruler.old (first_name_at names.now ruler.old wanted)) }
{
    let Some(at) = name_at(names, ruler, wanted) else {
        return Ok(Value::Null);
    };
    let found = names.definitions(alloc, at)?;
    locations(alloc, names, ruler, &found, uri)
}

fn locations(
    alloc: Global,
    names: &Names<'_, '_>,
    ruler: &mut Ruler<'_>,
    found: &[u32],
    uri: &str,
) -> Result<Value, AllocError>
    ensures { IfOk result (λ v. view v ≡ locations_data uri.now names.now ruler.old found.now) }
{
    let mut locations: Vec<Value> = Vec::new(alloc);
    for declared in found {
        locations.push(location(alloc, names, ruler, *declared, uri)?)?;
    }
    Ok(Value::Array(locations))
}

fn location(
    alloc: Global,
    names: &Names<'_, '_>,
    ruler: &mut Ruler<'_>,
    declared: u32,
    uri: &str,
) -> Result<Value, AllocError>
    ensures same { ruler.new ≡ ruler.old }
    ensures is { IfOk result (λ v. view v ≡ location_data uri.now names.now ruler.old declared) }
{
    let range = range_of(alloc, names, ruler, declared)?;
    json!(in alloc; {"uri": uri, "range": range})
}
