//! The declarations of a source, as an outline.
ghost use Rattle.std.specs.Prelude.{◌≡◌, ◌≤◌, IfOk, length, map};
ghost use Rattle.std.specs.List.{prefix_len};
ghost use Rattle.aom_source_tokens.specs.Tokens.{word_of};
ghost use Rattle.serde_json.specs.Data.{array};
ghost use Rattle.serde_json.specs.View.{items_of, view};
ghost use Rattle.aom_source_names.specs.Declarations.{declared_as};
ghost use Rattle.aom_source_scopes.specs.Scopes.{word_at};
ghost use Rattle.aom_language_answers.specs.Outline.{inner_data, is_declared_in, name_text, outline_data, symbol_data, symbol_kind, symbol_object, symbols_of};

use crate::places::range_of;
use crate::position::Ruler;
use crate::texts::text_or_none;
use aom_source_names::{Declared, Names};
use aom_source_tokens::Kind;
use serde_json::{Value, json};
use std::alloc::{AllocError, Global};

/// The number that the protocol has for what is declared. What is no symbol counts as a variable.
fn symbol_kind(declared: Option<Declared>) -> u64
    ensures { result ≡ symbol_kind declared }
{
    match declared {
        Some(Declared::Class) => 5,
        Some(Declared::Method) => 6,
        Some(Declared::Owner | Declared::Word) => 8,
        Some(Declared::Enum) => 10,
        Some(Declared::Function | Declared::Undo) => 12,
        Some(Declared::Const) => 14,
        Some(Declared::Member) => 22,
        Some(Declared::Parameter | Declared::Local) | None => 13,
    }
}

/// All declarations of a source but parameters and locals, in their order, those of a class or an enum in it.
pub fn symbols(
    alloc: Global,
    names: &Names<'_, '_>,
    ruler: &mut Ruler<'_>,
) -> Result<Value, AllocError>
    ensures { IfOk result (λ v. view v ≡ outline_data names.now ruler.old) }
{
    let found = names.declarations(alloc)?;
    outline(alloc, names, ruler, &found)
}

/// The symbols of some declarations.
fn outline(
    alloc: Global,
    names: &Names<'_, '_>,
    ruler: &mut Ruler<'_>,
    found: &[u32],
) -> Result<Value, AllocError>
    ensures { IfOk result (λ v. view v ≡ array (items_of (symbols_of names.now ruler.old found.now))) }
{
    let mut symbols: Vec<Value> = Vec::new(alloc);
    let mut begin = 0;
    while begin < found.len() {
        let inner = begin + 1;
        let end = inner + inner_count(names, found[begin], &found[inner..]);
        symbols.push(symbol(alloc, names, ruler, found[begin], &found[inner..end])?)?;
        begin = end;
    }
    Ok(Value::Array(symbols))
}

/// How many declarations behind one are in it, before the first that is not.
fn inner_count(names: &Names<'_, '_>, outer: u32, behind: &[u32]) -> usize
    ensures is { result ≡ prefix_len (is_declared_in names.now outer) behind.now }
    ensures within { result ≤ length behind.now }
{
    let mut count = 0;
    while count < behind.len() && is_declared_in(names, outer, behind[count]) {
        count += 1;
    }
    count
}

/// Whether a token is in the declaration of another.
fn is_declared_in(names: &Names<'_, '_>, outer: u32, at: u32) -> bool
    ensures { result ≡ is_declared_in names.now outer at }
{
    match names.spot(at).outer {
        Some(class) => class == outer && at != outer,
        None => false,
    }
}

/// A declaration, with those that are in it.
fn symbol(
    alloc: Global,
    names: &Names<'_, '_>,
    ruler: &mut Ruler<'_>,
    at: u32,
    inner: &[u32],
) -> Result<Value, AllocError>
    ensures same { ruler.new ≡ ruler.old }
    ensures is { IfOk result (λ v. view v ≡ symbol_data names.now ruler.old at (map (inner_data names.now ruler.old) inner.now)) }
{
    let range = range_of(alloc, names, ruler, at)?;
    let children = inner_symbols(alloc, names, ruler, inner)?;
    symbol_value(alloc, names, at, &range, children)
}

/// Declarations that have none in them.
fn inner_symbols(
    alloc: Global,
    names: &Names<'_, '_>,
    ruler: &mut Ruler<'_>,
    inner: &[u32],
) -> Result<Value, AllocError>
    ensures same { ruler.new ≡ ruler.old }
    ensures is { IfOk result (λ v. view v ≡ array (items_of (map (inner_data names.now ruler.old) inner.now))) }
{
    let mut symbols: Vec<Value> = Vec::new(alloc);
    for at in inner {
        symbols.push(inner_symbol(alloc, names, ruler, *at)?)?;
    }
    Ok(Value::Array(symbols))
}

fn inner_symbol(
    alloc: Global,
    names: &Names<'_, '_>,
    ruler: &mut Ruler<'_>,
    at: u32,
) -> Result<Value, AllocError>
    ensures same { ruler.new ≡ ruler.old }
    ensures is { IfOk result (λ v. view v ≡ inner_data names.now ruler.old at) }
{
    let range = range_of(alloc, names, ruler, at)?;
    symbol_value(alloc, names, at, &range, Value::Array(Vec::new(alloc)))
}

/// A declaration, with its range and what is in it.
fn symbol_value(
    alloc: Global,
    names: &Names<'_, '_>,
    at: u32,
    range: &Value,
    children: Value,
) -> Result<Value, AllocError>
    ensures { IfOk result (λ v. view v
        ≡ symbol_object (name_text (word_at names.now at)) (symbol_kind (declared_as names.now at)) (view range.now) (view children)) }
{
    let name = name_text(names.kind(at as usize));
    let kind = symbol_kind(names.declared(at));
    json!(in alloc; {"name": name, "kind": kind, "range": range, "selectionRange": range, "children": children})
}

/// The name that a token is.
fn name_text<'a>(kind: Kind<'a>) -> &'a str
    ensures { result.now ≡ name_text (word_of kind.entry) }
{
    match kind {
        Kind::Name(name) => text_or_none(name),
        _ => "",
    }
}
