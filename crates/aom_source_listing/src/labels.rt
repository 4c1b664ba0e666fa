//! The names of methods in a text.
ghost use Rattle.std.specs.Prelude.{◌≡◌, IfOk, take, true};
ghost use Rattle.aom_source_listing.specs.Labels.{IsLabel, IsLabelOf, IsNumbered, numbered_label};

use crate::classes::{class_begun, name_at};
use crate::methods::{Added, own_name};
use aom_cost_report::FigureWriter;
use aom_source_names::Names;
use aom_text::Number;
use std::alloc::{AllocError, Global};

/// The most bytes of a name, and of one that has a number behind it.
const MOST: usize = 32;

const MOST_NUMBERED: usize = 27;

/// The first bytes of a name, at most so many.
#[tactic(auto, using(crate::proofs::Cut::cut))]
fn cut(name: &[u8], most: usize) -> &[u8]
    ensures { result.now ≡ take most name.now }
{
    &name[..most.min(name.len())]
}

/// What a method is called where another has its name: the first 27 bytes of that, `_` and a number.
pub fn numbered_label(alloc: Global, label: &[u8], number: u64) -> Result<Vec<u8>, AllocError>
    ensures { IfOk result (λ numbered. numbered.items ≡ numbered_label label.now number) }
{
    let mut numbered = FigureWriter::new(alloc);
    numbered.words(cut(label, MOST_NUMBERED))?;
    numbered.words(b"_")?;
    numbered.count(b"", number)?;
    Ok(numbered.into_text())
}

/// Whether a label is the short one with a number behind it.
fn is_numbered(alloc: Global, short: &[u8], label: &[u8]) -> Result<bool, AllocError>
    ensures { IfOk result (λ is. is ≡ true → IsNumbered short.now label.now) }
{
    let at = short.len().min(MOST_NUMBERED) + 1;
    if label.len() < at {
        return Ok(false);
    }
    let Some(number) = Number::of(&label[at..]) else {
        return Ok(false);
    };
    Ok(numbered_label(alloc, short, number.size)?.as_slice() == label)
}

/// Whether a method of a name is called so in a text.
fn is_label_of(alloc: Global, name: &[u8], label: &[u8]) -> Result<bool, AllocError>
    ensures { IfOk result (λ is. is ≡ true → IsLabelOf name.now label.now) }
{
    let short = cut(name, MOST);
    if short == label {
        return Ok(true);
    }
    is_numbered(alloc, short, label)
}

/// Whether a label is that of a method that is added to the class whose declaration begins with a token.
fn is_added_label(
    alloc: Global,
    names: &Names<'_, '_>,
    token: u32,
    label: &[u8],
) -> Result<bool, AllocError>
    ensures { IfOk result (λ is. is ≡ true → IsLabel names.now token label.now) }
{
    let Some(class) = class_begun(names, token) else {
        return Ok(false);
    };
    for added in Added::ALL {
        let name = added.name(alloc, name_at(names, class))?;
        if is_label_of(alloc, &name, label)? {
            return Ok(true);
        }
    }
    Ok(false)
}

/// Whether a method whose line comes of a token is called so in a text.
pub fn is_label(
    alloc: Global,
    names: &Names<'_, '_>,
    token: u32,
    label: &[u8],
) -> Result<bool, AllocError>
    ensures { IfOk result (λ is. is ≡ true → IsLabel names.now token label.now) }
{
    match own_name(alloc, names, token)? {
        Some(name) => is_label_of(alloc, &name, label),
        None => is_added_label(alloc, names, token, label),
    }
}
