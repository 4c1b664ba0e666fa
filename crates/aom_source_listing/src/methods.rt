//! What a method is called, before that is cut short.
ghost use Rattle.std.specs.Prelude.{◌≡◌, ◌++◌, IfOk, option_map};
ghost use Rattle.aom_source_tokens.specs.Tokens.{word_of};
ghost use Rattle.aom_source_listing.specs.Methods.{added_name, called, of_class, own_name, role_text};

use crate::classes::name_at;
use aom_source_names::Names;
use aom_source_tokens::{Keyword, Kind};
use std::alloc::{AllocError, Global};

/// A method that is added to a class.
#[derive(Clone, Copy, PartialEq, Eq, Debug)]
pub enum Added {
    Destruct,
    Cancel,
    Accept,
    /// It gives an object as one of the class.
    Widens,
    /// It makes an object of the class.
    Makes,
}

impl Added {
    pub const ALL: [Added; 5] = [
        Added::Destruct,
        Added::Cancel,
        Added::Accept,
        Added::Widens,
        Added::Makes,
    ];

    /// What it is called, by the name of the class.
    pub fn name(self, alloc: Global, class: &[u8]) -> Result<Vec<u8>, AllocError>
        ensures { IfOk result (λ name. name.items ≡ added_name self class.now) }
    {
        match self {
            Added::Destruct => joined(alloc, class, b"_destruct"),
            Added::Cancel => joined(alloc, class, b"_cancel"),
            Added::Accept => joined(alloc, class, b"_accept"),
            Added::Widens => joined(alloc, b"as_", class),
            Added::Makes => joined(alloc, b"make_", class),
        }
    }
}

fn joined(alloc: Global, front: &[u8], back: &[u8]) -> Result<Vec<u8>, AllocError>
    ensures { IfOk result (λ all. all.items ≡ front.now ++ back.now) }
{
    let mut all: Vec<u8> = Vec::new(alloc);
    all.extend_from_slice(front)?;
    all.extend_from_slice(back)?;
    Ok(all)
}

fn role_text(keyword: Keyword) -> Option<&'static [u8]>
    ensures { option_map (λ t. t.now) result ≡ role_text keyword }
{
    match keyword {
        Keyword::Construct => Some(b"construct"),
        Keyword::Destruct => Some(b"destruct"),
        Keyword::Run => Some(b"run"),
        Keyword::Cancel => Some(b"cancel"),
        Keyword::Error => Some(b"error"),
        Keyword::Accept => Some(b"accept"),
        Keyword::Service => Some(b"service"),
        Keyword::Main => Some(b"main"),
        _ => None,
    }
}

/// What a method is called by itself, by the first token of what declares it and the next.
fn called<'a>(kind: Kind<'a>, next: Kind<'a>) -> Option<&'a [u8]>
    ensures { option_map (λ t. t.now) result ≡ called (word_of kind.entry) (word_of next.entry) }
{
    match (kind, next) {
        (Kind::Keyword(Keyword::Fn | Keyword::Undo), Kind::Name(name)) => Some(name),
        (Kind::Keyword(keyword), _) => role_text(keyword),
        _ => None,
    }
}

/// The name of a method of a class, or of none.
fn of_class(
    alloc: Global,
    names: &Names<'_, '_>,
    class: Option<u32>,
    name: &[u8],
) -> Result<Vec<u8>, AllocError>
    ensures { IfOk result (λ all. all.items ≡ of_class names.now class name.now) }
{
    let mut all: Vec<u8> = Vec::new(alloc);
    if let Some(class) = class {
        all.extend_from_slice(name_at(names, class))?;
        all.push(b'_')?;
    }
    all.extend_from_slice(name)?;
    Ok(all)
}

/// The name of the method whose declaration begins with a token, if one does.
pub fn own_name(
    alloc: Global,
    names: &Names<'_, '_>,
    token: u32,
) -> Result<Option<Vec<u8>>, AllocError>
    ensures { IfOk result (λ name. option_map (λ n. n.items) name ≡ own_name names.now token) }
{
    let spot = names.spot(token);
    if 1 < spot.depth {
        return Ok(None);
    }
    match called(names.kind(token as usize), names.kind(token as usize + 1)) {
        Some(name) => Ok(Some(of_class(alloc, names, spot.outer, name)?)),
        None => Ok(None),
    }
}
