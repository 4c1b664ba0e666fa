//! Which class a line declares.
ghost use Rattle.std.specs.Prelude.{◌≡◌, IfSome, true};
ghost use Rattle.aom_source_listing.specs.Classes.{BeginsClass, IsClassName, name_at};

use aom_source_names::{Declared, Names};
use aom_source_tokens::{Keyword, Kind};

/// The name that a token is, or none.
pub fn name_at<'a>(names: &Names<'_, 'a>, at: u32) -> &'a [u8]
    ensures { result.now ≡ name_at names.now at }
{
    match names.kind(at as usize) {
        Kind::Name(name) => name,
        _ => &[],
    }
}

/// The token that names the class whose declaration begins with a token: it stands behind the next `class`.
pub fn class_begun(names: &Names<'_, '_>, token: u32) -> Option<u32>
    ensures { IfSome result (λ class. BeginsClass names.now token class) }
{
    for at in token..names.tokens().len() as u32 {
        if matches!(names.kind(at as usize), Kind::Keyword(Keyword::Class)) {
            let class = at + 1;
            return if begins_class(names, token, class) {
                Some(class)
            } else {
                None
            };
        }
    }
    None
}

fn begins_class(names: &Names<'_, '_>, token: u32, class: u32) -> bool
    ensures { result ≡ true → BeginsClass names.now token class }
{
    match names.declared(class) {
        Some(Declared::Class) => names.spot(class).begin == token,
        _ => false,
    }
}

/// Whether a name is that of the class whose declaration begins with a token.
pub fn is_class_name(names: &Names<'_, '_>, token: u32, name: &[u8]) -> bool
    ensures { result ≡ true → IsClassName names.now token name.now }
{
    match class_begun(names, token) {
        Some(class) => name_at(names, class) == name,
        None => false,
    }
}
