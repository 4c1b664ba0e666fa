//! Names.
ghost use Rattle.std.specs.Prelude.{◌≡◌};
ghost use Rattle.std.specs.List.{list_all};
ghost use Rattle.aom_text.specs.Names.{is_letter, is_name_byte, is_reserved, has_name_form, starts_with_letter, is_name};

/// Whether a word may be a name: a letter, then up to 31 letters, digits or `_`; not `msg`, `word`, `none`, `self`.
pub fn is_name(word: &[u8]) -> bool
    ensures { result ≡ is_name word.now }
{
    starts_with_letter(word) && has_name_bytes(word) && word.len() <= 32 && !is_reserved(word)
}

fn starts_with_letter(word: &[u8]) -> bool
    ensures { result ≡ starts_with_letter word.now }
{
    match word {
        [] => false,
        [first, ..] => is_letter(*first),
    }
}

fn is_reserved(word: &[u8]) -> bool
    ensures { result ≡ is_reserved word.now }
{
    word == b"msg".as_slice()
        || word == b"word".as_slice()
        || word == b"none".as_slice()
        || word == b"self".as_slice()
}

fn is_letter(b: u8) -> bool
    ensures { result ≡ is_letter b }
{
    matches!(b, b'a'..=b'z' | b'A'..=b'Z')
}

fn is_name_byte(b: u8) -> bool
    ensures { result ≡ is_name_byte b }
{
    is_letter(b) || matches!(b, b'0'..=b'9' | b'_')
}

fn has_name_bytes(word: &[u8]) -> bool
    ensures { result ≡ list_all is_name_byte word.now }
{
    word.iter().all(|b| is_name_byte(*b))
}

fn has_name_form(word: &[u8]) -> bool
    ensures { result ≡ has_name_form word.now }
{
    starts_with_letter(word) && has_name_bytes(word)
}
