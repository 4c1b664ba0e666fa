//! Bytes as a text.
ghost use Rattle.std.specs.Prelude.{◌≡◌};
ghost use Rattle.aom_language_answers.specs.Texts.{text_or_none};

/// Bytes as a text: an empty one, where they are no UTF-8.
pub fn text_or_none(bytes: &[u8]) -> &str
    ensures { result.now ≡ text_or_none bytes.now }
{
    match std::str::from_utf8(bytes) {
        Ok(text) => text,
        Err(_) => "",
    }
}
