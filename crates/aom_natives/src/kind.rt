//! The natives that a word can name.
ghost use Rattle.std.specs.Prelude.{◌≡◌, ◌≢◌, Option, None, IfSome};
ghost use Rattle.aom_natives.specs.Kinds.{word_of};
ghost use Rattle.aom_natives.specs.declared.kind.NativeKind.{NativeKind};

/// Which of this crate's natives is meant.
#[derive(Clone, Copy, PartialEq, Eq)]
pub enum NativeKind {
    Counter,
    Line,
    Delay,
}

impl NativeKind {
    /// The kind that a word names.
    pub fn of_word(word: &str) -> Option<NativeKind>
        ensures some { IfSome result (λ kind. word.now ≡ word_of kind) }
        ensures none { result ≡ None → (kind : NativeKind) → word.now ≢ word_of kind }
    {
        match word {
            "counter" => Some(NativeKind::Counter),
            "line" => Some(NativeKind::Line),
            "delay" => Some(NativeKind::Delay),
            _ => None,
        }
    }
}
