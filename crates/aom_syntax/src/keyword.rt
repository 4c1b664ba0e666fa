//! The words of the language that are no mnemonics.
ghost use Rattle.std.specs.Prelude.{◌≡◌, is_some, ◌||◌};
ghost use Rattle.std.specs.List.{find};
ghost use Rattle.std.specs.Str.{bytes_eq};
ghost use Rattle.aom_syntax.specs.Keywords.{keyword_text, keyword_of, unexpected_word};

use aom_image::Mnemonic;
use aom_text::AsmFaultKind;

/// A word of the language. Some are for the second version alone.
#[derive(Clone, Copy)]
pub enum Keyword {
    Image,
    Version,
    Cells,
    Messages,
    Natives,
    Budget,
    Root,
    Class,
    Plain,
    Session,
    Active,
    Timer,
    Native,
    Server,
    Max,
    Words,
    Own,
    From,
    Method,
    End,
    Do,
    Main,
    Construct,
    Destruct,
    Run,
    Cancel,
    Error,
    Accept,
    Service,
    Undo,
    Of,
    Over,
    Leaves,
    Quiet,
    In,
    Out,
    Args,
    Gives,
    Nothing,
    Word,
    Maybe,
    Left,
    This,
    Message,
    Token,
}

/// All of them.
const KEYWORDS: [Keyword; 45] = [
    Keyword::Image,
    Keyword::Version,
    Keyword::Cells,
    Keyword::Messages,
    Keyword::Natives,
    Keyword::Budget,
    Keyword::Root,
    Keyword::Class,
    Keyword::Plain,
    Keyword::Session,
    Keyword::Active,
    Keyword::Timer,
    Keyword::Native,
    Keyword::Server,
    Keyword::Max,
    Keyword::Words,
    Keyword::Own,
    Keyword::From,
    Keyword::Method,
    Keyword::End,
    Keyword::Do,
    Keyword::Main,
    Keyword::Construct,
    Keyword::Destruct,
    Keyword::Run,
    Keyword::Cancel,
    Keyword::Error,
    Keyword::Accept,
    Keyword::Service,
    Keyword::Undo,
    Keyword::Of,
    Keyword::Over,
    Keyword::Leaves,
    Keyword::Quiet,
    Keyword::In,
    Keyword::Out,
    Keyword::Args,
    Keyword::Gives,
    Keyword::Nothing,
    Keyword::Word,
    Keyword::Maybe,
    Keyword::Left,
    Keyword::This,
    Keyword::Message,
    Keyword::Token,
];

impl Keyword {
    pub fn text(self) -> &'static [u8]
        ensures { result.now ≡ keyword_text self }
    {
        match self {
            Keyword::Image => b"image".as_slice(),
            Keyword::Version => b"version".as_slice(),
            Keyword::Cells => b"cells".as_slice(),
            Keyword::Messages => b"messages".as_slice(),
            Keyword::Natives => b"natives".as_slice(),
            Keyword::Budget => b"budget".as_slice(),
            Keyword::Root => b"root".as_slice(),
            Keyword::Class => b"class".as_slice(),
            Keyword::Plain => b"plain".as_slice(),
            Keyword::Session => b"session".as_slice(),
            Keyword::Active => b"active".as_slice(),
            Keyword::Timer => b"timer".as_slice(),
            Keyword::Native => b"native".as_slice(),
            Keyword::Server => b"server".as_slice(),
            Keyword::Max => b"max".as_slice(),
            Keyword::Words => b"words".as_slice(),
            Keyword::Own => b"own".as_slice(),
            Keyword::From => b"from".as_slice(),
            Keyword::Method => b"method".as_slice(),
            Keyword::End => b"end".as_slice(),
            Keyword::Do => b"do".as_slice(),
            Keyword::Main => b"main".as_slice(),
            Keyword::Construct => b"construct".as_slice(),
            Keyword::Destruct => b"destruct".as_slice(),
            Keyword::Run => b"run".as_slice(),
            Keyword::Cancel => b"cancel".as_slice(),
            Keyword::Error => b"error".as_slice(),
            Keyword::Accept => b"accept".as_slice(),
            Keyword::Service => b"service".as_slice(),
            Keyword::Undo => b"undo".as_slice(),
            Keyword::Of => b"of".as_slice(),
            Keyword::Over => b"over".as_slice(),
            Keyword::Leaves => b"leaves".as_slice(),
            Keyword::Quiet => b"quiet".as_slice(),
            Keyword::In => b"in".as_slice(),
            Keyword::Out => b"out".as_slice(),
            Keyword::Args => b"args".as_slice(),
            Keyword::Gives => b"gives".as_slice(),
            Keyword::Nothing => b"none".as_slice(),
            Keyword::Word => b"word".as_slice(),
            Keyword::Maybe => b"maybe".as_slice(),
            Keyword::Left => b"left".as_slice(),
            Keyword::This => b"self".as_slice(),
            Keyword::Message => b"msg".as_slice(),
            Keyword::Token => b"token".as_slice(),
        }
    }

    /// The keyword that a word is.
    pub fn of(word: &[u8]) -> Option<Keyword>
        ensures { result ≡ keyword_of word.now }
    {
        KEYWORDS.iter().copied().find(|key| key.text() == word)
    }
}

/// The fault of a word that stands where another word of the language is expected.
#[tactic(auto, unfolding(crate::specs::Keywords::unexpected_word))]
pub fn unexpected_word(word: &[u8]) -> AsmFaultKind
    ensures { result ≡ unexpected_word word.now }
{
    if Keyword::of(word).is_some() || Mnemonic::of(word).is_some() {
        AsmFaultKind::BadShape
    } else {
        AsmFaultKind::UnknownWord
    }
}
