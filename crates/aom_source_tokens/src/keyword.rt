//! The keywords of the language.
ghost use Rattle.std.specs.Prelude.{◌≡◌};
ghost use Rattle.aom_source_tokens.specs.Keywords.{keyword_of, keyword_of_two, keyword_of_three, keyword_of_four, keyword_of_four_later, keyword_of_five, keyword_of_five_later, keyword_of_six, keyword_of_six_later, keyword_of_seven, keyword_of_eight, keyword_of_nine};

/// A word of the language, which is no name.
#[derive(Clone, Copy, PartialEq, Eq, Debug)]
pub enum Keyword {
    Cells,
    Messages,
    Natives,
    Budget,
    Const,
    Enum,
    Class,
    Timer,
    Active,
    Token,
    Native,
    Session,
    Server,
    Of,
    Max,
    Word,
    Own,
    Msg,
    Else,
    Construct,
    Destruct,
    Run,
    Cancel,
    Error,
    Accept,
    Service,
    Fn,
    Override,
    Undo,
    Main,
    Let,
    If,
    Loop,
    While,
    For,
    In,
    Break,
    Continue,
    Return,
    Leave,
    LeaveIf,
    Delete,
    Print,
    Stop,
    Enlist,
    After,
    Resume,
    Request,
    Close,
    Reply,
    Defer,
    Assert,
    Trap,
    Catch,
    New,
    Maybe,
    Take,
    Hand,
    Message,
    Status,
    Connect,
    Ask,
    Enlisted,
    NoObject,
    This,
    Super,
    NoLeave,
}

impl Keyword {
    /// The keyword that a word is.
    pub fn of(word: &[u8]) -> Option<Keyword>
        ensures { result ≡ keyword_of word.now }
    {
        match word.len() {
            2 => Keyword::of_two(word),
            3 => Keyword::of_three(word),
            4 => Keyword::of_four(word),
            5 => Keyword::of_five(word),
            6 => Keyword::of_six(word),
            7 => Keyword::of_seven(word),
            8 => Keyword::of_eight(word),
            9 => Keyword::of_nine(word),
            _ => None,
        }
    }

    fn of_two(word: &[u8]) -> Option<Keyword>
        ensures { result ≡ keyword_of_two word.now }
    {
        if word == b"of".as_slice() {
            Some(Keyword::Of)
        } else if word == b"fn".as_slice() {
            Some(Keyword::Fn)
        } else if word == b"if".as_slice() {
            Some(Keyword::If)
        } else if word == b"in".as_slice() {
            Some(Keyword::In)
        } else {
            None
        }
    }

    fn of_three(word: &[u8]) -> Option<Keyword>
        ensures { result ≡ keyword_of_three word.now }
    {
        if word == b"max".as_slice() {
            Some(Keyword::Max)
        } else if word == b"own".as_slice() {
            Some(Keyword::Own)
        } else if word == b"msg".as_slice() {
            Some(Keyword::Msg)
        } else if word == b"run".as_slice() {
            Some(Keyword::Run)
        } else if word == b"let".as_slice() {
            Some(Keyword::Let)
        } else if word == b"for".as_slice() {
            Some(Keyword::For)
        } else if word == b"new".as_slice() {
            Some(Keyword::New)
        } else if word == b"ask".as_slice() {
            Some(Keyword::Ask)
        } else {
            None
        }
    }

    fn of_four(word: &[u8]) -> Option<Keyword>
        ensures { result ≡ keyword_of_four word.now }
    {
        if word == b"enum".as_slice() {
            Some(Keyword::Enum)
        } else if word == b"word".as_slice() {
            Some(Keyword::Word)
        } else if word == b"else".as_slice() {
            Some(Keyword::Else)
        } else if word == b"undo".as_slice() {
            Some(Keyword::Undo)
        } else if word == b"main".as_slice() {
            Some(Keyword::Main)
        } else if word == b"loop".as_slice() {
            Some(Keyword::Loop)
        } else if word == b"stop".as_slice() {
            Some(Keyword::Stop)
        } else if word == b"trap".as_slice() {
            Some(Keyword::Trap)
        } else if word == b"take".as_slice() {
            Some(Keyword::Take)
        } else {
            Keyword::of_four_later(word)
        }
    }

    fn of_four_later(word: &[u8]) -> Option<Keyword>
        ensures { result ≡ keyword_of_four_later word.now }
    {
        if word == b"hand".as_slice() {
            Some(Keyword::Hand)
        } else if word == b"none".as_slice() {
            Some(Keyword::NoObject)
        } else if word == b"self".as_slice() {
            Some(Keyword::This)
        } else {
            None
        }
    }

    fn of_five(word: &[u8]) -> Option<Keyword>
        ensures { result ≡ keyword_of_five word.now }
    {
        if word == b"cells".as_slice() {
            Some(Keyword::Cells)
        } else if word == b"const".as_slice() {
            Some(Keyword::Const)
        } else if word == b"class".as_slice() {
            Some(Keyword::Class)
        } else if word == b"timer".as_slice() {
            Some(Keyword::Timer)
        } else if word == b"token".as_slice() {
            Some(Keyword::Token)
        } else if word == b"error".as_slice() {
            Some(Keyword::Error)
        } else if word == b"while".as_slice() {
            Some(Keyword::While)
        } else if word == b"break".as_slice() {
            Some(Keyword::Break)
        } else if word == b"leave".as_slice() {
            Some(Keyword::Leave)
        } else {
            Keyword::of_five_later(word)
        }
    }

    fn of_five_later(word: &[u8]) -> Option<Keyword>
        ensures { result ≡ keyword_of_five_later word.now }
    {
        if word == b"print".as_slice() {
            Some(Keyword::Print)
        } else if word == b"after".as_slice() {
            Some(Keyword::After)
        } else if word == b"close".as_slice() {
            Some(Keyword::Close)
        } else if word == b"reply".as_slice() {
            Some(Keyword::Reply)
        } else if word == b"defer".as_slice() {
            Some(Keyword::Defer)
        } else if word == b"catch".as_slice() {
            Some(Keyword::Catch)
        } else if word == b"maybe".as_slice() {
            Some(Keyword::Maybe)
        } else if word == b"super".as_slice() {
            Some(Keyword::Super)
        } else {
            None
        }
    }

    fn of_six(word: &[u8]) -> Option<Keyword>
        ensures { result ≡ keyword_of_six word.now }
    {
        if word == b"budget".as_slice() {
            Some(Keyword::Budget)
        } else if word == b"active".as_slice() {
            Some(Keyword::Active)
        } else if word == b"native".as_slice() {
            Some(Keyword::Native)
        } else if word == b"server".as_slice() {
            Some(Keyword::Server)
        } else if word == b"cancel".as_slice() {
            Some(Keyword::Cancel)
        } else if word == b"accept".as_slice() {
            Some(Keyword::Accept)
        } else if word == b"return".as_slice() {
            Some(Keyword::Return)
        } else if word == b"delete".as_slice() {
            Some(Keyword::Delete)
        } else if word == b"enlist".as_slice() {
            Some(Keyword::Enlist)
        } else {
            Keyword::of_six_later(word)
        }
    }

    fn of_six_later(word: &[u8]) -> Option<Keyword>
        ensures { result ≡ keyword_of_six_later word.now }
    {
        if word == b"resume".as_slice() {
            Some(Keyword::Resume)
        } else if word == b"assert".as_slice() {
            Some(Keyword::Assert)
        } else if word == b"status".as_slice() {
            Some(Keyword::Status)
        } else {
            None
        }
    }

    fn of_seven(word: &[u8]) -> Option<Keyword>
        ensures { result ≡ keyword_of_seven word.now }
    {
        if word == b"natives".as_slice() {
            Some(Keyword::Natives)
        } else if word == b"session".as_slice() {
            Some(Keyword::Session)
        } else if word == b"service".as_slice() {
            Some(Keyword::Service)
        } else if word == b"leaveif".as_slice() {
            Some(Keyword::LeaveIf)
        } else if word == b"request".as_slice() {
            Some(Keyword::Request)
        } else if word == b"message".as_slice() {
            Some(Keyword::Message)
        } else if word == b"connect".as_slice() {
            Some(Keyword::Connect)
        } else if word == b"noleave".as_slice() {
            Some(Keyword::NoLeave)
        } else {
            None
        }
    }

    fn of_eight(word: &[u8]) -> Option<Keyword>
        ensures { result ≡ keyword_of_eight word.now }
    {
        if word == b"messages".as_slice() {
            Some(Keyword::Messages)
        } else if word == b"destruct".as_slice() {
            Some(Keyword::Destruct)
        } else if word == b"override".as_slice() {
            Some(Keyword::Override)
        } else if word == b"continue".as_slice() {
            Some(Keyword::Continue)
        } else if word == b"enlisted".as_slice() {
            Some(Keyword::Enlisted)
        } else {
            None
        }
    }

    fn of_nine(word: &[u8]) -> Option<Keyword>
        ensures { result ≡ keyword_of_nine word.now }
    {
        if word == b"construct".as_slice() {
            Some(Keyword::Construct)
        } else {
            None
        }
    }
}
