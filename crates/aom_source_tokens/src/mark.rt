//! The marks of the language.
ghost use Rattle.std.specs.Prelude.{◌≡◌};
ghost use Rattle.aom_source_tokens.specs.Marks.{mark_of_one, mark_of_two};

/// A mark of one or two bytes.
#[derive(Clone, Copy, PartialEq, Eq, Debug)]
pub enum Mark {
    /// `->`
    Arrow,
    /// `?.`
    MaybeDot,
    /// `..`
    DotDot,
    /// `==`
    Equal,
    /// `!=`
    NotEqual,
    /// `<=`
    AtMost,
    /// `>=`
    AtLeast,
    /// `&&`
    And,
    /// `||`
    Or,
    /// `+=`
    PlusAssign,
    /// `-=`
    MinusAssign,
    /// `*=`
    TimesAssign,
    /// `&=`
    AndAssign,
    /// `|=`
    OrAssign,
    /// `^=`
    XorAssign,
    /// `{`
    OpenBrace,
    /// `}`
    CloseBrace,
    /// `(`
    OpenParenthesis,
    /// `)`
    CloseParenthesis,
    /// `,`
    Comma,
    /// `;`
    Semicolon,
    /// `:`
    Colon,
    /// `=`
    Assign,
    /// `<`
    Less,
    /// `>`
    Greater,
    /// `+`
    Plus,
    /// `-`
    Minus,
    /// `*`
    Times,
    /// `&`
    BitAnd,
    /// `|`
    BitOr,
    /// `^`
    BitXor,
    /// `!`
    Not,
    /// `.`
    Dot,
    /// `?`
    Question,
}

impl Mark {
    /// The mark that two bytes are.
    pub fn of_two(first: u8, second: u8) -> Option<Mark>
        ensures { result ≡ mark_of_two first second }
    {
        match (first, second) {
            (b'-', b'>') => Some(Mark::Arrow),
            (b'?', b'.') => Some(Mark::MaybeDot),
            (b'.', b'.') => Some(Mark::DotDot),
            (b'=', b'=') => Some(Mark::Equal),
            (b'!', b'=') => Some(Mark::NotEqual),
            (b'<', b'=') => Some(Mark::AtMost),
            (b'>', b'=') => Some(Mark::AtLeast),
            (b'&', b'&') => Some(Mark::And),
            (b'|', b'|') => Some(Mark::Or),
            (b'+', b'=') => Some(Mark::PlusAssign),
            (b'-', b'=') => Some(Mark::MinusAssign),
            (b'*', b'=') => Some(Mark::TimesAssign),
            (b'&', b'=') => Some(Mark::AndAssign),
            (b'|', b'=') => Some(Mark::OrAssign),
            (b'^', b'=') => Some(Mark::XorAssign),
            _ => None,
        }
    }

    /// The mark that one byte is.
    pub fn of_one(byte: u8) -> Option<Mark>
        ensures { result ≡ mark_of_one byte }
    {
        match byte {
            b'{' => Some(Mark::OpenBrace),
            b'}' => Some(Mark::CloseBrace),
            b'(' => Some(Mark::OpenParenthesis),
            b')' => Some(Mark::CloseParenthesis),
            b',' => Some(Mark::Comma),
            b';' => Some(Mark::Semicolon),
            b':' => Some(Mark::Colon),
            b'=' => Some(Mark::Assign),
            b'<' => Some(Mark::Less),
            b'>' => Some(Mark::Greater),
            b'+' => Some(Mark::Plus),
            b'-' => Some(Mark::Minus),
            b'*' => Some(Mark::Times),
            b'&' => Some(Mark::BitAnd),
            b'|' => Some(Mark::BitOr),
            b'^' => Some(Mark::BitXor),
            b'!' => Some(Mark::Not),
            b'.' => Some(Mark::Dot),
            b'?' => Some(Mark::Question),
            _ => None,
        }
    }
}
