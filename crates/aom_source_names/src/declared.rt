//! What a token declares.

/// What a name is declared as.
#[derive(Clone, Copy, PartialEq, Eq, Debug)]
pub enum Declared {
    Class,
    Enum,
    Member,
    Const,
    Function,
    Undo,
    Method,
    Word,
    Owner,
    Parameter,
    Local,
}
