//! What a name is looked up as.

/// What a name may stand for where it is used.
#[derive(Clone, Copy, PartialEq, Eq, Debug)]
pub enum Wanted {
    /// A class.
    Class,
    /// A class, or an enum.
    Type,
    /// A method of any class.
    Method,
    /// A method of the class in which the name is used, or of one above it.
    OwnMethod,
    Function,
    Undo,
    /// A member of the enum that is named two tokens before.
    Member,
    Local,
    /// A word or an owner of the class in which the name is used, or of one above it.
    Field,
    Const,
    Enum,
}
