//! What instructions need, as data: the operand by its number, and what is wanted of it.
use aom_image::{EntryDepth, FieldIndex, MethodNumber, Register, Target, Thing, WordIndex};

/// Where an owner may be that an instruction works on.
#[derive(Clone, Copy)]
pub enum Operand {
    Register(Register),
    Field(FieldIndex),
    /// A cleanup entry, counted from the last one that was pushed.
    Entry(EntryDepth),
}

/// Which classes have an instruction in their methods.
#[derive(Clone, Copy)]
pub enum ClassNeed {
    Active,
    /// An active one that issues its requests, and hands no tokens.
    Issuing,
    /// One whose objects are enlisted.
    Listed,
    /// An active one that a native serves.
    Native,
    Token,
}

/// What an instruction needs.
#[derive(Clone, Copy)]
pub enum Wanted {
    Word(Register),
    /// The register owns nothing.
    Unowning(Register),
    ObjectOrNull(Register),
    /// An object or null, and no message.
    Deletable(Register),
    /// An object, surely.
    Pushable(Register),
    /// What may stand for that thing, surely.
    Owner(Operand, Thing),
    /// The same, or null.
    OwnerOrNull(Register, Thing),
    /// The method's object has that word.
    ObjectWord(WordIndex),
    /// The method's object has that field.
    Field(FieldIndex),
    /// A method that works on an object, where one is called that does not.
    MethodOfObjects(MethodNumber),
    /// The method works on the caller's own object, if on any.
    OwnObject(MethodNumber),
    /// The register is no argument of the method, of which the first is in the other.
    NoArgument(Register, Register, MethodNumber),
    /// All arguments of the method, from that register on, are in registers.
    Arguments(MethodNumber, Register),
    /// The register may take what the method gives.
    ResultRegister(MethodNumber, Register),
    /// The first register, where the method gives none.
    NoResult(Register),
    /// The last cleanup entry is an object.
    LastObject,
    /// The last cleanup entry is an operation.
    LastOperation,
    /// The method serves a message.
    Service,
    /// The message in service, which nothing has taken.
    Message,
    OfClass(ClassNeed),
    /// The object that the method is called on is in no state but those in which it begins.
    Begin(MethodNumber, Target),
    /// The method's object is in no state but those in which the method ends.
    End,
    /// The request is in a cancel.
    Cancelling,
    /// The request is not active, where a destructor ends.
    Inactive,
}
