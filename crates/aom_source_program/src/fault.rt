//! Why a source is refused.
use std::alloc::{AllocError, AllocFailed};

/// What is wrong, by the name under which it is told.
#[derive(Clone, Copy, PartialEq, Eq, Debug)]
pub enum FaultKind {
    // form
    Syntax,
    DoubleName,
    UnknownName,
    NumberRange,
    NumberWanted,
    BadRounds,
    Unreachable,
    NoLoop,
    LoopsTooDeep,
    TooManyLocals,
    TooManyParameters,
    TooManyMethods,
    MethodTooLong,
    ProgramTooLong,
    Internal,
    OutOfMemory,
    // classes
    ClassCycle,
    WrongParent,
    HiddenMethod,
    OverridesNothing,
    OtherSignature,
    MissingRun,
    MissingService,
    WrongRole,
    TooManyFields,
    TooManyClasses,
    TooManyServers,
    NameTooLong,
    NoMain,
    // kinds
    OwnerAsWord,
    WordAsOwner,
    ConditionAsWord,
    NoCondition,
    WrongKind,
    WrongClass,
    WrongArguments,
    WrongCall,
    WrongResult,
    NoResult,
    WrongSuper,
    WrongTrap,
    MaybeParameter,
    // owners
    MayBeNull,
    Moved,
    MovedInLoop,
    OwnerDropped,
    FieldMoved,
    OwnerIntoMaybe,
    NoTestNeeded,
    NoNullHere,
    ReturnInDestruct,
    // messages
    MessageLost,
    MessageOnOneWay,
    MessageNotTaken,
    MessageTakenTwice,
    MessageAtLeave,
    FieldFull,
    // leaves, requests, calls
    MayNotLeave,
    MaybeAtLeave,
    TwoOwnersAtLeave,
    GuardOrder,
    NotEnlisted,
    AlreadyActive,
    AlreadyEnlisted,
    WrongState,
    NotQuiet,
    Recursion,
}

impl FaultKind {
    /// The name by which it is told.
    pub fn name(self) -> &'static str {
        match self {
            FaultKind::Syntax => "syntax",
            FaultKind::DoubleName => "double-name",
            FaultKind::UnknownName => "unknown-name",
            FaultKind::NumberRange => "number-range",
            FaultKind::NumberWanted => "number-wanted",
            FaultKind::BadRounds => "bad-rounds",
            FaultKind::Unreachable => "unreachable",
            FaultKind::NoLoop => "no-loop",
            FaultKind::LoopsTooDeep => "loops-too-deep",
            FaultKind::TooManyLocals => "too-many-locals",
            FaultKind::TooManyParameters => "too-many-parameters",
            FaultKind::TooManyMethods => "too-many-methods",
            FaultKind::MethodTooLong => "method-too-long",
            FaultKind::ProgramTooLong => "program-too-long",
            FaultKind::Internal => "internal",
            FaultKind::OutOfMemory => "out-of-memory",
            FaultKind::ClassCycle => "class-cycle",
            FaultKind::WrongParent => "wrong-parent",
            FaultKind::HiddenMethod => "hidden-method",
            FaultKind::OverridesNothing => "overrides-nothing",
            FaultKind::OtherSignature => "other-signature",
            FaultKind::MissingRun => "missing-run",
            FaultKind::MissingService => "missing-service",
            FaultKind::WrongRole => "wrong-role",
            FaultKind::TooManyFields => "too-many-fields",
            FaultKind::TooManyClasses => "too-many-classes",
            FaultKind::TooManyServers => "too-many-servers",
            FaultKind::NameTooLong => "name-too-long",
            FaultKind::NoMain => "no-main",
            FaultKind::OwnerAsWord => "owner-as-word",
            FaultKind::WordAsOwner => "word-as-owner",
            FaultKind::ConditionAsWord => "condition-as-word",
            FaultKind::NoCondition => "no-condition",
            FaultKind::WrongKind => "wrong-kind",
            FaultKind::WrongClass => "wrong-class",
            FaultKind::WrongArguments => "wrong-arguments",
            FaultKind::WrongCall => "wrong-call",
            FaultKind::WrongResult => "wrong-result",
            FaultKind::NoResult => "no-result",
            FaultKind::WrongSuper => "wrong-super",
            FaultKind::WrongTrap => "wrong-trap",
            FaultKind::MaybeParameter => "maybe-parameter",
            FaultKind::MayBeNull => "may-be-null",
            FaultKind::Moved => "moved",
            FaultKind::MovedInLoop => "moved-in-loop",
            FaultKind::OwnerDropped => "owner-dropped",
            FaultKind::FieldMoved => "field-moved",
            FaultKind::OwnerIntoMaybe => "owner-into-maybe",
            FaultKind::NoTestNeeded => "no-test-needed",
            FaultKind::NoNullHere => "no-null-here",
            FaultKind::ReturnInDestruct => "return-in-destruct",
            FaultKind::MessageLost => "message-lost",
            FaultKind::MessageOnOneWay => "message-on-one-way",
            FaultKind::MessageNotTaken => "message-not-taken",
            FaultKind::MessageTakenTwice => "message-taken-twice",
            FaultKind::MessageAtLeave => "message-at-leave",
            FaultKind::FieldFull => "field-full",
            FaultKind::MayNotLeave => "may-not-leave",
            FaultKind::MaybeAtLeave => "maybe-at-leave",
            FaultKind::TwoOwnersAtLeave => "two-owners-at-leave",
            FaultKind::GuardOrder => "guard-order",
            FaultKind::NotEnlisted => "not-enlisted",
            FaultKind::AlreadyActive => "already-active",
            FaultKind::AlreadyEnlisted => "already-enlisted",
            FaultKind::WrongState => "wrong-state",
            FaultKind::NotQuiet => "not-quiet",
            FaultKind::Recursion => "recursion",
        }
    }

    /// Whether another set of states in which a method may begin could mend it.
    pub fn is_of_states(self) -> bool {
        matches!(
            self,
            FaultKind::NotEnlisted
                | FaultKind::AlreadyActive
                | FaultKind::WrongState
                | FaultKind::AlreadyEnlisted
        )
    }
}

/// What is wrong, at which token, and the names that its sentence has. A name that a sentence does not want is empty.
#[derive(Clone, Copy, PartialEq, Eq, Debug)]
pub struct Fault<'a> {
    pub kind: FaultKind,
    /// The number of the token at which it is told.
    pub token: u32,
    /// What it is about: a local, a field, a method, a class.
    pub subject: &'a [u8],
    /// What stands beside it.
    pub other: &'a [u8],
}

impl<'a> Fault<'a> {
    /// A fault at a token.
    pub fn at(kind: FaultKind, token: u32) -> Fault<'a> {
        Fault {
            kind,
            token,
            subject: b"",
            other: b"",
        }
    }

    /// The fault about a name.
    pub fn about(self, subject: &'a [u8]) -> Fault<'a> {
        Fault { subject, ..self }
    }

    /// The fault with what stands beside its subject.
    pub fn beside(self, other: &'a [u8]) -> Fault<'a> {
        Fault { other, ..self }
    }

    /// What no source can bring about: a fault of the translator.
    pub fn internal() -> Fault<'a> {
        Fault::at(FaultKind::Internal, 0)
    }
}

impl<'a> From<AllocError> for Fault<'a> {
    fn from(_error: AllocError) -> Fault<'a> {
        Fault::at(FaultKind::OutOfMemory, 0)
    }
}

impl<'a, T: Drop> From<AllocFailed<T>> for Fault<'a> {
    fn from(_error: AllocFailed<T>) -> Fault<'a> {
        Fault::at(FaultKind::OutOfMemory, 0)
    }
}
