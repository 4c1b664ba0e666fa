//! Why a method is refused.
ghost use Rattle.std.specs.Prelude.{◌≡◌};
ghost use Rattle.aom_abstract_state.specs.Whys.{why_number};

/// The first need of an instruction that its abstract state does not meet.
#[derive(Clone, Copy, PartialEq, Eq, Debug)]
pub enum Reason {
    RegisterKind = 1,
    OwnedAtLeave,
    OwnedAtReturn,
    CleanupAtReturn,
    PopEmpty,
    LeaveNotAllowed,
    FieldNotNull,
    FieldsLeft,
    NotFresh,
    StillFresh,
    NotIdle,
    NotIssued,
    IssuedAtLeave,
    IssuedAtReturn,
    StillActive,
    NotCancelled,
    MessageAtLeave,
    MessageAtReturn,
    NotAdded,
    EntryState,
    QuietBroken,
}

impl Reason {
    /// The number by which a refusal is printed, from 1 to 21.
    pub fn number(self) -> u8
        ensures { result ≡ why_number self }
    {
        self as u8
    }
}
