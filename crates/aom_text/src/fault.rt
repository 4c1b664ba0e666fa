//! Why a text is refused.
ghost use Rattle.std.specs.Prelude.{◌≡◌};
ghost use Rattle.aom_text.specs.Faults.{number_of};
ghost use Rattle.aom_text.specs.declared.fault.AsmFaultKind.TheVariants.{OutOfMemory};

use std::alloc::{AllocError, AllocFailed};
use thiserror::Error;

/// What is wrong with a statement.
#[derive(Clone, Copy, PartialEq, Eq, Debug)]
pub enum AsmFaultKind {
    /// A byte outside 32 to 126 that is no tab, carriage return or line feed.
    NotAscii = 1,
    /// Where a word of the language is expected, a word that is none.
    UnknownWord,
    /// A word that should be a number is none.
    BadNumber,
    /// A name that is declared nowhere.
    UnknownName,
    /// A name that is declared twice.
    DoubleName,
    /// Words that are missing, too many, or in the wrong place or form.
    BadShape,
    /// A number out of its range, one too many of anything, or a text too long.
    LimitPassed,
    OutOfMemory,
}

impl AsmFaultKind {
    /// The number that stands for it in a message.
    pub fn number(self) -> u32
        ensures { result ≡ number_of self }
    {
        self as u32
    }
}

/// The line of a fault, counted from 1, and what is wrong there.
#[derive(Clone, Copy, PartialEq, Eq, Debug, Error)]
#[error("asm {line} {number}", number = .kind.number())]
pub struct AsmFault {
    pub line: u32,
    pub kind: AsmFaultKind,
}

impl From<AllocError> for AsmFaultKind {
    ghost from_gives = { λ _ e. e ≡ OutOfMemory };

    fn from(_error: AllocError) -> AsmFaultKind {
        AsmFaultKind::OutOfMemory
    }
}

impl<T: Drop> From<AllocFailed<T>> for AsmFaultKind {
    ghost from_gives = { λ _ e. e ≡ OutOfMemory };

    fn from(_failed: AllocFailed<T>) -> AsmFaultKind {
        AsmFaultKind::OutOfMemory
    }
}
