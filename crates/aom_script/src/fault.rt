//! Why a script is refused.
ghost use Rattle.std.specs.Prelude.{◌≡◌};
ghost use Rattle.aom_script.specs.Faults.{number_of};
ghost use Rattle.aom_script.specs.declared.fault.ScriptFaultKind.TheVariants.{OutOfMemory};

use std::alloc::AllocFailed;
use thiserror::Error;

/// What is wrong with a line. Of several the first here is told.
#[derive(Clone, Copy, PartialEq, Eq, Debug)]
pub enum ScriptFaultKind {
    /// A byte outside 32 to 126 that is no tab, carriage return or line feed.
    NotAscii = 1,
    /// No line of a script begins so, or it has too few or too many words.
    BadLine,
    /// A word that should be a number is none.
    BadNumber,
    /// A time below that of the line before.
    TimeBack,
    /// A number out of its range, a line too many, or a text too long.
    LimitPassed,
    /// No memory for what the line says. The line itself is none of the faulty ones.
    OutOfMemory,
}

impl ScriptFaultKind {
    /// The number that stands for it in a message.
    pub fn number(self) -> u32
        ensures { result ≡ number_of self }
    {
        self as u32
    }
}

/// The first faulty line of a script, counted from 1, and its first fault.
#[derive(Clone, Copy, PartialEq, Eq, Debug, Error)]
#[error("script {line} {number}", number = .kind.number())]
pub struct ScriptFault {
    pub line: u32,
    pub kind: ScriptFaultKind,
}

impl<T: Drop> From<AllocFailed<T>> for ScriptFaultKind {
    ghost from_gives = { λ _ e. e ≡ OutOfMemory };

    fn from(_failed: AllocFailed<T>) -> ScriptFaultKind {
        ScriptFaultKind::OutOfMemory
    }
}
