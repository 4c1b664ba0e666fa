//! Why a command is refused.
ghost use Rattle.std.specs.Prelude.{◌≡◌};
ghost use Rattle.aom_debug_protocol.specs.Faults.{number_of};

use thiserror::Error;

/// What is wrong with a command. Of several the first here is told.
#[derive(Clone, Copy, PartialEq, Eq, Debug, Error)]
#[error("fault {number}", number = self.number())]
pub enum DebugFault {
    /// A word that is unknown, too few or too many of them, a number that is none or out of its range, or a line that is too long.
    BadCommand = 1,
    /// A place that is none, or a breakpoint more than there may be.
    NoSuch,
    /// The run has ended, or nothing can be written any more.
    Ended,
    OutOfMemory,
    /// What the command tells could not be written.
    WriteFault,
    /// A register or a word that is not there: no such object, no such word of it, no method at hand, or the register is not set.
    NotThere,
}

impl DebugFault {
    /// The number by which it is printed.
    pub fn number(self) -> u32
        ensures { result ≡ number_of self }
    {
        self as u32
    }
}
