//! Why bytes are refused.
ghost use Rattle.std.specs.Prelude.{◌≡◌};
ghost use Rattle.aom_codec.specs.Faults.{fault_number};
ghost use Rattle.aom_codec.specs.declared.fault.LoadFault.TheVariants.{OutOfMemory};

use std::alloc::{AllocError, AllocFailed};
use thiserror::Error;

/// The first fault of the bytes from left to right, or want of memory.
#[derive(Clone, Copy, PartialEq, Eq, Debug, Error)]
#[error("load {number}", number = self.number())]
pub enum LoadFault {
    BadMagic = 1,
    BadVersion,
    /// A field whose bytes are not all there.
    Truncated,
    /// Bytes after the last method.
    Trailing,
    LimitPassed,
    BadOpcode,
    BadOperand,
    /// A number of a class, method, place or native that is not there.
    BadIndex,
    /// An unused byte that is not zero.
    NotZero,
    OutOfMemory,
}

impl LoadFault {
    /// From 1 to 10, in the order above.
    pub fn number(self) -> u8
        ensures { result ≡ fault_number self }
    {
        self as u8
    }
}

impl From<AllocError> for LoadFault {
    ghost from_gives = { λ _ e. e ≡ OutOfMemory };

    fn from(_error: AllocError) -> LoadFault {
        LoadFault::OutOfMemory
    }
}

impl<T: Drop> From<AllocFailed<T>> for LoadFault {
    ghost from_gives = { λ _ e. e ≡ OutOfMemory };

    fn from(_failed: AllocFailed<T>) -> LoadFault {
        LoadFault::OutOfMemory
    }
}
