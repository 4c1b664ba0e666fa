//! Why a machine does not boot.
ghost use Rattle.std.specs.Prelude.{◌≡◌};
ghost use Rattle.aom_natives.specs.Booting.{fault_number};

use std::alloc::AllocError;
use thiserror::Error;

#[derive(Clone, Copy, PartialEq, Eq, Debug, Error)]
pub enum BootFault {
    /// There are fewer natives than the image names.
    #[error("boot 1")]
    TooFewNatives = 1,
    #[error("boot 2")]
    OutOfMemory,
}

impl BootFault {
    /// The number by which it is printed.
    pub fn number(self) -> u8
        ensures { result ≡ fault_number self }
    {
        self as u8
    }
}
