//! Why an image is not linked.
ghost use Rattle.std.specs.Prelude.{◌≡◌};
ghost use Rattle.aom_link_conditions.specs.Faults.{number_of};
ghost use Rattle.aom_link_conditions.specs.declared.fault.LinkFault.TheVariants.{OutOfMemory};

use std::alloc::AllocError;
use thiserror::Error;

/// The first condition that an image fails, in the order of their numbers.
#[derive(Clone, Copy, PartialEq, Eq, Debug, Error)]
#[error("link {number}", number = self.number())]
pub enum LinkFault {
    ClassOrder = 1,
    CallOrder,
    MissingRole,
    DoubleRole,
    RoleShape,
    BadJump,
    BadLoop,
    NoMain,
    OutOfMemory,
    BadParent,
    BadOverride,
}

impl LinkFault {
    pub fn number(self) -> u8
        ensures { result ≡ number_of self }
    {
        self as u8
    }
}

impl From<AllocError> for LinkFault {
    ghost from_gives = { λ _ e. e ≡ OutOfMemory };

    fn from(_error: AllocError) -> LinkFault {
        LinkFault::OutOfMemory
    }
}
