//! Why an image is refused.
ghost use Rattle.std.specs.Prelude.{◌≡◌};

use aom_abstract_state::Reason;
use aom_image::MethodNumber;
use std::alloc::AllocError;
use thiserror::Error;

/// The first method that has no typing, with the place at which a rule or a meet failed and the first need that was
/// not met there.
#[derive(Clone, Copy, PartialEq, Eq, Debug, Error)]
pub enum Refusal {
    #[error("memory")]
    OutOfMemory,
    #[error("verify {method} {place} {why}", method = .method.number(), why = .why.number())]
    Refused {
        method: MethodNumber,
        place: usize,
        why: Reason,
    },
}

impl From<AllocError> for Refusal {
    ghost use Rattle.aom_verify.specs.declared.refusal.Refusal.TheVariants.{OutOfMemory};

    ghost from_gives = { λ _ e. e ≡ OutOfMemory };

    fn from(_error: AllocError) -> Refusal {
        Refusal::OutOfMemory
    }
}
