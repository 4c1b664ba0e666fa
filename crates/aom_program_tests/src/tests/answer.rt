//! What a call answered and wrote.
ghost use Rattle.std.specs.Prelude.{◌≡◌, IfOk};

use super::page::BoundedPage;
use std::alloc::{AllocError, Global};

/// What a call answered and wrote, with its status.
#[derive(PartialEq, Eq, Drop)]
pub struct CallAnswer<S> {
    pub status: S,
    pub out: Vec<u8>,
    pub errors: Vec<u8>,
}

impl<S: Drop> CallAnswer<S> {
    /// An answer with what stands on two pages.
    pub fn of(status: S, out: BoundedPage, errors: BoundedPage) -> CallAnswer<S>
        ensures { result ≡ record { status = status; out = out.text; errors = errors.text } }
    {
        CallAnswer {
            status,
            out: out.text,
            errors: errors.text,
        }
    }

    /// An answer with those texts.
    pub fn reported(
        alloc: Global,
        status: S,
        out: &str,
        errors: &str,
    ) -> Result<CallAnswer<S>, AllocError>
        ensures { IfOk result (λ a. (a.status ≡ status) × (a.out.items ≡ out.now) × (a.errors.items ≡ errors.now)) }
    {
        Ok(CallAnswer {
            status,
            out: Vec::from_slice(alloc, out.as_bytes())?,
            errors: Vec::from_slice(alloc, errors.as_bytes())?,
        })
    }
}
