//! Acceptance: whether a checked image keeps within its limits.
//!
//! Promises: `accept` answers an `Accepted` where each dispatch takes at most the steps that the image declares of it,
//! and no method may come to more than 256 frames, or to more than 1,024 cleanup entries; an `Accepted` hands out all
//! that is known of a linked, checked and accepted image, and what each method costs (`Accepted::price`). `Figures` are
//! there for images that are refused here, too. It knows nothing of the machine.
#![tactic(auto)]

mod accepted;
mod callees;
mod cancels;
mod charges;
mod costs;
mod destructions;
mod extents;
mod fault;
mod figures;
mod finder;
mod lines;
mod pass;
mod prices;
mod raising;
mod sums;
mod table;
mod targets;

pub use accepted::{Accepted, accept};
pub use fault::{BudgetFault, BudgetOwner};
pub use figures::{Figures, budget_of};
