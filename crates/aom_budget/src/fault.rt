//! Why a checked image is not accepted.
ghost use Rattle.std.specs.Prelude.{◌≡◌};
ghost use Rattle.aom_budget.specs.Faults.{number_of};

use aom_image::ClassNumber;
use std::alloc::AllocError;
use std::fmt;
use thiserror::Error;

/// Whose dispatches an image declares a budget of: main, or the objects of an active class or of a server's.
#[derive(Clone, Copy, PartialEq, Eq, Debug)]
pub enum BudgetOwner {
    Main,
    Class(ClassNumber),
}

impl fmt::Display for BudgetOwner {
    ghost use Rattle.std.specs.Prelude.{Some};
    ghost use Rattle.aom_budget.specs.Faults.{budget_owner_text};

    ghost output = { λ p. Some (budget_owner_text p) };

    fn fmt<W: fmt::Write>(&self, f: &mut fmt::Formatter<W>) -> fmt::Result {
        match *self {
            BudgetOwner::Main => write!(f, "main"),
            BudgetOwner::Class(class) => {
                let class = class.number();
                write!(f, "class {class}")
            }
        }
    }
}

/// What an image may come to and must not.
#[derive(Clone, Copy, PartialEq, Eq, Debug, Error)]
pub enum BudgetFault {
    /// A dispatch may take more steps than the image declares of it. A price of 2^32 stands for all that is more.
    #[error("budget 1 {budget_owner} price {price} declared {declared}")]
    OverBudget {
        budget_owner: BudgetOwner,
        price: u64,
        declared: u32,
    },
    /// A method may come to more than 256 frames.
    #[error("budget 2")]
    TooDeep,
    /// A method may come to more than 1,024 cleanup entries.
    #[error("budget 3")]
    CleanupTooDeep,
    #[error("budget 4")]
    OutOfMemory,
}

impl BudgetFault {
    #[tactic(auto, unfolding(crate::specs::Faults::number_of))]
    pub fn number(self) -> u8
        ensures { result ≡ number_of self }
    {
        match self {
            BudgetFault::OverBudget { .. } => 1,
            BudgetFault::TooDeep => 2,
            BudgetFault::CleanupTooDeep => 3,
            BudgetFault::OutOfMemory => 4,
        }
    }
}

impl From<AllocError> for BudgetFault {
    ghost use Rattle.std.specs.Prelude.{◌≡◌};
    ghost use Rattle.aom_budget.specs.declared.fault.BudgetFault.TheVariants.{OutOfMemory};

    ghost from_gives = { λ _ e. e ≡ OutOfMemory };

    fn from(_error: AllocError) -> BudgetFault {
        BudgetFault::OutOfMemory
    }
}
