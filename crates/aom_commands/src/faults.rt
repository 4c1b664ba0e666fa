//! What a call is refused for, and how that is told.
ghost use Rattle.std.specs.Prelude.{◌≡◌};
ghost use Rattle.aom_commands.specs.Status.{status_of};
ghost use Rattle.aom_commands.specs.Headline.{Reported, over};
ghost use Rattle.aom_commands.specs.Unreported.{Answered};

use crate::ExitStatus;
use crate::fault_line::fault_line;
use aom_budget::BudgetFault;
use aom_codec::LoadFault;
use aom_link_conditions::LinkFault;
use aom_natives::BootFault;
use aom_script::{ScriptFault, ScriptFaultKind};
use aom_text::{AsmFault, AsmFaultKind};
use aom_transcript::{Sink, write_text};
use aom_verify::Refusal;
use std::alloc::{AllocError, AllocFailed};
use thiserror::Error;

/// Why a call does not do what is asked. Each is told in one line.
#[derive(Clone, Copy, Debug, Error)]
pub enum Fault {
    #[error(transparent)]
    Load(LoadFault),
    #[error(transparent)]
    Asm(AsmFault),
    #[error(transparent)]
    Link(LinkFault),
    #[error(transparent)]
    Verify(Refusal),
    #[error(transparent)]
    Budget(BudgetFault),
    #[error(transparent)]
    Script(ScriptFault),
    /// The machine does not boot.
    #[error(transparent)]
    Boot(BootFault),
    /// No native of that name, or one too many.
    #[error("native")]
    Native,
    /// A file that cannot be read.
    #[error("file")]
    File,
    /// The output has failed.
    #[error("write")]
    Write,
    #[error("memory")]
    Memory,
}

impl Fault {
    /// The status of a call that ends so.
    pub fn status(&self) -> ExitStatus
        ensures { result ≡ status_of self.now }
    {
        match self {
            Fault::Load(_) | Fault::Asm(_) | Fault::Link(_) | Fault::Verify(_) | Fault::Budget(_) =>
                ExitStatus::ImageRefused,
            Fault::Script(_) | Fault::Boot(_) | Fault::Native => ExitStatus::CallRefused,
            Fault::File | Fault::Write | Fault::Memory => ExitStatus::Fault,
        }
    }
}

impl From<LoadFault> for Fault {
    ghost use Rattle.std.specs.Prelude.{◌≡◌};
    ghost use Rattle.aom_commands.specs.Status.{of_load};

    ghost from_gives = { λ e f. f ≡ of_load e };

    fn from(fault: LoadFault) -> Fault {
        match fault {
            LoadFault::OutOfMemory => Fault::Memory,
            _ => Fault::Load(fault),
        }
    }
}

impl From<AsmFault> for Fault {
    ghost use Rattle.std.specs.Prelude.{◌≡◌};
    ghost use Rattle.aom_commands.specs.Status.{of_asm};

    ghost from_gives = { λ e f. f ≡ of_asm e };

    fn from(fault: AsmFault) -> Fault {
        match fault.kind {
            AsmFaultKind::OutOfMemory => Fault::Memory,
            _ => Fault::Asm(fault),
        }
    }
}

impl From<LinkFault> for Fault {
    ghost use Rattle.std.specs.Prelude.{◌≡◌};
    ghost use Rattle.aom_commands.specs.Status.{of_link};

    ghost from_gives = { λ e f. f ≡ of_link e };

    fn from(fault: LinkFault) -> Fault {
        match fault {
            LinkFault::OutOfMemory => Fault::Memory,
            _ => Fault::Link(fault),
        }
    }
}

impl From<Refusal> for Fault {
    ghost use Rattle.std.specs.Prelude.{◌≡◌};
    ghost use Rattle.aom_commands.specs.Status.{of_refusal};

    ghost from_gives = { λ e f. f ≡ of_refusal e };

    fn from(refusal: Refusal) -> Fault {
        match refusal {
            Refusal::OutOfMemory => Fault::Memory,
            _ => Fault::Verify(refusal),
        }
    }
}

impl From<BudgetFault> for Fault {
    ghost use Rattle.std.specs.Prelude.{◌≡◌};
    ghost use Rattle.aom_commands.specs.Status.{of_budget};

    ghost from_gives = { λ e f. f ≡ of_budget e };

    fn from(fault: BudgetFault) -> Fault {
        match fault {
            BudgetFault::OutOfMemory => Fault::Memory,
            _ => Fault::Budget(fault),
        }
    }
}

impl From<ScriptFault> for Fault {
    ghost use Rattle.std.specs.Prelude.{◌≡◌};
    ghost use Rattle.aom_commands.specs.Status.{of_script};

    ghost from_gives = { λ e f. f ≡ of_script e };

    fn from(fault: ScriptFault) -> Fault {
        match fault.kind {
            ScriptFaultKind::OutOfMemory => Fault::Memory,
            _ => Fault::Script(fault),
        }
    }
}

impl From<BootFault> for Fault {
    ghost use Rattle.std.specs.Prelude.{◌≡◌};
    ghost use Rattle.aom_commands.specs.Status.{of_boot};

    ghost from_gives = { λ e f. f ≡ of_boot e };

    fn from(fault: BootFault) -> Fault {
        match fault {
            BootFault::OutOfMemory => Fault::Memory,
            BootFault::TooFewNatives => Fault::Boot(fault),
        }
    }
}

impl From<AllocError> for Fault {
    ghost use Rattle.std.specs.Prelude.{◌≡◌};
    ghost use Rattle.aom_commands.specs.declared.faults.Fault.TheVariants.{Memory};

    ghost from_gives = { λ _ f. f ≡ Memory };

    fn from(_error: AllocError) -> Fault {
        Fault::Memory
    }
}

impl<T: Drop> From<AllocFailed<T>> for Fault {
    ghost use Rattle.std.specs.Prelude.{◌≡◌};
    ghost use Rattle.aom_commands.specs.declared.faults.Fault.TheVariants.{Memory};

    ghost from_gives = { λ _ f. f ≡ Memory };

    fn from(_failed: AllocFailed<T>) -> Fault {
        Fault::Memory
    }
}

/// Answers the status that a call has come to, or tells its fault.
pub fn answer<E: Sink>(found: Result<ExitStatus, Fault>, errors: &mut E) -> ExitStatus
    ensures { Answered found (over E.out E.failed errors.old errors.new) result }
{
    match found {
        Ok(status) => status,
        Err(fault) => report(&fault, errors),
    }
}

/// Writes a fault's line, and answers its status.
pub fn report<E: Sink>(fault: &Fault, errors: &mut E) -> ExitStatus
    ensures { Reported fault.now result (over E.out E.failed errors.old errors.new) }
{
    let line = fault_line(fault);
    write_text(errors, line.as_bytes());
    fault.status()
}
