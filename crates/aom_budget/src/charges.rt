//! What an instruction sets going: what it is charged for, and what it may call.
ghost use Rattle.std.specs.Prelude.{◌≡◌};
ghost use Rattle.aom_static_bounds.specs.Charges.{charge_of};
ghost use Rattle.aom_budget.specs.Charging.{charge_said};

use aom_image::{Instr, MethodNumber, Register};
use aom_instructions::Action;

/// What an instruction sets going, now or as it leaves the cleanup stack.
#[derive(Clone, Copy)]
pub(crate) enum Charge {
    Nothing,
    /// A method, or what overrides it.
    Call(MethodNumber),
    /// A method that runs as it leaves the cleanup stack.
    Operation(MethodNumber),
    /// What the register has goes.
    Destruction(Register),
    /// The request of what the method works on is cancelled.
    Cancel,
}

impl Charge {
    pub(crate) fn of(instr: &Instr) -> Charge
        ensures { charge_said result ≡ charge_of instr.now }
    {
        match &instr.action() {
            Action::Call(_, _, called, _, _) => Charge::Call(*called),
            Action::PushOperation(_, pushed) => Charge::Operation(*pushed),
            Action::Push(register) | Action::Destroy(register) => Charge::Destruction(*register),
            Action::Cancel => Charge::Cancel,
            _ => Charge::Nothing,
        }
    }
}
