//! How many frames the methods may come to, and how many cleanup entries.
ghost use Rattle.std.specs.Prelude.{◌≡◌, length, IfOk, IfErr};
ghost use Rattle.aom_roles.specs.Tables.{at};
ghost use Rattle.aom_static_bounds.specs.Depths.{HasDepths};
ghost use Rattle.aom_static_bounds.specs.Heights.{HasHeights};
ghost use Rattle.aom_budget.specs.Budgets.{BudgetsWithin};
ghost use Rattle.aom_budget.specs.StackDepths.{AreFilled};
ghost use Rattle.aom_budget.specs.Faults.{Refuses};

use crate::BudgetFault;
use crate::table::Table;
use aom_image::MethodNumber;
use aom_verify::Checked;

/// How many frames a method may come to.
pub(crate) const MAX_FRAMES: u16 = 256;

/// How many cleanup entries a method may come to.
pub(crate) const MAX_ENTRIES: u16 = 1024;

/// By the numbers of the methods.
#[derive(Drop)]
pub(crate) struct StackDepths {
    pub(crate) depths: Table,
    pub(crate) heights: Table,
}

impl StackDepths {
    /// How many frames a method may come to.
    pub(crate) fn frames(&self, method: MethodNumber) -> u16
        ensures { result ≡ at 0 self.now.depths method }
    {
        self.depths.of_method(method)
    }

    /// How many cleanup entries a method may come to.
    pub(crate) fn entries(&self, method: MethodNumber) -> u16
        ensures { result ≡ at 0 self.now.heights method }
    {
        self.heights.of_method(method)
    }

    /// Whether they are within their limits: the depths are looked at first.
    pub(crate) fn keep(&self, checked: &Checked) -> Result<(), BudgetFault>
        requires filled { AreFilled checked.now (length checked.now.methods) self.now.depths self.now.heights }
        requires budgets { BudgetsWithin checked.now }
        ensures budgets { IfOk result (λ _. BudgetsWithin checked.now) }
        ensures depths { IfOk result (λ _. HasDepths checked.now) }
        ensures heights { IfOk result (λ _. HasHeights checked.now) }
        ensures err { IfErr result (λ fault. Refuses checked.now fault) }
    {
        checked.linked().facts();
        checked.typed();
        if !self.depths.keeps_to(MAX_FRAMES) {
            return Err(BudgetFault::TooDeep);
        }
        if !self.heights.keeps_to(MAX_ENTRIES) {
            return Err(BudgetFault::CleanupTooDeep);
        }
        Ok(())
    }
}
