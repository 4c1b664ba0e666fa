//! Accepted images.
ghost use Rattle.std.specs.Prelude.{◌≡◌, IfOk, IfErr, IsSome};
ghost use Rattle.aom_image.specs.Views.{method_at};
ghost use Rattle.aom_link_conditions.specs.Linked.{IsLinked};
ghost use Rattle.aom_typing_rules.specs.Typing.{Typing, IsTyped};
ghost use Rattle.aom_static_bounds.specs.Strongest.{IsStrongest};
ghost use Rattle.aom_static_bounds.specs.Depths.{HasDepths, DepthsWithin};
ghost use Rattle.aom_static_bounds.specs.Heights.{HasHeights, HeightsWithin};
ghost use Rattle.aom_static_bounds.specs.Dispatches.{IsAffordable};
ghost use Rattle.aom_static_bounds.specs.Prices.{Prices};
ghost use Rattle.aom_budget.specs.Budgets.{BudgetsWithin, CostsWithin};
ghost use Rattle.aom_budget.specs.Pricing.{IsPriceUpTo};
ghost use Rattle.aom_budget.specs.Faults.{RefusesOrWants};
ghost use Rattle.aom_budget.specs.Figures.{AreFigures};

use crate::{BudgetFault, Figures};
use aom_image::MethodNumber;
use aom_linker::Linked;
use aom_verify::Checked;
use std::alloc::Global;
use std::marker::Model;

/// A checked image that keeps within its limits.
#[derive(Drop)]
pub struct Accepted {
    checked: Checked,
    figures: Figures,
}

impl Model for Accepted {
    ghost use Rattle.aom_image.specs.Image.{Image};
    ghost use Rattle.aom_static_bounds.specs.Depths.{HasDepths};
    ghost use Rattle.aom_static_bounds.specs.Heights.{HasHeights};
    ghost use Rattle.aom_budget.specs.Budgets.{BudgetsWithin};
    ghost use Rattle.aom_budget.specs.Figures.{AreFigures};

    ghost Value = { Image };

    ghost view = { λ a. a.checked };

    ghost invariant = { λ a. BudgetsWithin a.checked × HasDepths a.checked × HasHeights a.checked × AreFigures a.checked a.figures };
}

impl Accepted {
    pub fn checked(&self) -> &Checked
        ensures { result.now ≡ self.now }
    {
        &self.checked
    }

    pub fn linked(&self) -> &Linked
        ensures { result.now ≡ self.now }
    {
        self.checked.linked()
    }

    pub fn figures(&self) -> &Figures
        ensures { AreFigures self.now result.now }
    {
        &self.figures
    }

    /// It is linked and has a typing. Each dispatch takes at most the steps that are declared of it. What an instruction
    /// that its strongest typing reaches may call is less deep than its own method, so no stack of such frames is higher
    /// than 256, and no method comes to more than 1,024 cleanup entries.
    pub fn facts(&self)
        ensures linked { IsLinked self.now }
        ensures typed { (t : Typing) × IsTyped self.now t }
        ensures strongest { (t : Typing) × IsStrongest self.now t }
        ensures budgets { BudgetsWithin self.now }
        ensures affordable { (t : Typing) × IsStrongest self.now t × (c : Prices) × IsAffordable self.now t c × CostsWithin self.now c }
        ensures depths { HasDepths self.now }
        ensures within { DepthsWithin self.now }
        ensures heights { HasHeights self.now }
        ensures high { HeightsWithin self.now }
    {
        let linked = self.linked();
        let _formed = linked.image().methods();
        linked.facts();
        self.checked.typed();
    }

    /// How many steps a method takes at most, with all that it calls and destroys, or 2^32 where that is more.
    pub fn price(&self, method: MethodNumber) -> u64
        requires { IsSome (method_at self.now method) }
        ensures { IsPriceUpTo self.now method result }
    {
        self.figures.price(method)
    }
}

/// The figures of a checked image that keeps within its limits.
fn kept_figures(alloc: Global, checked: &Checked) -> Result<Figures, BudgetFault>
    ensures found { IfOk result (λ figures. AreFigures checked.now figures) }
    ensures budgets { IfOk result (λ _. BudgetsWithin checked.now) }
    ensures depths { IfOk result (λ _. HasDepths checked.now) }
    ensures heights { IfOk result (λ _. HasHeights checked.now) }
    ensures refused { IfErr result (λ fault. RefusesOrWants checked.now fault) }
{
    let figures = Figures::of_image(alloc, checked)?;
    match figures.keep(checked) {
        Ok(()) => Ok(figures),
        Err(fault) => {
            drop(figures);
            Err(fault)
        }
    }
}

/// Accepts an image, or refuses it where a dispatch may take more steps than it declares, where a method may come to
/// more than 256 frames, or to more than 1,024 cleanup entries. A refused image is dropped.
pub fn accept(alloc: Global, checked: Checked) -> Result<Accepted, BudgetFault>
    ensures ok { IfOk result (λ accepted. accepted ≡ checked) }
    ensures refused { IfErr result (λ fault. RefusesOrWants checked fault) }
    ensures complete { BudgetsWithin checked → DepthsWithin checked → HeightsWithin checked → IfErr result (λ fault. fault ≡ BudgetFault.OutOfMemory) }
{
    let linked = checked.linked();
    let _formed = linked.image().methods();
    linked.facts();
    match kept_figures(alloc, &checked) {
        Ok(figures) => Ok(Accepted { checked, figures }),
        Err(fault) => {
            drop(checked);
            Err(fault)
        }
    }
}
