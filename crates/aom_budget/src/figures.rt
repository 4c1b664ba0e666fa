//! The figures of a checked image, and whether it keeps within what it declares and within the limits.
ghost use Rattle.std.specs.Prelude.{◌≡◌, ◌≤◌, ◌<◌, length, IfOk, IfErr, IsSome};
ghost use Rattle.aom_image.specs.Views.{class_at};
ghost use Rattle.aom_roles.specs.Tables.{at};
ghost use Rattle.aom_static_bounds.specs.Depths.{HasDepths};
ghost use Rattle.aom_static_bounds.specs.Heights.{HasHeights};
ghost use Rattle.aom_budget.specs.Budgets.{BudgetsWithin, budget_of};
ghost use Rattle.aom_budget.specs.Faults.{Refuses};
ghost use Rattle.aom_budget.specs.Figures.{AreFigures, class_by, ClassesWithin, kind_by, main_by, ReportsFirst};

use crate::extents::StackDepths;
use crate::finder::extents_of;
use crate::prices::{kind_price, main_price, prices_of};
use crate::sums::Sums;
use crate::table::class_number;
use crate::{BudgetFault, BudgetOwner};
use aom_image::{ClassDecl, ClassKind, ClassNumber, MethodNumber};
use aom_linker::Linked;
use aom_verify::Checked;
use std::alloc::{AllocError, Global};
use std::marker::Model;

/// What a class declares of each dispatch of its objects, if they are dispatched.
pub fn budget_of(class: &ClassDecl) -> Option<u32>
    ensures { result ≡ budget_of class.now }
{
    match class.kind {
        ClassKind::Plain | ClassKind::Session => None,
        ClassKind::Active { .. } | ClassKind::Server { .. } => Some(class.budget),
    }
}

/// Whether a dispatch costs no more than is declared of it.
fn within(budget_owner: BudgetOwner, price: u64, declared: u32) -> Result<(), BudgetFault>
    ensures ok { IfOk result (λ _. price ≤ declared) }
    ensures err { IfErr result (λ fault. (declared < price) × (fault ≡ BudgetFault.OverBudget budget_owner price declared)) }
{
    if price > u64::from(declared) {
        return Err(BudgetFault::OverBudget {
            budget_owner,
            price,
            declared,
        });
    }
    Ok(())
}

/// What the methods of a checked image come to, and what they cost, by their numbers.
#[derive(Drop)]
pub struct Figures {
    extents: StackDepths,
    prices: Sums,
}

impl Model for Figures {
    ghost use Rattle.aom_budget.specs.Figures.{Figures};

    ghost Value = { Figures };

    ghost view = { λ f. record { depths = f.extents.depths; heights = f.extents.heights; prices = f.prices } };
}

impl Figures {
    /// Finds them, in one walk over the methods by number for extents and one for prices.
    pub fn of_image(alloc: Global, checked: &Checked) -> Result<Figures, AllocError>
        ensures { IfOk result (λ f. AreFigures checked.now f) }
    {
        let extents = extents_of(alloc, checked)?;
        let prices = prices_of(alloc, checked)?;
        Ok(Figures { extents, prices })
    }

    /// How many frames a method may come to, or 257 where that is more than 256.
    pub fn frames(&self, method: MethodNumber) -> u16
        ensures { result ≡ at 0 self.now.depths method }
    {
        self.extents.frames(method)
    }

    /// How many cleanup entries a method may come to, or 1,025 where that is more than 1,024.
    pub fn entries(&self, method: MethodNumber) -> u16
        ensures { result ≡ at 0 self.now.heights method }
    {
        self.extents.entries(method)
    }

    /// How many steps a method takes at most, with all that it calls and destroys, or 2^32 where that is more.
    pub fn price(&self, method: MethodNumber) -> u64
        ensures { result ≡ at 0 self.now.prices method }
    {
        self.prices.at(method.number() as usize)
    }

    /// How many steps main's dispatch takes at most, the root's destruction among them, or 2^32 where that is more.
    pub fn main_price(&self, linked: &Linked) -> u64
        ensures { result ≡ main_by linked.now self.now.prices }
    {
        main_price(linked, &self.prices)
    }

    /// How many steps a dispatch of an object of that class takes at most, or 2^32 where that is more, by the class's kind.
    /// It is 0 where its objects are not dispatched.
    pub fn kind_price(&self, linked: &Linked, class: ClassNumber, kind: ClassKind) -> u64
        ensures { result ≡ kind_by linked.now self.now.prices class kind }
    {
        kind_price(linked, class, kind, &self.prices)
    }

    fn class_price(&self, linked: &Linked, class: ClassNumber) -> u64
        requires { IsSome (class_at linked.now class) }
        ensures { result ≡ class_by linked.now self.now.prices class (class_at linked.now class) }
    {
        self.kind_price(linked, class, linked.class(class).kind)
    }

    /// Whether the classes keep within what they declare, the lowest number first.
    fn keep_classes(&self, linked: &Linked) -> Result<(), BudgetFault>
        ensures ok { IfOk result (λ _. ClassesWithin linked.now self.now.prices (length linked.now.classes)) }
        ensures err { IfErr result (λ fault. ReportsFirst linked.now self.now.prices fault) }
    {
        let classes = linked.image().classes();
        for index in 0..classes.len() {
            let class = class_number(index);
            if let Some(declared) = budget_of(linked.class(class)) {
                let price = self.class_price(linked, class);
                within(BudgetOwner::Class(class), price, declared)?;
            }
        }
        Ok(())
    }

    /// Whether the image keeps within what it declares of main and of the classes, then within 256 frames, and then within
    /// 1,024 cleanup entries.
    pub fn keep(&self, checked: &Checked) -> Result<(), BudgetFault>
        requires { AreFigures checked.now self.now }
        ensures budgets { IfOk result (λ _. BudgetsWithin checked.now) }
        ensures depths { IfOk result (λ _. HasDepths checked.now) }
        ensures heights { IfOk result (λ _. HasHeights checked.now) }
        ensures err { IfErr result (λ fault. Refuses checked.now fault) }
    {
        let linked = checked.linked();
        linked.facts();
        let declared = linked.image().header().budget;
        within(BudgetOwner::Main, self.main_price(linked), declared)?;
        self.keep_classes(linked)?;
        self.extents.keep(checked)
    }
}
