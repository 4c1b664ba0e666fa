//! The text of an image's figures.
ghost use Rattle.std.specs.Prelude.{◌≡◌, ◌<◌, ◌++◌, length, IfOk, None, OnOk, Some};
ghost use Rattle.aom_budget.specs.Faults.{budget_owner_text};
ghost use Rattle.aom_budget.specs.declared.fault.BudgetOwner.TheVariants as budget_owners;
ghost use Rattle.aom_cost_report.specs.Text.{classes_text, declared_text, dispatch_at, dispatch_line, entries_line, figures_text, frames_line, limits_text, method_line, methods_text, budget_owner_lines, budget_owner_word};
ghost use Rattle.aom_budget.specs.Figures.{kind_by};
ghost use Rattle.aom_budget.specs.Budgets.{budget_of};

use crate::most::{method_number, most_of};
use crate::writer::FigureWriter;
use crate::{Names, Places};
use aom_budget::{BudgetOwner, Figures, budget_of};
use aom_image::{ClassDecl, ClassNumber, MethodNumber};
use aom_linker::Linked;
use std::alloc::{AllocError, Global};

/// The number of the class at an index.
fn class_number(index: usize) -> ClassNumber
    requires { index < 256 }
    ensures { result ≡ index }
{
    ClassNumber::new(index as u16).unwrap()
}

impl FigureWriter {
    /// Whose dispatch it is.
    pub fn budget_owner(&mut self, budget_owner: BudgetOwner) -> Result<(), AllocError>
        ensures { OnOk result (self.new ≡ self.old ++ budget_owner_text budget_owner) }
    {
        match budget_owner {
            BudgetOwner::Main => self.words(b"main"),
            BudgetOwner::Class(class) => self.count(b"class ", u64::from(class.number())),
        }
    }

    /// Whose dispatch it is, told by the name of its class.
    fn budget_owner_word(
        &mut self,
        names: &Names,
        budget_owner: BudgetOwner,
    ) -> Result<(), AllocError>
        ensures { OnOk result (self.new ≡ self.old ++ budget_owner_word names.now budget_owner) }
    {
        match budget_owner {
            BudgetOwner::Main => self.words(b"main"),
            BudgetOwner::Class(class) => {
                self.words(b"class ")?;
                names.write_class(self, b"", class)
            }
        }
    }

    /// What a dispatch costs, with the line that declares what it may cost, where that is told.
    fn dispatch(
        &mut self,
        names: &Names,
        budget_owner: BudgetOwner,
        price: u64,
        declared: u32,
    ) -> Result<(), AllocError>
        ensures { OnOk result (self.new ≡ self.old ++ dispatch_line names.now budget_owner price declared) }
    {
        match names.places() {
            Some(places) => self.dispatch_placed(places, names, budget_owner, price, declared),
            None => self.dispatch_alone(names, budget_owner, price, declared),
        }
    }

    fn dispatch_placed(
        &mut self,
        places: &Places,
        names: &Names,
        budget_owner: BudgetOwner,
        price: u64,
        declared: u32,
    ) -> Result<(), AllocError>
        ensures { OnOk result (self.new ≡ self.old ++ dispatch_at (Some places.now) names.now budget_owner price declared) }
    {
        self.lead(places, places.budget_owner_line(&budget_owner))?;
        self.count(b"price ", price)?;
        self.words(b" of ")?;
        self.budget_owner_word(names, budget_owner)?;
        self.count(b"'s ", u64::from(declared))?;
        self.words(b"\n")
    }

    fn dispatch_alone(
        &mut self,
        names: &Names,
        budget_owner: BudgetOwner,
        price: u64,
        declared: u32,
    ) -> Result<(), AllocError>
        ensures { OnOk result (self.new ≡ self.old ++ dispatch_at None names.now budget_owner price declared) }
    {
        self.budget_owner_word(names, budget_owner)?;
        self.count(b" price ", price)?;
        self.count(b" declared ", u64::from(declared))?;
        self.words(b"\n")
    }

    /// A line for a class whose objects are dispatched.
    fn class(
        &mut self,
        names: &Names,
        linked: &Linked,
        figures: &Figures,
        class: ClassNumber,
        declaration: &ClassDecl,
    ) -> Result<(), AllocError>
        ensures { OnOk result (self.new ≡ self.old ++ declared_text names.now (budget_owners.Class class) (kind_by linked.now figures.now.prices class declaration.now.kind) (budget_of declaration.now)) }
    {
        match budget_of(declaration) {
            Some(declared) => {
                let price = figures.kind_price(linked, class, declaration.kind);
                self.dispatch(names, BudgetOwner::Class(class), price, declared)
            }
            None => Ok(()),
        }
    }

    fn classes(
        &mut self,
        names: &Names,
        linked: &Linked,
        figures: &Figures,
    ) -> Result<(), AllocError>
        ensures { OnOk result (self.new ≡ self.old ++ classes_text names.now linked.now figures.now.prices) }
    {
        let classes = linked.image().classes();
        for index in 0..classes.len() {
            self.class(
                names,
                linked,
                figures,
                class_number(index),
                classes.at(index),
            )?;
        }
        Ok(())
    }

    /// What all methods keep within, if they do.
    fn limits(
        &mut self,
        names: &Names,
        linked: &Linked,
        figures: &Figures,
    ) -> Result<(), AllocError>
        ensures { OnOk result (self.new ≡ self.old ++ limits_text names.now linked.now figures.now) }
    {
        let most = most_of(linked, figures);
        self.file_lead(names)?;
        self.count(b"frames ", u64::from(most.frames))?;
        self.words(b" of 256\n")?;
        self.file_lead(names)?;
        self.count(b"entries ", u64::from(most.entries))?;
        self.words(b" of 1024\n")
    }

    fn method(
        &mut self,
        names: &Names,
        figures: &Figures,
        method: MethodNumber,
    ) -> Result<(), AllocError>
        ensures { OnOk result (self.new ≡ self.old ++ method_line names.now figures.now method) }
    {
        self.method_lead(names, method)?;
        self.words(b"method ")?;
        names.write_method(self, b"", method)?;
        self.count(b" price ", figures.price(method))?;
        self.count(b" frames ", u64::from(figures.frames(method)))?;
        self.count(b" entries ", u64::from(figures.entries(method)))?;
        self.words(b"\n")
    }

    fn methods(
        &mut self,
        names: &Names,
        linked: &Linked,
        figures: &Figures,
    ) -> Result<(), AllocError>
        ensures { OnOk result (self.new ≡ self.old ++ methods_text names.now linked.now figures.now) }
    {
        let methods = linked.image().methods();
        for index in 0..methods.len() {
            self.method(names, figures, method_number(index))?;
        }
        Ok(())
    }
}

/// The text of the figures of an image, with the names of classes and methods where there are some.
pub fn figures_text(
    alloc: Global,
    names: &Names,
    linked: &Linked,
    figures: &Figures,
) -> Result<Vec<u8>, AllocError>
    ensures { IfOk result (λ text. text.items ≡ figures_text names.now linked.now figures.now) }
{
    let mut writer = FigureWriter::new(alloc);
    let declared = linked.image().header().budget;
    writer.dispatch(
        names,
        BudgetOwner::Main,
        figures.main_price(linked),
        declared,
    )?;
    writer.classes(names, linked, figures)?;
    writer.limits(names, linked, figures)?;
    writer.methods(names, linked, figures)?;
    Ok(writer.into_text())
}
