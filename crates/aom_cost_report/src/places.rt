//! Where a text declares what its image has, as compilers write it.
ghost use Rattle.std.specs.Prelude.{◌≡◌, ◌++◌, OnOk, slice_get};
ghost use Rattle.aom_cost_report.specs.Places.{file_lead, lead, method_lead, budget_owner_line, place_text};

use crate::{FigureWriter, Names};
use aom_budget::BudgetOwner;
use aom_image::{ClassNumber, MethodNumber};
use std::alloc::AllocError;
use std::marker::Model;

/// The name of a text's file, and the lines of it that declare the image, its classes and its methods.
#[derive(Drop)]
pub struct Places<'a> {
    file: &'a [u8],
    image: Option<u32>,
    classes: &'a [u32],
    methods: &'a [u32],
}

impl<'a> Model for Places<'a> {
    ghost use Rattle.aom_cost_report.specs.Places.{Places as PlacesRecord};

    ghost Value = { PlacesRecord };

    ghost view = { λ p. record { file = p.file.now; image = p.image; classes = p.classes.now; methods = p.methods.now } };
}

impl<'a> Places<'a> {
    /// The line of class 0 and that of method 0 come first.
    pub fn new(
        file: &'a [u8],
        image: Option<u32>,
        classes: &'a [u32],
        methods: &'a [u32],
    ) -> Places<'a>
        ensures { result ≡ record { file = file.entry.now; image = image; classes = classes.entry.now; methods = methods.entry.now } }
    {
        Places {
            file,
            image,
            classes,
            methods,
        }
    }

    fn class_line(&self, class: ClassNumber) -> Option<u32>
        ensures { result ≡ slice_get self.now.classes class }
    {
        self.classes.get(class.number() as usize).copied()
    }

    fn method_line(&self, method: MethodNumber) -> Option<u32>
        ensures { result ≡ slice_get self.now.methods method }
    {
        self.methods.get(method.number() as usize).copied()
    }

    /// The line that declares what a dispatch may cost.
    pub(crate) fn budget_owner_line(&self, budget_owner: &BudgetOwner) -> Option<u32>
        ensures { result ≡ budget_owner_line self.now budget_owner.now }
    {
        match *budget_owner {
            BudgetOwner::Main => self.image,
            BudgetOwner::Class(class) => self.class_line(class),
        }
    }
}

impl FigureWriter {
    /// The number of a line behind the name of its file, where there is one.
    pub fn place(&mut self, line: Option<u32>) -> Result<(), AllocError>
        ensures { OnOk result (self.new ≡ self.old ++ place_text line) }
    {
        match line {
            Some(line) => self.count(b":", u64::from(line)),
            None => Ok(()),
        }
    }

    /// The file, and the line of it where there is one.
    pub(crate) fn lead(&mut self, places: &Places, line: Option<u32>) -> Result<(), AllocError>
        ensures { OnOk result (self.new ≡ self.old ++ lead places.now line) }
    {
        self.words(places.file)?;
        self.place(line)?;
        self.words(b": ")
    }

    /// The file, where places are told.
    pub(crate) fn file_lead(&mut self, names: &Names) -> Result<(), AllocError>
        ensures { OnOk result (self.new ≡ self.old ++ file_lead names.now.places) }
    {
        match names.places() {
            Some(places) => self.lead(places, None),
            None => Ok(()),
        }
    }

    /// The file and the line of a method, where places are told.
    pub(crate) fn method_lead(
        &mut self,
        names: &Names,
        method: MethodNumber,
    ) -> Result<(), AllocError>
        ensures { OnOk result (self.new ≡ self.old ++ method_lead names.now.places method) }
    {
        match names.places() {
            Some(places) => self.lead(places, places.method_line(method)),
            None => Ok(()),
        }
    }
}
