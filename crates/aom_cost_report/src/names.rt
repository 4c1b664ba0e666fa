//! The names of classes and methods, or their numbers.
ghost use Rattle.std.specs.Prelude.{◌≡◌, ◌++◌, None, OnOk, Some, map, option_map};
ghost use Rattle.aom_cost_report.specs.Names.{label, unnamed};

use crate::{FigureWriter, Places};
use aom_image::{ClassNumber, MethodNumber};
use std::alloc::AllocError;
use std::marker::Model;

/// The names of classes and of methods, that of number 0 first, and where a text declares them.
#[derive(Drop)]
pub struct Names<'a> {
    classes: &'a [&'a [u8]],
    methods: &'a [&'a [u8]],
    places: Option<Places<'a>>,
}

impl<'a> Model for Names<'a> {
    ghost use Rattle.std.specs.Prelude.{map};
    ghost use Rattle.aom_cost_report.specs.Names.{Names as NamesRecord};

    ghost Value = { NamesRecord };

    ghost view = { λ n. record { classes = map (λ w. w.now) n.classes.now; methods = map (λ w. w.now) n.methods.now; places = n.places } };
}

/// Writes the name at a number or, where there is none, words and the number.
fn write_label(
    out: &mut FigureWriter,
    names: &[&[u8]],
    words: &[u8],
    number: u16,
) -> Result<(), AllocError>
    ensures { OnOk result (out.new ≡ out.old ++ label (map (λ w. w.now) names.now) words.now number) }
{
    match names.get(number as usize) {
        Some(name) => out.words(name),
        None => out.count(words, u64::from(number)),
    }
}

impl<'a> Names<'a> {
    pub fn new(classes: &'a [&'a [u8]], methods: &'a [&'a [u8]]) -> Names<'a>
        ensures { result ≡ record { classes = map (λ w. w.now) classes.entry.now; methods = map (λ w. w.now) methods.entry.now; places = None } }
    {
        Names {
            classes,
            methods,
            places: None,
        }
    }

    /// Names whose places in a text are told too.
    pub fn placed(classes: &'a [&'a [u8]], methods: &'a [&'a [u8]], places: Places<'a>) -> Names<'a>
        ensures { result ≡ record { classes = map (λ w. w.now) classes.entry.now; methods = map (λ w. w.now) methods.entry.now; places = Some places.entry } }
    {
        Names {
            classes,
            methods,
            places: Some(places),
        }
    }

    /// No names: all is told by numbers.
    pub fn none() -> Names<'a>
        ensures { result ≡ unnamed }
    {
        Names {
            classes: &[],
            methods: &[],
            places: None,
        }
    }

    /// Where a text declares them, if that is told.
    pub(crate) fn places(&self) -> Option<&Places<'a>>
        ensures { option_map (λ p. p.now) result ≡ self.now.places }
    {
        self.places.as_ref()
    }

    /// Writes the name of a class or, where it has none, words and its number.
    pub fn write_class(
        &self,
        out: &mut FigureWriter,
        words: &[u8],
        class: ClassNumber,
    ) -> Result<(), AllocError>
        ensures { OnOk result (out.new ≡ out.old ++ label self.now.classes words.now class) }
    {
        write_label(out, self.classes, words, class.number())
    }

    /// Writes the name of a method or, where it has none, words and its number.
    pub fn write_method(
        &self,
        out: &mut FigureWriter,
        words: &[u8],
        method: MethodNumber,
    ) -> Result<(), AllocError>
        ensures { OnOk result (out.new ≡ out.old ++ label self.now.methods words.now method) }
    {
        write_label(out, self.methods, words, method.number())
    }
}
