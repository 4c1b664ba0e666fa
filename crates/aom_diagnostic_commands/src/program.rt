//! What a command is about: an image, alone or with the text that it is of, or a text alone.
ghost use Rattle.std.specs.Prelude.{◌≡◌, IfErr, IfOk, Some, option_map};
ghost use Rattle.aom_commands.specs.Assembly.{Makes, RefusesText};
ghost use Rattle.aom_diagnostic_commands.specs.Programs.{IsLoaded, RefusesProgram, text_in};

use crate::with_text::{ImageText, TextFault};
use aom_commands::{Fault, assemble_bytes};
use std::alloc::Global;
use std::marker::Model;

/// What a command is about.
#[derive(Clone, Copy)]
pub enum Program<'a> {
    /// The bytes of an image.
    Image(&'a [u8]),
    /// An assembly text.
    Text(&'a [u8]),
    /// The bytes of an image, and the text that it is of.
    ImageOfText(&'a [u8], &'a [u8]),
}

/// Why a program has no image.
#[derive(Clone, Copy)]
pub enum ProgramFault {
    /// It is a text, and denotes none, or memory was wanting.
    NoImage(Fault),
    /// The text beside its image is refused.
    Beside(TextFault),
}

/// A program whose image is there, with the text that denotes it, where there is one.
#[derive(Drop)]
pub struct LoadedProgram<'a> {
    given: &'a [u8],
    /// The image of a text alone.
    assembled: Option<Vec<u8>>,
    text: Option<ImageText<'a>>,
}

impl<'a> Model for LoadedProgram<'a> {
    ghost use Rattle.std.specs.Prelude.{option_map};
    ghost use Rattle.aom_diagnostic_commands.specs.Programs.{ProgramRecord, given_or};

    ghost Value = { ProgramRecord };

    ghost view = { λ p. record { image = given_or p.given.now (option_map (λ v. v.items) p.assembled); text = p.text } };
}

impl<'a> Program<'a> {
    /// Assembles a text, and looks whether one beside an image denotes it.
    pub(crate) fn load(self, alloc: Global) -> Result<LoadedProgram<'a>, ProgramFault>
        ensures ok { IfOk result (λ loaded. IsLoaded self.entry loaded.image loaded.text) }
        ensures err { IfErr result (λ fault. RefusesProgram self.entry fault) }
    {
        match self {
            Program::Image(image) => Ok(LoadedProgram::of_image(image)),
            Program::Text(text) => match LoadedProgram::of_text(alloc, text) {
                Ok(loaded) => Ok(loaded),
                Err(fault) => Err(ProgramFault::NoImage(fault)),
            },
            Program::ImageOfText(image, text) => match ImageText::with_text(alloc, text, image) {
                Ok(text) => Ok(LoadedProgram::of_both(image, text)),
                Err(fault) => Err(ProgramFault::Beside(fault)),
            },
        }
    }

    /// The text, which is empty where there is none.
    pub(crate) fn text(self) -> &'a [u8]
        ensures { result.now ≡ text_in self.entry }
    {
        match self {
            Program::Image(_) => b"",
            Program::Text(text) => text,
            Program::ImageOfText(_, text) => text,
        }
    }
}

impl<'a> LoadedProgram<'a> {
    fn of_image(image: &'a [u8]) -> LoadedProgram<'a>
        ensures { result ≡ record { image = image.now; text = None } }
    {
        LoadedProgram {
            given: image,
            assembled: None,
            text: None,
        }
    }

    /// The image that a text denotes, with the text.
    fn of_text(alloc: Global, text: &'a [u8]) -> Result<LoadedProgram<'a>, Fault>
        ensures ok { IfOk result (λ loaded. Makes text.now loaded.image × (loaded.text ≡ Some text.now)) }
        ensures err { IfErr result (λ fault. RefusesText text.now fault) }
    {
        let (text, image) = ImageText::with_image(alloc, text)?;
        Ok(LoadedProgram {
            given: b"",
            assembled: Some(image),
            text: Some(text),
        })
    }

    fn of_both(image: &'a [u8], text: ImageText<'a>) -> LoadedProgram<'a>
        ensures { result ≡ record { image = image.now; text = Some text.entry } }
    {
        LoadedProgram {
            given: image,
            assembled: None,
            text: Some(text),
        }
    }

    pub fn image(&self) -> &[u8]
        ensures { result.now ≡ self.now.image }
    {
        match &self.assembled {
            Some(image) => image,
            None => self.given,
        }
    }

    pub fn text(&self) -> Option<&ImageText<'a>>
        ensures { option_map (λ t. t.now) result ≡ self.now.text }
    {
        self.text.as_ref()
    }
}
