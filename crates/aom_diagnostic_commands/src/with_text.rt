//! Texts beside images.
ghost use Rattle.std.specs.Prelude.{ℕ, ◌≡◌, ◌≤◌, ◌^◌, List, IfErr, IfOk, length};
ghost use Rattle.aom_commands.specs.Assembly.{Makes, RefusesText as RefusesFile};
ghost use Rattle.aom_diagnostic_commands.specs.Explaining.{RefusesText};

use aom_commands::{Fault, assemble_bytes};
use aom_text::AsmFault;
use std::alloc::Global;
use std::marker::Model;
use thiserror::Error;

/// Why a text is refused beside an image.
#[derive(Clone, Copy, PartialEq, Eq, Debug, Error)]
pub enum TextFault {
    /// It denotes no image: its first fault.
    #[error(transparent)]
    Asm(AsmFault),
    /// It denotes another image.
    #[error("text")]
    Other,
    #[error("memory")]
    Memory,
}

/// A text that denotes the image beside it.
#[derive(Drop)]
pub struct ImageText<'a> {
    text: &'a [u8],
}

impl<'a> Model for ImageText<'a> {
    ghost use Rattle.std.specs.Prelude.{ℕ, ◌≤◌, ◌^◌, List, length};

    ghost Value = { List ℕ };

    ghost view = { λ t. t.text.now };

    ghost invariant = { λ t. length t.text.now ≤ 2 ^ 20 };
}

impl<'a> ImageText<'a> {
    /// The text, where it denotes the image that those bytes spell.
    pub fn with_text(
        alloc: Global,
        text: &'a [u8],
        image: &[u8],
    ) -> Result<ImageText<'a>, TextFault>
        ensures text { IfOk result (λ t. t ≡ text.now) }
        ensures makes { IfOk result (λ t. Makes text.now image.now) }
        ensures err { IfErr result (λ fault. RefusesText text.now image.now fault) }
    {
        match assemble_bytes(alloc, text) {
            Ok(bytes) if bytes.as_slice() == image => Ok(ImageText { text }),
            Ok(_) => Err(TextFault::Other),
            Err(Fault::Asm(fault)) => Err(TextFault::Asm(fault)),
            Err(_) => Err(TextFault::Memory),
        }
    }

    /// The text with the bytes of the image that it denotes.
    pub fn with_image(alloc: Global, text: &'a [u8]) -> Result<(ImageText<'a>, Vec<u8>), Fault>
        ensures text { IfOk result (λ both. both.0 ≡ text.now) }
        ensures makes { IfOk result (λ both. Makes text.now both.1.items) }
        ensures err { IfErr result (λ fault. RefusesFile text.now fault) }
    {
        let image = assemble_bytes(alloc, text)?;
        Ok((ImageText { text }, image))
    }

    pub fn bytes(&self) -> &'a [u8]
        ensures value { result.now ≡ self.now }
        ensures short { length result.now ≤ 2 ^ 20 }
    {
        self.text
    }
}
