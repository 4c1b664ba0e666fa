//! What a refusal is told by, and where it is.
use crate::with_text::ImageText;
use aom_abstract_state::Reason;
use aom_cost_report::Names;
use aom_image::MethodNumber;
use std::marker::Model;

/// The names and the lines of the text that an image is of; without a text, numbers.
#[derive(Drop)]
pub struct Told<'a> {
    pub names: &'a Names<'a>,
    pub text: Option<&'a ImageText<'a>>,
}

impl<'a> Model for Told<'a> {
    ghost use Rattle.std.specs.Prelude.{option_map};
    ghost use Rattle.aom_diagnostic_commands.specs.Explained.{ToldBy};

    ghost Value = { ToldBy };

    ghost view = { λ t. record { names = t.names.now; text = option_map (λ x. x.now) t.text } };
}

/// Where a method is refused, and for which reason.
#[derive(Clone, Copy)]
pub struct RefusedPlace {
    pub method: MethodNumber,
    pub place: usize,
    pub why: Reason,
}
