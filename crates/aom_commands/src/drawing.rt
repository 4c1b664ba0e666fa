//! The graph of an image that has been checked, accepted or not.
ghost use Rattle.std.specs.Prelude.{◌≡◌, IfOk, IfErr};
ghost use Rattle.aom_commands.specs.Drawn.{IsDrawnBy, IsGraph};
ghost use Rattle.aom_commands.specs.Prices.{StopsEarly};

use crate::Fault;
use crate::pricing::check_image;
use aom_budget::Figures;
use aom_cost_report::{Names, dot_text};
use aom_verify::Checked;
use std::alloc::{AllocError, Global};

/// The graph of the image that the bytes are, with those names, or the first fault on the way to its budgets.
pub(crate) fn draw_bytes(alloc: Global, names: &Names, bytes: &[u8]) -> Result<Vec<u8>, Fault>
    ensures ok { IfOk result (λ text. IsDrawnBy names.now bytes.now text.items) }
    ensures err { IfErr result (λ fault. StopsEarly bytes.now fault) }
{
    let checked = check_image(alloc, bytes)?;
    let text = draw_checked(alloc, names, &checked);
    drop(checked);
    Ok(text?)
}

/// The graph of a checked image.
fn draw_checked(alloc: Global, names: &Names, checked: &Checked) -> Result<Vec<u8>, AllocError>
    ensures { IfOk result (λ text. IsGraph names.now checked.now text.items) }
{
    let figures = Figures::of_image(alloc, checked)?;
    dot_text(alloc, names, checked.linked(), &figures)
}
