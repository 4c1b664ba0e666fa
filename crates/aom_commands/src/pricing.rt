//! The figures of an image that has been checked, accepted or not.
ghost use Rattle.std.specs.Prelude.{◌≡◌, ◌++◌, None, IfOk, IfErr};
ghost use Rattle.aom_image.specs.Image.{Image};
ghost use Rattle.aom_link_conditions.specs.Linked.{IsLinked};
ghost use Rattle.aom_typing_rules.specs.Typing.{IsTyped, Typing};
ghost use Rattle.aom_budget.specs.Figures.{AreFigures};
ghost use Rattle.aom_commands.specs.Acceptable.{IsSerialized};
ghost use Rattle.aom_commands.specs.Headline.{accepted_text, over};
ghost use Rattle.aom_commands.specs.Prices.{IsPriced, IsWritten, PricesAnswersBy, Shown, StopsEarly};
ghost use Rattle.aom_commands.specs.Unreported.{Unreported};

use crate::accepting::link_bytes;
use crate::{ExitStatus, Fault};
use aom_budget::{BudgetFault, Figures};
use aom_cost_report::{Names, figures_text};
use aom_transcript::{Sink, write_text};
use aom_verify::{Checked, check};
use std::alloc::{AllocError, Global};

/// What is written of a checked image, and why it is refused, if it is.
#[derive(Drop)]
struct Priced {
    text: Vec<u8>,
    refusal: Option<BudgetFault>,
}

/// Writes an image's figures, by those names, behind the word of an accepted one where it is one. A fault is left to be told.
pub(crate) fn try_prices<W: Sink>(
    alloc: Global,
    image: &[u8],
    names: &Names,
    out: &mut W,
) -> Result<ExitStatus, Fault>
    ensures { Unreported (PricesAnswersBy names.now image.now (over W.out W.failed out.old out.new)) result }
{
    match price_bytes(alloc, names, image) {
        Ok(priced) => show(&priced, out),
        Err(fault) => Err(fault),
    }
}

/// Writes what is written. Why the image is refused, if it is, is left to be told, and before it a failure of the output.
fn show<W: Sink>(priced: &Priced, out: &mut W) -> Result<ExitStatus, Fault>
    ensures { Unreported (λ errors status. Shown priced.now.text.items priced.now.refusal status (over W.out W.failed out.old out.new) errors) result }
{
    write_text(out, &priced.text);
    if out.has_failed() {
        return Err(Fault::Write);
    }
    match priced.refusal {
        Some(fault) => Err(Fault::Budget(fault)),
        None => Ok(ExitStatus::Done),
    }
}

/// What is written of the image that the bytes are, or the first fault on the way to its budgets.
fn price_bytes(alloc: Global, names: &Names, bytes: &[u8]) -> Result<Priced, Fault>
    ensures ok { IfOk result (λ priced. IsWritten names.now bytes.now priced.text.items priced.refusal) }
    ensures err { IfErr result (λ fault. StopsEarly bytes.now fault) }
{
    let checked = check_image(alloc, bytes)?;
    let priced = price_checked(alloc, names, &checked);
    drop(checked);
    Ok(priced?)
}

/// What is written of a checked image.
fn price_checked(alloc: Global, names: &Names, checked: &Checked) -> Result<Priced, AllocError>
    ensures { IfOk result (λ priced. IsPriced names.now checked.now priced.text.items priced.refusal) }
{
    let figures = Figures::of_image(alloc, checked)?;
    price_figures(alloc, names, checked, &figures)
}

/// What is written of a checked image that has those figures.
fn price_figures(
    alloc: Global,
    names: &Names,
    checked: &Checked,
    figures: &Figures,
) -> Result<Priced, AllocError>
    requires { AreFigures checked.now figures.now }
    ensures { IfOk result (λ priced. IsPriced names.now checked.now priced.text.items priced.refusal) }
{
    let text = figures_text(alloc, names, checked.linked(), figures)?;
    match figures.keep(checked) {
        Ok(()) => accepted_beside(alloc, &text),
        Err(fault) => Ok(Priced {
            text,
            refusal: Some(fault),
        }),
    }
}

/// What is written of an accepted image with those figures.
fn accepted_beside(alloc: Global, figures: &[u8]) -> Result<Priced, AllocError>
    ensures { IfOk result (λ priced. (priced.text.items ≡ accepted_text ++ figures.now) × (priced.refusal ≡ None)) }
{
    let mut text = Vec::from_slice(alloc, b"accepted\n")?;
    text.extend_from_slice(figures)?;
    Ok(Priced {
        text,
        refusal: None,
    })
}

/// The checked image that the bytes are, or the first fault on the way.
pub(crate) fn check_image(alloc: Global, bytes: &[u8]) -> Result<Checked, Fault>
    ensures ok { IfOk result (λ checked. IsSerialized bytes.now checked × IsLinked checked) }
    ensures typed { IfOk result (λ checked. (t : Typing) × IsTyped checked t) }
    ensures err { IfErr result (λ fault. StopsEarly bytes.now fault) }
    ensures only { (p : Image) → IsSerialized bytes.now p → IfOk result (λ checked. checked ≡ p) }
{
    let linked = link_bytes(alloc, bytes)?;
    let checked = check(alloc, linked)?;
    checked.typed();
    Ok(checked)
}
