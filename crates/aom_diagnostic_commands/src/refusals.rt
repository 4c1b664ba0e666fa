//! The first fault of each method that the verifier refuses.
ghost use Rattle.std.specs.Prelude.{◌≡◌, ◌<◌, ◌++◌, ◌∷◌, [], IfOk, IsSome, OnOk};
ghost use Rattle.aom_image.specs.Image.{Image as ImageRecord};
ghost use Rattle.aom_image.specs.Views.{method_at};
ghost use Rattle.aom_commands.specs.Acceptable.{IsSerialized};
ghost use Rattle.aom_diagnostic_commands.specs.EachMethod.{AnswersMethod, RefusesEach, somes};

use aom_codec::decode;
use aom_image::{Image, MethodNumber};
use aom_linker::{Linked, link};
use aom_verify::{Refusal, stop_of};
use std::alloc::{AllocError, Global};

/// The number of the method at an index.
fn number_at(index: usize) -> MethodNumber
    requires { index < 1024 }
    ensures { result ≡ index }
{
    MethodNumber::new(index as u16).unwrap()
}

/// Why the verifier refuses a method, if it does.
fn refusal_of(
    alloc: Global,
    linked: &Linked,
    method: MethodNumber,
) -> Result<Option<Refusal>, AllocError>
    requires { IsSome (method_at linked.now method) }
    ensures { IfOk result (AnswersMethod linked.now method) }
{
    match stop_of(alloc, linked, method)? {
        Some(stop) => Ok(Some(Refusal::Refused {
            method,
            place: stop.place,
            why: stop.why,
        })),
        None => Ok(None),
    }
}

/// Adds why a method is refused, if it is.
fn add_refusal(refusals: &mut Vec<Refusal>, refusal: Option<Refusal>) -> Result<(), AllocError>
    ensures { OnOk result (refusals.new.items ≡ refusals.old.items ++ somes (refusal ∷ [])) }
{
    match refusal {
        Some(refusal) => Ok(refusals.push(refusal)?),
        None => Ok(()),
    }
}

/// The first fault of each method of a linked image that the verifier refuses, in their order.
fn refusals_of(alloc: Global, linked: &Linked) -> Result<Vec<Refusal>, AllocError>
    ensures { IfOk result (λ refusals. RefusesEach linked.now refusals.items) }
{
    let methods = linked.image().methods();
    let mut refusals = Vec::new(alloc);
    for index in 0..methods.len() {
        let refusal = refusal_of(alloc, linked, number_at(index))?;
        add_refusal(&mut refusals, refusal)?;
    }
    Ok(refusals)
}

/// The same of an image, which is linked.
fn refusals_in(alloc: Global, image: Image) -> Result<Vec<Refusal>, AllocError>
    ensures { IfOk result (λ refusals. RefusesEach image refusals.items) }
{
    match link(alloc, image) {
        Ok(linked) => refusals_of(alloc, &linked),
        Err(_) => Err(AllocError),
    }
}

/// The same of the image that the bytes spell.
pub fn method_refusals(alloc: Global, image: &[u8]) -> Result<Vec<Refusal>, AllocError>
    ensures { IfOk result (λ refusals. (p : ImageRecord) → IsSerialized image.now p → RefusesEach p refusals.items) }
{
    match decode(alloc, image) {
        Ok(image) => refusals_in(alloc, image),
        Err(_) => Err(AllocError),
    }
}
