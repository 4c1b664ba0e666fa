//! What is wrong with a source, and what was added to it, for whoever tells it in a form of their own.
ghost use Rattle.std.specs.Prelude.{◌≡◌, ◌<◌, [], All, IfOk, Some, length, map};
ghost use Rattle.aom_source.specs.Refusals.{IsToldIn, place_of};
ghost use Rattle.aom_source_commands.specs.Compiling.{IsTranslated};
ghost use Rattle.aom_source_tokens.specs.Places.{IsPlaceIn};

use crate::notes::LineNotes;
use crate::showing::prices_of;
use crate::telling::message_of;
use aom_commands::Fault;
use aom_source::{Refusal, Translation, translate};
use aom_source_tokens::{Place, Tokens};
use std::alloc::{AllocError, Global};

/// A fault of a source: its place, its name, and what is said of it: a sentence, and in a line of its own what mends it.
#[derive(Drop)]
pub struct Diagnosis {
    pub place: Place,
    pub fault: &'static str,
    pub message: Vec<u8>,
}

/// The faults that compiling tells of a source, in its order: the first of each method. There are none where it is compiled.
pub fn diagnose(alloc: Global, source: &[u8]) -> Result<Vec<Diagnosis>, AllocError>
    ensures places { IfOk result (λ faults. All (λ d. IsPlaceIn source.now d.place) faults.items) }
    ensures none { IfOk result (λ faults. faults.items ≡ [] → IsTranslated source.now) }
{
    let tokens = match Tokens::of(alloc, source) {
        Ok(tokens) => tokens,
        Err(fault) => return diagnoses_of(alloc, &[Refusal::of_token(fault)]),
    };
    match translate(alloc, &tokens) {
        Ok(translation) => {
            drop(translation);
            Ok(Vec::new(alloc))
        }
        Err(refusals) => diagnoses_of(alloc, &refusals),
    }
}

/// Refusals as diagnoses, each at its own place. Want of memory is none, and nor is an empty list.
fn diagnoses_of(alloc: Global, refusals: &[Refusal<'_>]) -> Result<Vec<Diagnosis>, AllocError>
    ensures { IfOk result (λ faults. (0 < length refusals.now) × (map (λ d. Some d.place) faults.items ≡ map place_of refusals.now)) }
{
    if refusals.is_empty() {
        return Err(AllocError);
    }
    let mut faults: Vec<Diagnosis> = Vec::new(alloc);
    for refusal in refusals {
        let Some(place) = refusal.place() else {
            return Err(AllocError);
        };
        let message = message_of(alloc, *refusal)?;
        faults.push(Diagnosis {
            place,
            fault: refusal.name(),
            message,
        })?;
    }
    Ok(faults)
}

/// What `show` writes behind the lines of a source, if that is accepted.
pub fn notes_of_source(alloc: Global, source: &[u8]) -> Result<Option<LineNotes>, AllocError> {
    let Ok(tokens) = Tokens::of(alloc, source) else {
        return Ok(None);
    };
    let Ok(translation) = translate(alloc, &tokens) else {
        return Ok(None);
    };
    let Translation { written, image } = translation;
    match prices_of(alloc, image) {
        Ok(prices) => Ok(Some(LineNotes::of(alloc, &tokens, &written, &prices)?)),
        Err(Fault::Memory) => Err(AllocError),
        Err(_) => Ok(None),
    }
}
