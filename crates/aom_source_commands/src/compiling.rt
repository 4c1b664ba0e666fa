//! A source to its assembly text, or to the map of that.
ghost use Rattle.std.specs.Prelude.{IfOk};
ghost use Rattle.aom_source_commands.specs.Compiling.{IsCompiled, IsOutputOf};

use crate::mapping::map_of;
use crate::telling::tell_refusals;
use aom_source::{Refusal, Translation, translate};
use aom_source_tokens::Tokens;
use std::alloc::{AllocError, Global};

/// What is written of a source that is compiled: its assembly text, or where the lines of that come from and the names of its registers.
#[derive(Clone, Copy, PartialEq, Eq, Debug)]
pub enum Emit {
    Text,
    Map,
}

/// What has come of a source: what was asked for, or what its author is told.
#[derive(Drop)]
pub enum Compiled {
    Text(Vec<u8>),
    Refused(Vec<u8>),
}

/// Compiles a source that has a name: its text denotes an image. What is refused is told with the place of each fault in the source.
pub fn compile(
    alloc: Global,
    name: &[u8],
    source: &[u8],
    emit: Emit,
) -> Result<Compiled, AllocError>
    ensures compiled { IfOk result (IsCompiled emit name.now source.now) }
{
    let tokens = match Tokens::of(alloc, source) {
        Ok(tokens) => tokens,
        Err(fault) => {
            let refusals = [Refusal::of_token(fault)];
            let told = tell_refusals(alloc, name, source, &refusals)?;
            return Ok(Compiled::Refused(told));
        }
    };
    match translate(alloc, &tokens) {
        Ok(translation) => Ok(Compiled::Text(output_of(alloc, &tokens, translation, emit)?)),
        Err(refusals) => {
            let told = tell_refusals(alloc, name, source, &refusals)?;
            Ok(Compiled::Refused(told))
        }
    }
}

/// What is written of a translation.
fn output_of(
    alloc: Global,
    tokens: &Tokens<'_>,
    translation: Translation<'_>,
    emit: Emit,
) -> Result<Vec<u8>, AllocError>
    ensures { IfOk result (λ text. IsOutputOf emit tokens.now translation.entry.written text.items) }
{
    match emit {
        Emit::Text => Ok(translation.into_text()),
        Emit::Map => map_of(alloc, tokens, &translation.written),
    }
}
