//! From a text to the bytes of an image, and back.
ghost use Rattle.std.specs.Prelude.{IfOk, IfErr};
ghost use Rattle.aom_commands.specs.Assembly.{Lists, Makes, RefusesBytes, RefusesText};

use crate::Fault;
use aom_asm::assemble;
use aom_codec::{decode, encode};
use aom_disassembler::disassemble;
use std::alloc::Global;

/// The bytes of the image that a text denotes, or the first fault of the text.
pub fn assemble_bytes(alloc: Global, text: &[u8]) -> Result<Vec<u8>, Fault>
    ensures ok { IfOk result (λ bytes. Makes text.now bytes.items) }
    ensures err { IfErr result (λ fault. RefusesText text.now fault) }
{
    let image = assemble(alloc, text)?;
    Ok(encode(alloc, &image)?)
}

/// The listing of the image that the bytes are, or their first fault.
pub fn disassemble_bytes(alloc: Global, bytes: &[u8]) -> Result<Vec<u8>, Fault>
    ensures ok { IfOk result (λ text. Lists bytes.now text.items) }
    ensures err { IfErr result (λ fault. RefusesBytes bytes.now fault) }
{
    let image = decode(alloc, bytes)?;
    Ok(disassemble(alloc, &image)?)
}
