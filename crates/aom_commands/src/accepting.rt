//! From bytes to an accepted image.
ghost use Rattle.std.specs.Prelude.{◌≡◌, IfOk, IfErr};
ghost use Rattle.aom_image.specs.Image.{Image};
ghost use Rattle.aom_link_conditions.specs.Linked.{IsLinked};
ghost use Rattle.aom_commands.specs.Acceptable.{IsSerialized, IsAcceptable, RefusesOrWants};
ghost use Rattle.aom_commands.specs.Prices.{StopsEarly};

use crate::Fault;
use aom_budget::{Accepted, accept};
use aom_codec::decode;
use aom_linker::{Linked, link};
use aom_verify::check;
use std::alloc::Global;

/// The accepted image that the bytes are, or the first fault on the way.
pub fn accept_bytes(alloc: Global, bytes: &[u8]) -> Result<Accepted, Fault>
    ensures ok { IfOk result (λ accepted. IsSerialized bytes.now accepted × IsAcceptable accepted) }
    ensures err { IfErr result (λ fault. RefusesOrWants bytes.now fault) }
    ensures complete { (p : Image) → IsSerialized bytes.now p → IsAcceptable p → IfErr result (λ fault. fault ≡ Fault.Memory) }
{
    let linked = link_bytes(alloc, bytes)?;
    let checked = check(alloc, linked)?;
    checked.typed();
    let accepted = accept(alloc, checked)?;
    accepted.facts();
    Ok(accepted)
}

/// The linked image that the bytes are, or the first fault on the way.
pub fn link_bytes(alloc: Global, bytes: &[u8]) -> Result<Linked, Fault>
    ensures ok { IfOk result (λ linked. IsSerialized bytes.now linked × IsLinked linked) }
    ensures err { IfErr result (λ fault. StopsEarly bytes.now fault) }
    ensures only { (p : Image) → IsSerialized bytes.now p → IfOk result (λ linked. linked ≡ p) }
{
    let image = decode(alloc, bytes)?;
    Ok(link(alloc, image)?)
}
