//! The place that two numbers name.
ghost use Rattle.std.specs.Prelude.{◌≡◌, false, IfErr, IfOk, None, Some, slice_get};
ghost use Rattle.aom_debug.specs.Commands.{spot_at, spot_named};
ghost use Rattle.aom_debug.specs.Debugging.{FindsNone};

use crate::Debugger;
use aom_debug_protocol::{CodeLocation, DebugFault};
use aom_image::Method;
use aom_linker::Linked;
use aom_text::Number;

/// More than any image has, of methods and of places.
const MAX: u32 = 65_535;

/// The place in a method, if there is one.
fn spot_in(methods: &[Method], number: u16, place: u16) -> Option<CodeLocation>
    ensures { result ≡ spot_at (slice_get methods.now number) number place }
{
    match methods.get(usize::from(number)) {
        Some(method) if usize::from(place) < method.code.len() => Some(CodeLocation {
            method: number,
            place: usize::from(place),
        }),
        _ => None,
    }
}

/// The place that two numbers name, if they name one.
fn spot_named(linked: &Linked, method: Number, place: Number) -> Option<CodeLocation>
    ensures { result ≡ spot_named linked.now method place }
{
    let number = method.within(0, MAX)? as u16;
    let place = place.within(0, MAX)? as u16;
    spot_in(linked.image().methods().as_slice(), number, place)
}

impl<'a> Debugger<'a> {
    /// The place that two numbers name, where all that was told before is out.
    pub(crate) fn spot(&self, method: Number, place: Number) -> Result<CodeLocation, DebugFault>
        ensures ok { IfOk result (λ spot. (self.now.has_failed ≡ false) × (spot_named self.now.runner.machine.core.image method place ≡ Some spot)) }
        ensures err { IfErr result (λ fault. FindsNone (spot_named self.now.runner.machine.core.image method place ≡ None) self.now fault) }
    {
        if self.has_failed {
            return Err(DebugFault::Ended);
        }
        match spot_named(self.runner.machine.core.accepted().linked(), method, place) {
            Some(spot) => Ok(spot),
            None => Err(DebugFault::NoSuch),
        }
    }
}
