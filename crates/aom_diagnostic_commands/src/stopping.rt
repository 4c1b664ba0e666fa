//! What is known at the place of a refusal.
ghost use Rattle.std.specs.Prelude.{◌≡◌, IsSome, OnOk};
ghost use Rattle.aom_link_conditions.specs.declared.fault.LinkFault.TheVariants.{OutOfMemory};
ghost use Rattle.aom_image.specs.Views.{method_at};
ghost use Rattle.aom_verify.specs.Arrivals.{StopsAt};
ghost use Rattle.aom_diagnostic_commands.specs.Explained.{KnownThere, TellsState};

use crate::causes::{is_same_why, write_cause};
use crate::told_by::{RefusedPlace, Told};
use aom_abstract_state::AbstractState;
use aom_cost_report::FigureWriter;
use aom_diagnostics::write_known;
use aom_image::Image;
use aom_link_conditions::LinkFault;
use aom_linker::{Linked, link};
use aom_verify::{StateTable, Stop, stop_of};
use std::alloc::{AllocError, Global};

/// Writes what a state says that is refused at a place for that reason.
fn write_state(
    out: &mut FigureWriter,
    told: &Told<'_>,
    linked: &Linked,
    states: &StateTable,
    at: &RefusedPlace,
    shape: &AbstractState<'_>,
) -> Result<(), AllocError>
    requires { IsSome (method_at linked.now at.now.method) }
    ensures { OnOk result (TellsState told.now linked.now at.now.method states.now at.now.place shape.now at.now.why out.old out.new) }
{
    write_known(out, told.names, linked, at.method, shape)?;
    write_cause(out, told, linked, states, at, shape)
}

/// Writes what is known where work on a method ends, if it does so at that place and for that reason.
fn write_stop(
    out: &mut FigureWriter,
    told: &Told<'_>,
    linked: &Linked,
    stop: &Stop,
    at: &RefusedPlace,
) -> Result<(), AllocError>
    requires method { IsSome (method_at linked.now at.now.method) }
    requires stops { StopsAt linked.now at.now.method stop.now.state_table stop.now.place stop.now.why }
    ensures { OnOk result (KnownThere told.now linked.now at.now.method at.now.place at.now.why out.old out.new) }
{
    if stop.place != at.place {
        return Ok(());
    }
    if is_same_why(stop.why, at.why) {
        return match stop.state_table.shape(at.place) {
            Some(shape) => write_state(out, told, linked, &stop.state_table, at, &shape),
            None => Ok(()),
        };
    }
    Ok(())
}

/// Writes what is known at a place of a method where it is refused for that reason.
fn write_known_in(
    alloc: Global,
    out: &mut FigureWriter,
    told: &Told<'_>,
    linked: &Linked,
    at: &RefusedPlace,
) -> Result<(), AllocError>
    ensures { OnOk result (KnownThere told.now linked.now at.now.method at.now.place at.now.why out.old out.new) }
{
    if linked.image().methods().len() <= at.method.number() as usize {
        return Ok(());
    }
    match stop_of(alloc, linked, at.method)? {
        Some(stop) => write_stop(out, told, linked, &stop, at),
        None => Ok(()),
    }
}

fn not_linked(fault: LinkFault) -> Result<(), AllocError>
    ensures { OnOk result (fault ≡ OutOfMemory → ⊥) }
{
    match fault {
        LinkFault::OutOfMemory => Err(AllocError),
        _ => Ok(()),
    }
}

/// The same in an image.
pub fn write_known_at(
    alloc: Global,
    out: &mut FigureWriter,
    told: &Told<'_>,
    image: Image,
    at: &RefusedPlace,
) -> Result<(), AllocError>
    ensures { OnOk result (KnownThere told.now image at.now.method at.now.place at.now.why out.old out.new) }
{
    match link(alloc, image) {
        Ok(linked) => write_known_in(alloc, out, told, &linked, at),
        Err(fault) => not_linked(fault),
    }
}
