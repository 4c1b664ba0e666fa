//! What is done between dispatches: timers, and the pick.
ghost use Rattle.aom_image.specs.Image.{Image};
ghost use Rattle.aom_machine_state.specs.Progress.{progress_by};
ghost use Rattle.aom_machine_state.specs.declared.progress.Progress.TheVariants.{Turned};
ghost use Rattle.std.specs.Prelude.{◌≡◌, ◌<◌, length, true};
ghost use Rattle.aom_machine_state.specs.Stands.{Stands};
ghost use Rattle.aom_machine.specs.Turns.{CanDispatch, Completed, Dispatches, IsIdle, Picked, begins_under};

use crate::servers;
use aom_cells::CellId;
use aom_frames::{Dispatch, Frame, Subject, Task};
use aom_image::Role;
use aom_linker::Linked;
use aom_machine_state::{LineBuffer, Parts};
use aom_transcript::Line;

/// The timer that is due first completes its request, if it is due by now.
pub fn due(parts: &mut Parts) -> bool
    requires stands { (p : Image) × Stands (record { image = p; parts = parts.old }) }
    requires between { progress_by parts.old.rest.ended parts.old.stack.tasks ≡ Turned }
    ensures completed { (p : Image) → Completed (record { image = p; parts = parts.old }) result (record { image = p; parts = parts.new }) }
    ensures fewer { result ≡ true → length parts.new.active.pending.timers < length parts.old.active.pending.timers }
{
    parts.active.due(parts.rest.clock()).is_some()
}

/// The first object that is ready is dispatched, or the first server in whose queue something waits, with its line.
pub fn pick(parts: &mut Parts, linked: &Linked, lines: &mut LineBuffer) -> bool
    requires stands { Stands (record { image = linked.now; parts = parts.old }) }
    requires between { progress_by parts.old.rest.ended parts.old.stack.tasks ≡ Turned }
    requires room { length lines.old.lines < lines.old.room }
    ensures { Picked (record { image = linked.now; parts = parts.old }) result lines.old lines.new (record { image = linked.now; parts = parts.new }) }
{
    let Some(id) = parts.active.pick() else {
        return false;
    };
    if parts.active.is_server(id) {
        servers::serve(parts, id, linked, lines);
    } else {
        dispatch(parts, id, linked, lines);
    }
    true
}

/// The method of a ready object that handles its signal runs, under the trap of its dispatch.
fn dispatch(parts: &mut Parts, id: CellId, linked: &Linked, lines: &mut LineBuffer)
    requires can { CanDispatch linked.now parts.old id }
    requires room { length lines.old.lines < lines.old.room }
    ensures { Dispatches linked.now id parts.old lines.old lines.new parts.new }
{
    let number = id.number();
    let class = parts.class(number);
    let Some(method) = linked.role(class, Role::Run) else {
        unreachable!();
    };
    lines.push(Line::Run(parts.rest.clock(), class, parts.active.status(id)));
    parts.rest.reset_counts();
    let subject = Subject::new(number, class);
    run_under(
        parts,
        Dispatch::Object(subject),
        Frame::begin(method, number),
    );
}

/// A method is at hand under the trap of that dispatch, and nothing else is.
pub fn run_under(parts: &mut Parts, dispatch: Dispatch, frame: Frame)
    requires { IsIdle parts.old }
    ensures { parts.new ≡ begins_under dispatch frame parts.old }
{
    parts.entries.mark();
    parts.stack.push(Task::Dispatched(dispatch));
    parts.stack.push(Task::Trapped);
    parts.stack.push(Task::Run(frame));
}
