//! How a dispatch ends.
ghost use Rattle.std.specs.Prelude.{◌≡◌, ◌<◌, Some, length, true};
ghost use Rattle.aom_link_conditions.specs.Roles.{role_of};
ghost use Rattle.aom_image.specs.declared.method.Role.TheVariants.{Error};
ghost use Rattle.aom_machine_instructions.specs.Ends.{CanEnd, ended_answered, ended_dispatch, asking, handled};
ghost use Rattle.aom_machine_instructions.specs.Going.{ending_here};
ghost use Rattle.aom_machine_instructions.specs.Moves.{Moves};
ghost use Rattle.aom_machine_state.specs.Stands.{Stands};

use crate::{going, servers};
use aom_cells::NULL;
use aom_frames::{Dispatch, Frame, Subject, Task};
use aom_image::Role;
use aom_linker::Linked;
use aom_machine_state::{LineBuffer, Parts};

/// Nothing of the dispatch is left. Where `stop` was run, the root is at hand to go, if there is one.
fn end_dispatch(parts: &mut Parts, linked: &Linked)
    requires { CanEnd parts.old }
    ensures { parts.new ≡ ended_dispatch linked.now parts.old }
{
    if parts.rest.is_stopped() && parts.root != NULL {
        going::remove_root(parts, linked);
    } else {
        parts.drop_task();
        parts.rest.close();
    }
}

/// The dispatch of an object is over.
fn end_object(parts: &mut Parts, linked: &Linked)
    requires { CanEnd parts.old }
    ensures { parts.new ≡ ended_dispatch linked.now (handled parts.old) }
{
    parts.rest.count_dispatch();
    end_dispatch(parts, linked);
}

/// That is the answer to what the dispatch of an object was left with: 0 ends it, and anything else the run.
fn end_answered(parts: &mut Parts, answer: i32, linked: &Linked)
    requires { CanEnd parts.old }
    ensures { parts.new ≡ ended_answered linked.now answer parts.old }
{
    if answer == 0 {
        end_object(parts, linked);
    } else {
        parts.rest.count_dispatch();
        parts.drop_task();
        parts.rest.fail(answer);
    }
}

/// The dispatch of an object was left with that code: the method of its class that answers runs, if there is one.
fn ask(parts: &mut Parts, subject: Subject, code: i32, linked: &Linked)
    requires { CanEnd parts.old }
    ensures { parts.new ≡ asking linked.now (role_of linked.now subject.class Error) subject code parts.old }
{
    let Some(method) = linked.role(subject.class(), Role::Error) else {
        end_answered(parts, code, linked);
        return;
    };
    let mut frame = Frame::begin(method, subject.number);
    frame.set_register(0, code.cast_unsigned());
    parts.drop_task();
    parts.stack.push(Task::Dispatched(Dispatch::Asks(subject)));
    parts.stack.push(Task::Run(frame));
}

/// The dispatch that is at hand ends, or asks for an answer. One of a server is one of an object from then on.
pub fn close(parts: &mut Parts, dispatch: Dispatch, linked: &Linked, lines: &mut LineBuffer)
    requires ending { ending_here parts.old.stack.tasks ≡ Some dispatch }
    requires announced { parts.old.rest.announced ≡ true }
    requires stands { Stands (record { image = linked.now; parts = parts.old }) }
    requires room { length lines.old.lines < lines.old.room }
    ensures { Moves linked.now parts.old lines.old lines.new parts.new }
{
    match dispatch {
        Dispatch::Main => end_dispatch(parts, linked),
        Dispatch::MainLeft(code) => {
            parts.drop_task();
            parts.rest.end_left(code);
        }
        Dispatch::Root => {
            parts.drop_task();
            parts.rest.finish();
        }
        Dispatch::Object(_) | Dispatch::Asks(_) => end_object(parts, linked),
        Dispatch::ObjectLeft(subject, code) => ask(parts, subject, code, linked),
        Dispatch::Answered(_, answer) => end_answered(parts, answer, linked),
        Dispatch::Server(subject, client, stage) => {
            servers::end_stage(parts, client, stage, lines);
            servers::redispatch(parts, Dispatch::Object(subject));
        }
    }
}
