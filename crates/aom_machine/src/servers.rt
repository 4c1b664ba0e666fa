//! The dispatch of a server: the first of its queue is taken, and what serves it begins.
ghost use Rattle.aom_link_conditions.specs.Roles.{role_of};
ghost use Rattle.aom_machine.specs.Servers.{AreRead, Begins, HasCaller, CanTake, HasSession, Notes, ServesFirst, serve_asked, loaded_message_words};
ghost use Rattle.aom_machine.specs.Turns.{IsIdle};
ghost use Rattle.aom_image.specs.declared.method.Role.TheVariants.{Accept, Service};
ghost use Rattle.aom_cells.specs.Store.{IsStored};
ghost use Rattle.std.specs.Prelude.{◌≡◌, ◌<◌, ℕ, IsSome, length};

use crate::turns::run_under;
use aom_cells::{CellId, MessageId, Messages};
use aom_clients::{QueueEntry, TakenEntry};
use aom_frames::{Dispatch, Frame, Stage, Subject, Task};
use aom_image::Role;
use aom_linker::Linked;
use aom_machine_state::{LineBuffer, Parts};
use aom_transcript::{Asked, Line};

/// What waits in a queue, as a line shows it.
fn asked(entry: QueueEntry) -> Asked
    ensures { result ≡ serve_asked entry }
{
    match entry {
        QueueEntry::Connect { .. } => Asked::Connect,
        QueueEntry::Message { .. } => Asked::Message,
        QueueEntry::Close { .. } => Asked::Close,
    }
}

/// The schedule hears whether something waits in the queue of a server, if it is enlisted as one.
pub fn note_queue(parts: &mut Parts, server: u16)
    requires small { server < 4096 }
    requires within { server < length parts.old.clients.queues }
    ensures noted { Notes server parts.old.clients parts.old.active parts.new.active }
    ensures rest { parts.new ≡ record parts.old { active = parts.new.active } }
{
    let id = CellId::new(u32::from(server));
    if parts.active.is_server(id) {
        let waits = parts.clients.is_queued(server);
        parts.active.set_server_ready(id, waits);
    }
}

/// The first of a server's queue is served, with its line. Its dispatch has taken no step.
pub fn serve(parts: &mut Parts, id: CellId, linked: &Linked, lines: &mut LineBuffer)
    requires can { HasCaller linked.now parts.old id }
    requires room { length lines.old.lines < lines.old.room }
    ensures { ServesFirst linked.now id parts.old lines.old lines.new parts.new }
{
    let server = id.number() as u16;
    let class = parts.class(id.number());
    let Some(taken) = parts.clients.next(server) else {
        unreachable!();
    };
    note_queue(parts, server);
    parts.rest.reset_counts();
    lines.push(Line::Serve(parts.rest.clock(), class, asked(taken.entry), taken.client));
    begin(parts, Subject::new(id.number(), class), taken, linked);
}

/// What serves an entry begins.
fn begin(parts: &mut Parts, server: Subject, taken: TakenEntry, linked: &Linked)
    requires can { CanTake linked.now server.class taken.client taken.entry parts.old }
    requires idle { IsIdle parts.old }
    ensures { Begins linked.now server taken.client taken.entry parts.old parts.new }
{
    match taken.entry {
        QueueEntry::Connect { client } => accept(parts, server, client, linked),
        QueueEntry::Message { place } => attend(parts, server, taken.client, place, linked),
        QueueEntry::Close { client } => part(parts, server, client, linked),
    }
}

/// The server's `accept` runs for a connect of the client (CServer2::NewSessionL).
fn accept(parts: &mut Parts, server: Subject, client: u8, linked: &Linked)
    requires method { IsSome (role_of linked.now server.class Accept) }
    requires idle { IsIdle parts.old }
    ensures { Begins linked.now server client (QueueEntry.Connect client) parts.old parts.new }
{
    let Some(method) = linked.role(server.class(), Role::Accept) else {
        unreachable!();
    };
    let dispatch = Dispatch::Server(server, client, Stage::Accepts);
    run_under(parts, dispatch, Frame::begin(method, server.number));
}

/// The words of a message are in the first registers of the method that serves it.
fn load_message_words(frame: &mut Frame, messages: &Messages, message: MessageId)
    requires { IsStored messages.now message }
    ensures reported { frame.new ≡ loaded_message_words messages.now message frame.old }
    ensures read { AreRead messages.now message 5 }
{
    for word in 0..5 {
        frame.set_register(word, messages.word(message, word).cast_unsigned());
    }
}

/// The `service` of the client's session runs on its message, which is served from then on (CSession2::ServiceL).
fn attend(parts: &mut Parts, server: Subject, client: u8, place: u16, linked: &Linked)
    requires below { place < 1024 }
    requires kept { IsStored parts.old.messages place }
    requires session { (session kind : ℕ) × HasSession parts.old client session kind × IsSome (role_of linked.now kind Service) }
    requires idle { IsIdle parts.old }
    ensures { Begins linked.now server client (QueueEntry.Message place) parts.old parts.new }
{
    let Some(session) = parts.clients.session(client) else {
        unreachable!();
    };
    let number = u32::from(session);
    let class = parts.class(number);
    let Some(method) = linked.role(class, Role::Service) else {
        unreachable!();
    };
    let message = MessageId::new(place);
    let mut frame = Frame::begin(method, number);
    load_message_words(&mut frame, &parts.messages, message);
    parts.served = message.number();
    let stage = Stage::Serves(Subject::new(number, class));
    run_under(parts, Dispatch::Server(server, client, stage), frame);
}

/// The client's session goes, under no trap.
fn part(parts: &mut Parts, server: Subject, client: u8, linked: &Linked)
    requires session { (session kind : ℕ) × HasSession parts.old client session kind }
    requires idle { IsIdle parts.old }
    ensures { Begins linked.now server client (QueueEntry.Close client) parts.old parts.new }
{
    let Some(session) = parts.clients.release_session(client) else {
        unreachable!();
    };
    parts.stack.push(Task::Dispatched(Dispatch::Server(server, client, Stage::Disconnects)));
    aom_machine_instructions::begin(parts, u32::from(session), linked);
}
