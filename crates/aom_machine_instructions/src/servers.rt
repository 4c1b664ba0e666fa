//! What the dispatch of a server makes of its client, and what goes with a server.
ghost use Rattle.std.specs.Prelude.{◌≡◌, ◌<◌, ◌≤◌, ◌+◌, ◌++◌, ◌∷◌, [], IfSome, length};
ghost use Rattle.aom_clients.specs.Clients.{IsNumbered, first_there, queue_at, queue_gone, server_gone, sessions_at, sessions_gone};
ghost use Rattle.aom_machine_instructions.specs.Serving.{CanEndStage, CanServe, CanReclaim, Drops, EndsStage, EntryKept, answers, gone_line, gone_lines, released_by, served, session_there};
ghost use Rattle.aom_frames.specs.Tasks.{below_first};
ghost use Rattle.aom_frames.specs.declared.task.Task.TheVariants.{Dispatched};
ghost use Rattle.aom_machine_state.specs.Places.{IsEnding, with_tasks};

use crate::messages;
use crate::natives::TERMINATED;
use aom_cells::MessageId;
use aom_clients::{Clients, QueueEntry, TakenEntry};
use aom_frames::{Dispatch, Stage, Task, TaskKind};
use aom_machine_state::{LineBuffer, Parts};
use aom_transcript::Line;

/// The method that a dispatch ran under its trap has returned, with that number: what `accept` gives is the session of the client, and a
/// message is served.
pub fn serve(parts: &mut Parts, number: u32)
    requires ending { IsEnding parts.old.stack.tasks }
    requires can { CanServe number parts.old.stack.tasks }
    requires room { length parts.old.stack.tasks ≤ parts.old.stack.depth }
    ensures { parts.new ≡ served number parts.old }
{
    match parts.stack.top() {
        Some(TaskKind::Dispatched(Dispatch::Server(subject, client, Stage::Accepts))) => {
            parts.clients.connected(client, Some(number as u16));
            redispatch(parts, Dispatch::Server(subject, client, Stage::Accepted));
        }
        Some(TaskKind::Dispatched(Dispatch::Server(subject, _, Stage::Serves(_)))) => {
            redispatch(parts, Dispatch::Object(subject));
        }
        _ => {}
    }
}

/// The dispatch at hand is that one from then on.
pub fn redispatch(parts: &mut Parts, dispatch: Dispatch)
    requires ending { IsEnding parts.old.stack.tasks }
    requires room { length parts.old.stack.tasks ≤ parts.old.stack.depth }
    ensures { parts.new ≡ with_tasks (Dispatched dispatch ∷ below_first parts.old.stack.tasks) parts.old }
{
    parts.drop_task();
    parts.stack.push(Task::Dispatched(dispatch));
}

/// A stage of the dispatch of a server is over for that client.
pub fn end_stage(parts: &mut Parts, client: u8, stage: Stage, lines: &mut LineBuffer)
    requires can { CanEndStage client stage parts.old }
    requires room { length lines.old.lines < lines.old.room }
    ensures { EndsStage client stage parts.old parts.new lines.old lines.new }
{
    match stage {
        Stage::Accepts | Stage::Serves(_) => {}
        Stage::Accepted => lines.push(Line::Reply(client, 0)),
        Stage::AcceptLeft(code) => {
            parts.clients.connected(client, None);
            lines.push(Line::Reply(client, code));
        }
        Stage::ServiceLeft(code) => {
            let message = messages::take_served(parts);
            messages::complete(parts, message, code, lines);
        }
        Stage::Disconnects => parts.clients.closed(client),
    }
}

/// The first session with a server that is there is at hand to go: its number, if there is one.
pub fn take_session(parts: &mut Parts, server: u16) -> Option<u32>
    requires { server < length parts.old.clients.queues }
    ensures session { result ≡ session_there (first_there parts.old.clients (sessions_at parts.old.clients server)) parts.old.clients }
    ensures small { IfSome result (λ number. number < 65536) }
    ensures rest { parts.new ≡ record parts.old { clients = released_by (first_there parts.old.clients (sessions_at parts.old.clients server)) parts.old.clients } }
{
    let client = parts.clients.first_there(server)?;
    let session = parts.clients.release_session(client)?;
    Some(u32::from(session))
}

/// All that waits in the queue of a server goes with it, and the sessions with it end. Of most cells there is none, which is seen at once.
#[inline(always)]
pub fn end_server(parts: &mut Parts, server: u16, lines: &mut LineBuffer)
    requires can { CanReclaim server parts.old }
    requires room { length lines.old.lines + answers (queue_at parts.old.clients server) ≤ lines.old.room }
    ensures clients { parts.new.clients ≡ server_gone server parts.old.clients }
    ensures messages { Drops (queue_at parts.old.clients server) parts.old.messages parts.new.messages }
    ensures rest { parts.new ≡ record parts.old { clients = parts.new.clients; messages = parts.new.messages } }
    ensures reported { lines.new ≡ record lines.old { lines = lines.old.lines ++ gone_lines parts.old.clients (queue_at parts.old.clients server) } }
{
    end_queue(parts, server, lines);
    end_sessions(&mut parts.clients, server);
}

/// What waits in the queue of a server goes with it, if anything does.
#[inline(always)]
fn end_queue(parts: &mut Parts, server: u16, lines: &mut LineBuffer)
    requires can { CanReclaim server parts.old }
    requires room { length lines.old.lines + answers (queue_at parts.old.clients server) ≤ lines.old.room }
    ensures clients { parts.new.clients ≡ queue_gone server (queue_at parts.old.clients server) parts.old.clients }
    ensures empty { queue_at parts.new.clients server ≡ [] }
    ensures within { server < length parts.new.clients.queues }
    ensures messages { Drops (queue_at parts.old.clients server) parts.old.messages parts.new.messages }
    ensures rest { parts.new ≡ record parts.old { clients = parts.new.clients; messages = parts.new.messages } }
    ensures reported { lines.new ≡ record lines.old { lines = lines.old.lines ++ gone_lines parts.old.clients (queue_at parts.old.clients server) } }
{
    if parts.clients.is_queued(server) {
        end_entries(parts, server, lines);
    }
}

/// What waits in the queue of a server goes with it, the first first.
#[inline(never)]
fn end_entries(parts: &mut Parts, server: u16, lines: &mut LineBuffer)
    requires can { CanReclaim server parts.old }
    requires room { length lines.old.lines + answers (queue_at parts.old.clients server) ≤ lines.old.room }
    ensures clients { parts.new.clients ≡ queue_gone server (queue_at parts.old.clients server) parts.old.clients }
    ensures empty { queue_at parts.new.clients server ≡ [] }
    ensures within { server < length parts.new.clients.queues }
    ensures messages { Drops (queue_at parts.old.clients server) parts.old.messages parts.new.messages }
    ensures rest { parts.new ≡ record parts.old { clients = parts.new.clients; messages = parts.new.messages } }
    ensures reported { lines.new ≡ record lines.old { lines = lines.old.lines ++ gone_lines parts.old.clients (queue_at parts.old.clients server) } }
{
    while let Some(taken) = parts.clients.take_from_destroyed(server) {
        end_entry(parts, taken, lines);
    }
}

/// What waited in the queue of a server that goes is completed, but for a close.
fn end_entry(parts: &mut Parts, taken: TakenEntry, lines: &mut LineBuffer)
    requires kept { EntryKept parts.old.messages taken.entry }
    requires below { IsNumbered taken }
    requires room { length lines.old.lines + answers (taken.entry ∷ []) ≤ lines.old.room }
    ensures messages { Drops (taken.entry ∷ []) parts.old.messages parts.new.messages }
    ensures rest { parts.new ≡ record parts.old { messages = parts.new.messages } }
    ensures reported { lines.new ≡ record lines.old { lines = lines.old.lines ++ gone_line taken } }
{
    match taken.entry {
        QueueEntry::Connect { .. } => lines.push(Line::Reply(taken.client, TERMINATED)),
        QueueEntry::Message { place } => {
            parts.messages.release(MessageId::new(place));
            lines.push(Line::Reply(taken.client, TERMINATED));
        }
        QueueEntry::Close { .. } => {}
    }
}

/// The sessions with a server end, if there are any.
#[inline(always)]
fn end_sessions(clients: &mut Clients, server: u16)
    requires within { server < length clients.old.queues }
    requires empty { queue_at clients.old server ≡ [] }
    ensures { clients.new ≡ sessions_gone server (sessions_at clients.old server) clients.old }
{
    if clients.first_session(server).is_some() {
        end_all(clients, server);
    }
}

/// The sessions with a server end, the first first.
#[inline(never)]
fn end_all(clients: &mut Clients, server: u16)
    requires within { server < length clients.old.queues }
    requires empty { queue_at clients.old server ≡ [] }
    ensures { clients.new ≡ sessions_gone server (sessions_at clients.old server) clients.old }
{
    while clients.session_gone(server).is_some() {}
}
