//! What clients do between dispatches: they connect, send, close and die.
ghost use Rattle.aom_clients.specs.Clients.{client_at, place_at};
ghost use Rattle.aom_clients.specs.Nodes.{named_by};
ghost use Rattle.aom_clients.specs.declared.place.MessagePlace.TheVariants.{Free};
ghost use Rattle.aom_machine.specs.Clients.{AreKept, Acts, CanAct, Forgets, IsInRange, Executed, Sends, asked_by, first_server, queue_changed};
ghost use Rattle.aom_machine.specs.Servers.{NotesIf};
ghost use Rattle.aom_cells.specs.Store.{message_at};
ghost use Rattle.aom_machine_state.specs.Progress.{progress_by};
ghost use Rattle.aom_machine_state.specs.Stands.{Stands, Refines};
ghost use Rattle.aom_machine_state.specs.declared.progress.Progress.TheVariants.{Turned};
ghost use Rattle.aom_semantics.specs.State.{State as StateRecord};
ghost use Rattle.std.specs.Prelude.{◌≡◌, ◌<◌, ◌≤◌, ◌+◌, ◌^◌, ℕ, IfSome, None, false, length, suc, true};

use crate::servers::note_queue;
use aom_cells::Messages;
use aom_clients::{Client, Clients, CommandRefusal, Server};
use aom_image::ClassKind;
use aom_linker::Linked;
use aom_machine_state::{LineBuffer, Parts};
use aom_transcript::{ClientCommand, Line};

/// The server that the client asks or has a session with.
fn server_of(client: Client) -> Option<u16>
    ensures { result ≡ named_by client }
{
    match client {
        Client::Connecting { server, .. }
        | Client::Open { server, .. }
        | Client::Closing { server, .. }
        | Client::Dying { server, .. } => Some(server),
        Client::Unconnected | Client::Gone | Client::Dead => None,
    }
}

/// The server of that class that was enlisted first.
fn first_server(parts: &Parts, class: u8, linked: &Linked) -> Option<Server>
    requires { Stands (record { image = linked.now; parts = parts.now }) }
    ensures value { result ≡ first_server linked.now parts.now.listed class }
    ensures below { IfSome result (λ server. server.cell < length parts.now.clients.queues) }
{
    let cell = parts.listed.first(u16::from(class))?;
    let class = parts.class(u32::from(cell));
    match linked.class(class).kind {
        ClassKind::Server { sessions, .. } => Some(Server {
            cell,
            most: sessions,
        }),
        _ => unreachable!(),
    }
}

/// The messages of these places are kept no more.
fn forget(messages: &mut Messages, places: &[u16])
    requires { AreKept messages.old places.now }
    ensures { Forgets places.now messages.old messages.new }
{
    for place in places {
        let Some(message) = messages.find(*place) else {
            unreachable!();
        };
        messages.release(message);
    }
}

/// A client sends its server a message of these words, which is kept unless that is refused.
fn send(
    clients: &mut Clients,
    messages: &mut Messages,
    client: u8,
    words: [i32; 5],
) -> Result<(), CommandRefusal>
    requires client { client < 64 }
    requires free { (m : ℕ) → message_at messages.old m ≡ None → place_at clients.old m ≡ Free }
    ensures { Sends client words clients.old clients.new messages.old messages.new result }
{
    let Some(message) = messages.create(words) else {
        return clients.send(client, None);
    };
    let sent = clients.send(client, Some(message.place()));
    if sent.is_err() {
        messages.release(message);
    }
    sent
}

/// What a command does to what clients are at and to the messages that are kept. A connect asks that server.
fn act(
    clients: &mut Clients,
    messages: &mut Messages,
    client: u8,
    command: ClientCommand,
    server: Option<Server>,
) -> Result<(), CommandRefusal>
    requires client { client < 64 }
    requires server { IfSome server (λ k. k.cell < length clients.old.queues) }
    requires can { CanAct client command clients.old messages.old }
    ensures { Acts client command server clients.old clients.new messages.old messages.new result }
{
    match command {
        ClientCommand::Connect(_, slots) => clients.connect(client, server, slots),
        ClientCommand::Send(words) => send(clients, messages, client, words),
        ClientCommand::Close => {
            let freed = clients.close(client);
            forget(messages, freed.as_slice());
            Ok(())
        }
        ClientCommand::Die => {
            let freed = clients.die(client);
            forget(messages, freed.as_slice());
            Ok(())
        }
    }
}

/// The server that a command asks for a session.
fn asked_by(parts: &Parts, command: ClientCommand, linked: &Linked) -> Option<Server>
    requires { Stands (record { image = linked.now; parts = parts.now }) }
    ensures value { result ≡ asked_by linked.now parts.now.listed command }
    ensures below { IfSome result (λ server. server.cell < length parts.now.clients.queues) }
{
    match command {
        ClientCommand::Connect(class, _) => first_server(parts, class, linked),
        _ => None,
    }
}

/// The server whose queue a command may change.
fn queue_of(parts: &Parts, client: u8, asked: Option<Server>) -> Option<u16>
    requires client { client < 64 }
    requires asked { IfSome asked (λ server. server.cell < length parts.now.clients.queues) }
    ensures value { result ≡ queue_changed asked (client_at parts.now.clients client) }
    ensures below { IfSome result (λ server. server < length parts.now.clients.queues) }
{
    match asked {
        Some(server) => Some(server.cell),
        None => server_of(parts.clients.client(client)),
    }
}

/// The schedule hears of that queue, if there is one.
fn note_changed(parts: &mut Parts, queue: Option<u16>)
    requires { IfSome queue (λ server. (server < 4096) × (server < length parts.old.clients.queues)) }
    ensures noted { NotesIf queue parts.old.clients parts.old.active parts.new.active }
    ensures rest { parts.new ≡ record parts.old { active = parts.new.active } }
{
    if let Some(server) = queue {
        note_queue(parts, server);
    }
}

/// The client of that number does what it is told, with a line where that is refused. Answers whether it was.
pub fn execute(
    parts: &mut Parts,
    client: u8,
    command: ClientCommand,
    linked: &Linked,
    lines: &mut LineBuffer,
) -> bool
    requires stands { Stands (record { image = linked.now; parts = parts.old }) }
    requires between { progress_by parts.old.rest.ended parts.old.stack.tasks ≡ Turned }
    requires few { parts.old.rest.delivered + 1 < 2 ^ 64 }
    requires client { client < 64 }
    requires ranged { IsInRange command }
    requires room { length lines.old.lines < lines.old.room }
    ensures executed { (s : StateRecord) → Refines (record { image = linked.now; parts = parts.old }) s → Executed (record { image = linked.now; parts = parts.old }) s client command lines.old lines.new (record { image = linked.now; parts = parts.new }) }
    ensures quiet { result ≡ false → lines.new ≡ lines.old }
    ensures rest { parts.new.rest ≡ record parts.old.rest { delivered = suc parts.old.rest.delivered } }
    ensures natives { parts.new.sessions ≡ parts.old.sessions }
    ensures timers { parts.new.active.pending.timers ≡ parts.old.active.pending.timers }
{
    let asked = asked_by(parts, command, linked);
    let queue = queue_of(parts, client, asked);
    let answer = act(
        &mut parts.clients,
        &mut parts.messages,
        client,
        command,
        asked,
    );
    note_changed(parts, queue);
    parts.rest.deliver();
    match answer {
        Ok(()) => false,
        Err(refusal) => {
            lines.push(Line::Refuse(client, refusal.code()));
            true
        }
    }
}
