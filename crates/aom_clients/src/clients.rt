//! The calls.
ghost use Rattle.aom_clients.specs.Lists.{IsIn, IsOnce};
ghost use Rattle.std.specs.Prelude.{ℕ, ◌≡◌, ◌<◌, ◌≤◌, ◌++◌, ◌∷◌, [], true, false, Some, None, IfOk, IfSome, IsSome, IsNone, All, length, option_map, replicate, is_some, slice_get};
ghost use Rattle.aom_clients.specs.Table.{row, completion, session_of, server_of};
ghost use Rattle.aom_clients.specs.declared.entry.QueueEntry.{QueueEntry};
ghost use Rattle.aom_clients.specs.Clients.{at_first, IsNumbered, client_at, place_at, queue_at, sessions_at, sent_at, with_client, with_place, with_sent, queued, answer, has_room, connect_refusal, after_connect, has_slot, send_refusal, after_send, leaving, after_close, after_die, freed, first_entry, after_next, opened, after_connected, after_release, parted, after_closed, after_complete, after_next_gone, after_session_gone, first_client, client_after, first_there, taken_entry, MessageBelow};
ghost use Rattle.aom_clients.specs.Nodes.{is_open_at, named_by};
ghost use Rattle.aom_clients.specs.Parts.{IsLeft, is_connecting, is_ending, is_apart};

use crate::entry::{CLIENTS, PLACES, close_node, connect_node};
use crate::parts::{
    abandon_connect, client_of, free_place, free_slot, mark_held, queue_close, take,
};
use crate::withdrawal::{SLOTS, release, withdraw_all};
use crate::{
    Client, CommandRefusal, Completion, Lists, MessagePlace, QueueEntry, Server, TakenEntry,
};
use arrayvec::ArrayVec;
use std::alloc::{AllocError, Global};
use std::marker::Model;

/// All clients, the queues and the sessions of all servers, and the messages that are sent and not completed.
#[derive(Drop)]
pub struct Clients {
    clients: Vec<Client>,
    places: Vec<MessagePlace>,
    /// The queue of each server, by nodes.
    queues: Lists,
    /// The clients of the connects in each queue.
    connects: Lists,
    /// The clients of the sessions of each server.
    sessions: Lists,
    /// The messages of each client with a slot of it, and behind all clients' lists those of each with none, whose session went.
    sent: Lists,
}

impl Model for Clients {
    ghost use Rattle.aom_clients.specs.Clients.{ClientsState};
    ghost use Rattle.aom_clients.specs.Nodes.{state_of, ClientTablesAgree};

    ghost Value = { ClientsState };

    ghost view = { λ a. state_of a.clients.items a.places.items a.queues a.sessions a.sent };

    ghost invariant = { λ a. ClientTablesAgree a.clients.items a.places.items a.queues a.connects a.sessions a.sent };
}

impl Clients {
    /// Nobody asked for anything, and cells below `cells` may be servers. All the memory that is ever taken.
    pub fn with_limit(alloc: Global, cells: usize) -> Result<Clients, AllocError>
        requires { cells ≤ 4096 }
        ensures { IfOk result (λ s. s ≡ at_first cells) }
    {
        let clients = all_unconnected(alloc)?;
        let places = all_free(alloc)?;
        let queues = Lists::with_limit(alloc, (PLACES + 2 * CLIENTS) as usize, cells)?;
        let connects = Lists::with_limit(alloc, CLIENTS as usize, cells)?;
        let sessions = Lists::with_limit(alloc, CLIENTS as usize, cells)?;
        let sent = Lists::with_limit(alloc, PLACES as usize, 2 * CLIENTS as usize)?;
        Ok(Clients {
            clients,
            places,
            queues,
            connects,
            sessions,
            sent,
        })
    }

    /// The number below which the cells of servers are.
    pub fn cells(&self) -> usize
        ensures { result ≡ length self.now.queues }
    {
        self.queues.lists()
    }

    /// What a client is at.
    pub fn client(&self, client: u8) -> Client
        requires { client < 64 }
        ensures value { result ≡ client_at self.now client }
        ensures server { IfSome (named_by result) (λ k. k < length self.now.queues) }
    {
        let at = client as usize;
        self.clients[at]
    }

    /// What a message place has.
    pub fn place(&self, place: u16) -> MessagePlace
        requires { place < 1024 }
        ensures { result ≡ place_at self.now place }
    {
        let at = place as usize;
        self.places[at]
    }

    /// The cell of a client's session.
    pub fn session(&self, client: u8) -> Option<u16>
        requires { client < 64 }
        ensures { result ≡ session_of (client_at self.now client) }
    {
        self.client(client).session()
    }

    /// Whether anything waits in the server's queue.
    pub fn is_queued(&self, server: u16) -> bool
        requires { server < length self.now.queues }
        ensures value { result ≡ is_some (first_entry self.now (queue_at self.now server)) }
        ensures empty { result ≡ false → queue_at self.now server ≡ [] }
    {
        self.queues.count(server) > 0
    }

    /// How much waits in the server's queue.
    pub fn queued(&self, server: u16) -> usize
        requires { server < length self.now.queues }
        ensures { result ≡ length (queue_at self.now server) }
    {
        usize::from(self.queues.count(server))
    }

    /// What waits in the server's queue behind so many others, and the client that it is of.
    pub fn waiting(&self, server: u16, ahead: usize) -> Option<TakenEntry>
        requires { server < length self.now.queues }
        ensures value { result ≡ option_map (taken_entry self.now) (slice_get (queue_at self.now server) ahead) }
        ensures place { IfSome result (λ t. MessageBelow 1024 t.entry) }
    {
        self.queues.in_order();
        let node = self.queues.at(server, ahead)?;
        let entry = QueueEntry::of_node(node);
        let client = client_of(&self.places, entry);
        Some(TakenEntry { entry, client })
    }

    /// Whether the server takes one session more.
    pub fn has_room(&self, server: Server) -> bool
        requires { server.cell < length self.now.queues }
        ensures { result ≡ has_room server self.now }
    {
        let sessions = self.sessions.count(server.cell);
        let connects = self.connects.count(server.cell);
        (sessions as u32 + connects as u32) < server.most as u32
    }

    /// The client that has been connected longest to the server.
    pub fn first_session(&self, server: u16) -> Option<u8>
        requires { server < length self.now.queues }
        ensures value { result ≡ first_client (sessions_at self.now server) }
        ensures below { IfSome result (λ c. c < 64) }
    {
        let first = self.sessions.first(server)?;
        Some(first as u8)
    }

    /// The client that was connected right after this one to the server that both have a session with.
    pub fn next_session(&self, server: u16, client: u8) -> Option<u8>
        requires { server_of (client_at self.now client) ≡ Some server }
        ensures value { result ≡ client_after client (sessions_at self.now server) }
        ensures below { IfSome result (λ c. c < 64) }
    {
        let next = self.sessions.next(server, client as u16)?;
        Some(next as u8)
    }

    /// For proofs alone: no client stands twice among the sessions of a server, and each of them has its session there.
    pub fn are_apart(&self)
        ensures once { (n : ℕ) → IsOnce (sessions_at self.now n) }
        ensures there { (n c : ℕ) → IsIn c (sessions_at self.now n) → server_of (client_at self.now c) ≡ Some n }
    {
        self.sessions.in_order();
    }

    /// The client that has been connected longest to the server, of those whose session's cell does not go.
    pub fn first_there(&self, server: u16) -> Option<u8>
        requires { server < length self.now.queues }
        ensures value { result ≡ first_there self.now (sessions_at self.now server) }
        ensures below { IfSome result (λ c. c < 64) }
    {
        self.sessions.in_order();
        let mut next = self.first_session(server);
        while let Some(client) = next {
            if self.client(client).has_cell() {
                return Some(client);
            }
            next = self.next_session(server, client);
        }
        None
    }

    /// Why a connect to the server, if one was found, is refused.
    fn connect_refusal(&self, client: u8, server: Option<Server>) -> Option<CommandRefusal>
        requires client { client < 64 }
        requires server { IfSome server (λ k. k.cell < length self.now.queues) }
        ensures { result ≡ connect_refusal client server self.now }
    {
        let refusal = self.client(client).connect_refusal();
        if refusal.is_some() {
            return refusal;
        }
        match server {
            None => Some(CommandRefusal::NotFound),
            Some(server) if self.has_room(server) => None,
            Some(_) => Some(CommandRefusal::ServerBusy),
        }
    }

    /// A client asks a server for a session with so many slots; the caller looked for the server. A refusal changes nothing.
    pub fn connect(
        &mut self,
        client: u8,
        server: Option<Server>,
        slots: u8,
    ) -> Result<(), CommandRefusal>
        requires client { client < 64 }
        requires server { IfSome server (λ k. k.cell < length self.old.queues) }
        requires slots { slots ≤ 64 }
        ensures answer { result ≡ answer (connect_refusal client server self.old) }
        ensures after { self.new ≡ after_connect client server slots self.old }
    {
        if let Some(refusal) = self.connect_refusal(client, server) {
            return Err(refusal);
        }
        if let Some(server) = server {
            self.start_connecting(client, server.cell, slots);
        }
        Ok(())
    }

    /// Queues the connect of a client that may ask for a session.
    fn start_connecting(&mut self, client: u8, server: u16, slots: u8)
        requires client { client < 64 }
        requires server { server < length self.old.queues }
        requires slots { slots ≤ 64 }
        requires away { (row (client_at self.old client)).connect ≡ None }
        ensures { self.new ≡ queued server (QueueEntry.Connect client) (with_client client (Client.Connecting server slots) self.old) }
    {
        self.queues.push_last(server, connect_node(client));
        self.connects.push_last(server, client as u16);
        self.clients[client as usize] = Client::Connecting { server, slots };
    }

    /// Whether an open client has a slot that no message holds.
    fn has_slot(&self, client: u8) -> bool
        requires { client < 64 }
        ensures { result ≡ has_slot (length (sent_at self.now client)) (client_at self.now client) }
    {
        match self.client(client) {
            Client::Open { slots, .. } => self.sent.count(client as u16) < slots as u16,
            _ => false,
        }
    }

    /// Why a send is refused that has this message place, if one was found.
    fn send_refusal(&self, client: u8, place: Option<u16>) -> Option<CommandRefusal>
        requires { client < 64 }
        ensures { result ≡ send_refusal client place self.now }
    {
        let refusal = self.client(client).send_refusal();
        if refusal.is_some() {
            return refusal;
        }
        if self.has_slot(client) && place.is_some() {
            None
        } else {
            Some(CommandRefusal::ServerBusy)
        }
    }

    /// A client sends its server a message, which has the place; the caller looked for a free one. A refusal changes nothing.
    pub fn send(&mut self, client: u8, place: Option<u16>) -> Result<(), CommandRefusal>
        requires client { client < 64 }
        requires place { IfSome place (λ m. (m < 1024) × (place_at self.old m ≡ MessagePlace.Free)) }
        ensures answer { result ≡ answer (send_refusal client place self.old) }
        ensures after { self.new ≡ after_send client place self.old }
    {
        if let Some(refusal) = self.send_refusal(client, place) {
            return Err(refusal);
        }
        if let Some(place) = place {
            if let Client::Open { server, .. } = self.client(client) {
                self.queue_message(client, server, place);
            }
        }
        Ok(())
    }

    /// Queues a message of an open client, which has a slot for it.
    fn queue_message(&mut self, client: u8, server: u16, place: u16)
        requires client { client < 64 }
        requires open { is_open_at server (client_at self.old client) ≡ true }
        requires slot { has_slot (length (sent_at self.old client)) (client_at self.old client) ≡ true }
        requires place { place < 1024 }
        requires free { place_at self.old place ≡ MessagePlace.Free }
        ensures { self.new ≡ queued server (QueueEntry.Message place) (with_sent client (sent_at self.old client ++ place ∷ []) (with_place place (MessagePlace.Queued client) self.old)) }
    {
        self.sent.push_last(client as u16, place);
        self.places[place as usize] = MessagePlace::Queued { client };
        self.queues.push_last(server, place);
    }

    /// A client closes its session, or gives up its connect. The places of messages that waited are answered: they are the caller's to free.
    pub fn close(&mut self, client: u8) -> ArrayVec<u16, SLOTS>
        requires { client < 64 }
        ensures freed { result.items ≡ freed (row (client_at self.old client)).close client self.old }
        ensures after { self.new ≡ after_close client self.old }
        ensures below { All (λ m. m < 1024) result.items }
    {
        match self.client(client).closed() {
            Some(next) => self.leave(client, next),
            None => ArrayVec::new(),
        }
    }

    /// A client dies. The places of messages that waited are answered: they are the caller's to free.
    pub fn die(&mut self, client: u8) -> ArrayVec<u16, SLOTS>
        requires { client < 64 }
        ensures freed { result.items ≡ freed (row (client_at self.old client)).die client self.old }
        ensures after { self.new ≡ after_die client self.old }
        ensures below { All (λ m. m < 1024) result.items }
    {
        match self.client(client).dead() {
            Some(next) => self.leave(client, next),
            None => ArrayVec::new(),
        }
    }

    /// A client leaves its server, and is at `next` then.
    fn leave(&mut self, client: u8, next: Client) -> ArrayVec<u16, SLOTS>
        requires client { client < 64 }
        requires next { IsLeft (client_at self.old client) next }
        ensures freed { result.items ≡ freed (Some next) client self.old }
        ensures after { self.new ≡ leaving (Some next) client self.old }
        ensures below { All (λ m. m < 1024) result.items }
    {
        let was = self.client(client);
        let freed = withdraw_all(&mut self.sent, &mut self.queues, &mut self.places, client);
        self.connects.remove(client as u16);
        queue_close(&mut self.queues, was, client);
        self.clients[client as usize] = next;
        freed
    }

    /// Takes the first entry of a server's queue, as a dispatch of the server begins.
    pub fn next(&mut self, server: u16) -> Option<TakenEntry>
        requires { server < length self.old.queues }
        ensures taken { result ≡ first_entry self.old (queue_at self.old server) }
        ensures after { self.new ≡ after_next server self.old }
        ensures below { IfSome result (λ t. IsNumbered t) }
    {
        let taken = take(&mut self.queues, &mut self.connects, &self.places, server);
        mark_held(&mut self.places, taken);
        taken
    }

    /// A client's connect was served: it has a session, told by its cell, or none. Nothing comes of it where the client gave up its connect.
    pub fn connected(&mut self, client: u8, session: Option<u16>)
        requires { client < 64 }
        ensures { self.new ≡ after_connected client session self.old }
    {
        if let Client::Connecting { server, slots } = self.client(client) {
            match session {
                Some(session) => self.open(client, server, session, slots),
                None => self.disconnect(client),
            }
        }
    }

    fn open(&mut self, client: u8, server: u16, session: u16, slots: u8)
        requires client { client < 64 }
        requires connecting { client_at self.old client ≡ Client.Connecting server slots }
        ensures { self.new ≡ opened (client_at self.old client) (Some session) client self.old }
    {
        self.queues.remove(connect_node(client));
        self.connects.remove(client as u16);
        self.sessions.push_last(server, client as u16);
        self.clients[client as usize] = Client::Open {
            server,
            session,
            slots,
        };
    }

    fn disconnect(&mut self, client: u8)
        requires client { client < 64 }
        requires connecting { is_connecting (client_at self.old client) ≡ true }
        ensures { self.new ≡ opened (client_at self.old client) None client self.old }
    {
        self.queues.remove(connect_node(client));
        self.connects.remove(client as u16);
        self.clients[client as usize] = Client::Unconnected;
    }

    /// The cell of a client's session is at hand to go, and is nobody's from then on.
    pub fn release_session(&mut self, client: u8) -> Option<u16>
        requires { client < 64 }
        ensures session { result ≡ session_of (client_at self.old client) }
        ensures after { self.new ≡ after_release client self.old }
    {
        let was = self.clients[client as usize];
        self.clients[client as usize] = was.released();
        was.session()
    }

    /// A client's close was served: its session is none of the server's any more. Nothing comes of it where the client closes none.
    pub fn closed(&mut self, client: u8)
        requires { client < 64 }
        ensures { self.new ≡ after_closed client self.old }
    {
        match self.client(client) {
            Client::Closing { .. } => self.part(client, Client::Unconnected),
            Client::Dying { .. } => self.part(client, Client::Dead),
            _ => {}
        }
    }

    fn part(&mut self, client: u8, next: Client)
        requires client { client < 64 }
        requires leaving { is_ending (client_at self.old client) ≡ true }
        requires next { is_apart next ≡ true }
        ensures { self.new ≡ parted client next self.old }
    {
        self.queues.remove(close_node(client));
        self.sessions.remove(client as u16);
        self.clients[client as usize] = next;
    }

    /// A message that was taken from its queue is completed: its place and its slot are free. Answers whether its client is told.
    pub fn complete(&mut self, place: u16) -> Completion
        requires place { place < 1024 }
        requires taken { IsSome (completion (place_at self.old place)) }
        ensures reported { Some result ≡ completion (place_at self.old place) }
        ensures after { self.new ≡ after_complete place self.old }
        ensures below { result.client < 64 }
    {
        let was = self.places[place as usize];
        self.sent.remove(place);
        self.places[place as usize] = MessagePlace::Free;
        was.completion().unwrap()
    }

    /// Takes the first entry of the queue of a server that goes: a connect and a message are completed with -15, and of a close nothing
    /// comes here. The caller asks until there is none.
    pub fn take_from_destroyed(&mut self, server: u16) -> Option<TakenEntry>
        requires { server < length self.old.queues }
        ensures taken { result ≡ first_entry self.old (queue_at self.old server) }
        ensures after { self.new ≡ after_next_gone server self.old }
        ensures below { IfSome result (λ t. IsNumbered t) }
        ensures empty { IsNone result → queue_at self.new server ≡ [] }
    {
        let taken = take(&mut self.queues, &mut self.connects, &self.places, server);
        abandon_connect(&mut self.clients, taken);
        free_slot(&mut self.sent, taken);
        free_place(&mut self.places, taken);
        taken
    }

    /// Takes the first session of a server that goes, whose queue is empty by then, and answers its client. The caller asks until there is
    /// none.
    pub fn session_gone(&mut self, server: u16) -> Option<u8>
        requires server { server < length self.old.queues }
        requires empty { queue_at self.old server ≡ [] }
        ensures client { result ≡ first_client (sessions_at self.old server) }
        ensures after { self.new ≡ after_session_gone server self.old }
        ensures below { IfSome result (λ c. c < 64) }
    {
        let client = self.sessions.take_first(server)? as u8;
        release(&mut self.sent, client);
        self.clients[client as usize] = self.clients[client as usize].after_server_destroyed();
        Some(client)
    }
}

/// All clients, before any asked for anything.
fn all_unconnected(alloc: Global) -> Result<Vec<Client>, AllocError>
    ensures { IfOk result (λ v. v.items ≡ replicate 64 Client.Unconnected) }
{
    vec![in alloc; Client::Unconnected; CLIENTS as usize]
}

/// All message places, before any has a message.
fn all_free(alloc: Global) -> Result<Vec<MessagePlace>, AllocError>
    ensures { IfOk result (λ v. v.items ≡ replicate 1024 MessagePlace.Free) }
{
    vec![in alloc; MessagePlace::Free; PLACES as usize]
}
