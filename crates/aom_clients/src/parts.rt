//! What an entry that is taken, and a client that leaves, make of each part of the state.
ghost use Rattle.std.specs.Prelude.{◌≡◌, ◌<◌, IfSome, length};
ghost use Rattle.aom_clients.specs.Lists.{IsFree, list_at, with_list, first_of, rest_of};
ghost use Rattle.aom_clients.specs.Clients.{MessageBelow};
ghost use Rattle.aom_clients.specs.Parts.{ConnectBelow, CanClose, client_in, taken_of, if_taken, message_in, unlisted, held_by, given_up, slot_freed, place_freed, close_queued};

use crate::entry::close_node;
use crate::{Client, Lists, MessagePlace, QueueEntry, TakenEntry};

/// Takes the first entry off a server's queue, with the client that it is of; a connect is listed no more.
pub fn take(
    queues: &mut Lists,
    connects: &mut Lists,
    places: &[MessagePlace],
    server: u16,
) -> Option<TakenEntry>
    requires queue { server < length queues.old.lists }
    requires list { server < length connects.old.lists }
    requires nodes { queues.old.nodes ≡ 1152 }
    requires places { length places.now ≡ 1024 }
    ensures taken { result ≡ taken_of places.now (first_of (list_at queues.old server)) }
    ensures rest { queues.new ≡ with_list server (rest_of (list_at queues.old server)) queues.old }
    ensures listed { connects.new ≡ if_taken (unlisted server) result connects.old }
    ensures below { IfSome (first_of (list_at queues.old server)) (λ n. n < 1152) }
    ensures free { IfSome (first_of (list_at queues.old server)) (λ n. IsFree queues.new n) }
{
    let node = queues.take_first(server)?;
    let entry = QueueEntry::of_node(node);
    let client = client_of(places, entry);
    unlist(connects, server, entry);
    Some(TakenEntry { entry, client })
}

/// The client that an entry is of.
pub fn client_of(places: &[MessagePlace], entry: QueueEntry) -> u8
    requires { MessageBelow (length places.now) entry }
    ensures { result ≡ client_in places.now entry }
{
    match entry {
        QueueEntry::Connect { client } | QueueEntry::Close { client } => client,
        QueueEntry::Message { place } => places[place as usize].sender(),
    }
}

/// A connect that left its server's queue is listed no more.
fn unlist(connects: &mut Lists, server: u16, entry: QueueEntry)
    requires { server < length connects.old.lists }
    ensures { connects.new ≡ unlisted server entry connects.old }
{
    if let QueueEntry::Connect { .. } = entry {
        connects.take_first(server);
    }
}

/// The place of the message that was taken, if one was.
fn message_in(taken: Option<TakenEntry>) -> Option<u16>
    ensures { result ≡ message_in taken }
{
    match taken?.entry {
        QueueEntry::Message { place } => Some(place),
        _ => None,
    }
}

/// A message that is taken is held.
pub fn mark_held(places: &mut [MessagePlace], taken: Option<TakenEntry>)
    requires { IfSome taken (λ t. MessageBelow (length places.old) t.entry) }
    ensures { places.new ≡ if_taken held_by taken places.old }
{
    if let Some(place) = message_in(taken) {
        places[place as usize] = places[place as usize].held();
    }
}

/// A client whose connect went is unconnected.
pub fn abandon_connect(clients: &mut [Client], taken: Option<TakenEntry>)
    requires { IfSome taken (λ t. ConnectBelow (length clients.old) t.entry) }
    ensures { clients.new ≡ if_taken given_up taken clients.old }
{
    if let Some(taken) = taken {
        if let QueueEntry::Connect { client } = taken.entry {
            clients[client as usize] = Client::Unconnected;
        }
    }
}

/// A message that went holds no slot.
pub fn free_slot(sent: &mut Lists, taken: Option<TakenEntry>)
    ensures { sent.new ≡ if_taken slot_freed taken sent.old }
{
    if let Some(place) = message_in(taken) {
        sent.remove(place);
    }
}

/// A message that went has no place.
pub fn free_place(places: &mut [MessagePlace], taken: Option<TakenEntry>)
    requires { IfSome taken (λ t. MessageBelow (length places.old) t.entry) }
    ensures { places.new ≡ if_taken place_freed taken places.old }
{
    if let Some(place) = message_in(taken) {
        places[place as usize] = MessagePlace::Free;
    }
}

/// Queues the close of a client that had its session open.
pub fn queue_close(queues: &mut Lists, was: Client, client: u8)
    requires { CanClose was client queues.old }
    ensures { queues.new ≡ close_queued was client queues.old }
{
    if let Client::Open { server, .. } = was {
        queues.push_last(server, close_node(client));
    }
}
