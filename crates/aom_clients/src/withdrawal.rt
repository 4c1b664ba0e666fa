//! The messages of a client that closes or dies, or whose server goes: taken off their lists one after another.
ghost use Rattle.std.specs.Prelude.{◌≡◌, ◌<◌, ◌≤◌, ◌+◌, ◌++◌, [], ℕ, length, map, filter, slice_index_or};
ghost use Rattle.aom_clients.specs.Lists.{IsIn, IsSound, list_at, with_list, without};
ghost use Rattle.aom_clients.specs.Table.{is_queued};
ghost use Rattle.aom_clients.specs.Withdrawals.{without_each, left_at, left_each, noted};

use crate::entry::{CLIENTS, connect_node};
use crate::{Lists, MessagePlace};
use arrayvec::ArrayVec;

/// The most slots of a client.
pub const SLOTS: usize = 64;

/// Withdraws what a client sent: its messages, of this session and of earlier ones, and its connect.
pub fn withdraw_all(
    sent: &mut Lists,
    queues: &mut Lists,
    places: &mut [MessagePlace],
    client: u8,
) -> ArrayVec<u16, SLOTS>
    requires client { client < 64 }
    requires lists { length sent.old.lists ≡ 128 }
    requires within { (m : ℕ) → IsIn m (list_at sent.old client) → m < length places.old }
    requires past { (m : ℕ) → IsIn m (list_at sent.old (64 + client)) → m < length places.old }
    requires few { length (list_at sent.old client) ≤ 64 }
    ensures sent { sent.new ≡ with_list (64 + client) [] (with_list client [] sent.old) }
    ensures queues { queues.new ≡ record queues.old { lists = map (without (1024 + client)) (without_each (list_at sent.old client) queues.old.lists) } }
    ensures places { places.new ≡ left_each (list_at (with_list client [] sent.old) (64 + client)) (left_each (list_at sent.old client) places.old) }
    ensures freed { result.items ≡ filter (λ m. is_queued (slice_index_or places.old m MessagePlace.Free)) (list_at sent.old client) }
{
    let list = client as u16;
    let freed = withdraw(sent, queues, places, list);
    discard(sent, places, CLIENTS + list);
    queues.remove(connect_node(client));
    freed
}

/// Withdraws the messages of a list: those that wait leave their queue and are answered, those that are held are discarded.
fn withdraw(
    sent: &mut Lists,
    queues: &mut Lists,
    places: &mut [MessagePlace],
    list: u16,
) -> ArrayVec<u16, SLOTS>
    requires list { list < length sent.old.lists }
    requires within { (m : ℕ) → IsIn m (list_at sent.old list) → m < length places.old }
    requires few { length (list_at sent.old list) ≤ 64 }
    ensures sent { sent.new ≡ with_list list [] sent.old }
    ensures queues { queues.new ≡ record queues.old { lists = without_each (list_at sent.old list) queues.old.lists } }
    ensures places { places.new ≡ left_each (list_at sent.old list) places.old }
    ensures freed { result.items ≡ filter (λ m. is_queued (slice_index_or places.old m MessagePlace.Free)) (list_at sent.old list) }
{
    sent.in_order();
    let mut freed = ArrayVec::new();
    while let Some(place) = sent.take_first(list) {
        queues.remove(place);
        let was = leave(places, place);
        note(&mut freed, place, was);
    }
    freed
}

/// A message's client leaves it. Answers what was at its place.
fn leave(places: &mut [MessagePlace], place: u16) -> MessagePlace
    requires { place < length places.old }
    ensures was { result ≡ slice_index_or places.old place MessagePlace.Free }
    ensures left { places.new ≡ left_at place places.old }
{
    let was = places[place as usize];
    places[place as usize] = was.closed();
    was
}

/// Notes a message that waited.
fn note(freed: &mut ArrayVec<u16, SLOTS>, place: u16, was: MessagePlace)
    requires { length freed.old.items < 64 }
    ensures { freed.new.items ≡ noted place was freed.old.items }
{
    if was.is_queued() {
        freed.push(place);
    }
}

/// Discards the messages of a list, of which none waits in a queue.
fn discard(sent: &mut Lists, places: &mut [MessagePlace], list: u16)
    requires list { list < length sent.old.lists }
    requires within { (m : ℕ) → IsIn m (list_at sent.old list) → m < length places.old }
    ensures sent { sent.new ≡ with_list list [] sent.old }
    ensures places { places.new ≡ left_each (list_at sent.old list) places.old }
{
    while let Some(place) = sent.take_first(list) {
        leave(places, place);
    }
}

/// Takes the messages of a client off the list of those with a slot, and lists them as messages of earlier sessions.
pub fn release(sent: &mut Lists, client: u8)
    requires client { client < 64 }
    requires lists { length sent.old.lists ≡ 128 }
    ensures { sent.new ≡ with_list client [] (with_list (64 + client) (list_at sent.old (64 + client) ++ list_at sent.old client) sent.old) }
{
    while let Some(place) = sent.take_first(client as u16) {
        sent.push_last(CLIENTS + client as u16, place);
    }
}
