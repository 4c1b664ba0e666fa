//! The entries of a server's queue, and the nodes that stand for them.
ghost use Rattle.std.specs.Prelude.{◌≡◌, ◌<◌, ◌+◌};
ghost use Rattle.aom_clients.specs.Nodes.{entry_of};

/// What waits in a server's queue.
#[derive(Clone, Copy)]
pub enum QueueEntry {
    Connect { client: u8 },
    /// The message at the place.
    Message { place: u16 },
    Close { client: u8 },
}

/// An entry that was taken from a queue, and the client that it is of.
#[derive(Clone, Copy)]
pub struct TakenEntry {
    pub entry: QueueEntry,
    pub client: u8,
}

/// How many clients there are.
pub const CLIENTS: u16 = 64;

/// How many message places there are.
pub const PLACES: u16 = 1024;

impl QueueEntry {
    /// The entry that a node stands for: a place's number is that of its message, and each client has two nodes after these.
    pub(crate) fn of_node(node: u16) -> QueueEntry
        requires { node < 1152 }
        ensures { result ≡ entry_of node }
    {
        if node < PLACES {
            QueueEntry::Message { place: node }
        } else if node < PLACES + CLIENTS {
            let client = (node - PLACES) as u8;
            QueueEntry::Connect { client }
        } else {
            let client = (node - PLACES - CLIENTS) as u8;
            QueueEntry::Close { client }
        }
    }
}

/// The node of a client's connect.
pub fn connect_node(client: u8) -> u16
    ensures { result ≡ 1024 + client }
{
    PLACES + client as u16
}

/// The node of a client's close.
pub fn close_node(client: u8) -> u16
    ensures { result ≡ 1088 + client }
{
    PLACES + CLIENTS + client as u16
}
