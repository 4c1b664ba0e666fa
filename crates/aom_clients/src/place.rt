//! What a message place has.
ghost use Rattle.std.specs.Prelude.{◌≡◌, Some, IsSome};
ghost use Rattle.aom_clients.specs.Table.{sender, is_queued, closed_place, held_place, completion};

/// What a message place has.
#[derive(Clone, Copy)]
pub enum MessagePlace {
    Free,
    /// A message of the client that waits in its server's queue.
    Queued { client: u8 },
    /// One that was taken from the queue and is not completed.
    Held { client: u8 },
    /// One that is not completed, of a client that closed or died since.
    Discarded { client: u8 },
}

/// A message that is completed: its client is told, or it is discarded.
#[derive(Clone, Copy)]
pub struct Completion {
    pub client: u8,
    pub is_reported: bool,
}

impl MessagePlace {
    /// The client that sent the message; 0 for none.
    pub fn sender(self) -> u8
        ensures { result ≡ sender self }
    {
        match self {
            MessagePlace::Free => 0,
            MessagePlace::Queued { client }
            | MessagePlace::Held { client }
            | MessagePlace::Discarded { client } => client,
        }
    }

    pub(crate) fn is_queued(self) -> bool
        ensures { result ≡ is_queued self }
    {
        matches!(self, MessagePlace::Queued { .. })
    }

    /// What is left of it when its client closes or dies.
    pub(crate) fn closed(self) -> MessagePlace
        ensures { result ≡ closed_place self }
    {
        match self {
            MessagePlace::Queued { .. } => MessagePlace::Free,
            MessagePlace::Held { client } => MessagePlace::Discarded { client },
            other => other,
        }
    }

    /// What is made of it when it is taken from its queue.
    pub(crate) fn held(self) -> MessagePlace
        ensures { result ≡ held_place self }
    {
        match self {
            MessagePlace::Queued { client } => MessagePlace::Held { client },
            other => other,
        }
    }

    /// How a message that was taken is completed.
    pub fn completion(self) -> Option<Completion>
        ensures { result ≡ completion self }
    {
        match self {
            MessagePlace::Held { client } => Some(Completion {
                client,
                is_reported: true,
            }),
            MessagePlace::Discarded { client } => Some(Completion {
                client,
                is_reported: false,
            }),
            MessagePlace::Free | MessagePlace::Queued { .. } => None,
        }
    }
}
