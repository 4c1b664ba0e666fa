//! What a client is at, and what it may do then.
ghost use Rattle.std.specs.Prelude.{◌≡◌};
ghost use Rattle.aom_clients.specs.Table.{row, session_of, has_cell, released, after_server_destroyed};

use crate::CommandRefusal;

/// The number of a session whose cell goes: no cell has it.
pub const NO_CELL: u16 = 65535;

/// What a client is at.
#[derive(Clone, Copy)]
pub enum Client {
    /// It has no session and asked for none, as one that was not named yet.
    Unconnected,
    /// It asked a server for a session, and is to have so many slots.
    Connecting {
        server: u16,
        slots: u8,
    },
    Open {
        server: u16,
        session: u16,
        slots: u8,
    },
    /// It closed its session, which the server is to be told.
    Closing {
        server: u16,
        session: u16,
    },
    /// Its server went while its session was open.
    Gone,
    Dead,
    /// It died, and the server is to be told that its session closes.
    Dying {
        server: u16,
        session: u16,
    },
}

impl Client {
    /// Why a connect is refused whatever the server says.
    pub(crate) fn connect_refusal(self) -> Option<CommandRefusal>
        ensures { result ≡ (row self).connect }
    {
        match self {
            Client::Unconnected | Client::Gone => None,
            Client::Connecting { .. } | Client::Open { .. } | Client::Closing { .. } => {
                Some(CommandRefusal::ServerBusy)
            }
            Client::Dead | Client::Dying { .. } => Some(CommandRefusal::Died),
        }
    }

    /// Why a send is refused whatever room there is.
    pub(crate) fn send_refusal(self) -> Option<CommandRefusal>
        ensures { result ≡ (row self).send }
    {
        match self {
            Client::Unconnected => Some(CommandRefusal::NotFound),
            Client::Open { .. } => None,
            Client::Connecting { .. } | Client::Closing { .. } => Some(CommandRefusal::ServerBusy),
            Client::Gone => Some(CommandRefusal::ServerTerminated),
            Client::Dead | Client::Dying { .. } => Some(CommandRefusal::Died),
        }
    }

    /// What it is at after a close that does anything.
    pub(crate) fn closed(self) -> Option<Client>
        ensures { result ≡ (row self).close }
    {
        match self {
            Client::Connecting { .. } | Client::Gone => Some(Client::Unconnected),
            Client::Open {
                server,
                session,
                ..
            } => Some(Client::Closing { server, session }),
            Client::Unconnected | Client::Closing { .. } | Client::Dead | Client::Dying { .. } =>
                None,
        }
    }

    /// What it is at after its death, if it lived.
    pub(crate) fn dead(self) -> Option<Client>
        ensures { result ≡ (row self).die }
    {
        match self {
            Client::Unconnected | Client::Connecting { .. } | Client::Gone => Some(Client::Dead),
            Client::Open {
                server,
                session,
                ..
            }
            | Client::Closing { server, session } => Some(Client::Dying { server, session }),
            Client::Dead | Client::Dying { .. } => None,
        }
    }

    /// What it is at once the server of its session went.
    pub(crate) fn after_server_destroyed(self) -> Client
        ensures { result ≡ after_server_destroyed self }
    {
        match self {
            Client::Open { .. } => Client::Gone,
            Client::Closing { .. } => Client::Unconnected,
            Client::Dying { .. } => Client::Dead,
            other => other,
        }
    }

    /// Whether it names a cell for its session.
    pub(crate) fn has_cell(self) -> bool
        ensures { result ≡ has_cell self }
    {
        match self {
            Client::Open { session, .. }
            | Client::Closing { session, .. }
            | Client::Dying { session, .. } => session != NO_CELL,
            _ => false,
        }
    }

    /// The same once the cell of its session is at hand to go.
    pub(crate) fn released(self) -> Client
        ensures { result ≡ released self }
    {
        match self {
            Client::Open { server, slots, .. } => Client::Open {
                server,
                session: NO_CELL,
                slots,
            },
            Client::Closing { server, .. } => Client::Closing {
                server,
                session: NO_CELL,
            },
            Client::Dying { server, .. } => Client::Dying {
                server,
                session: NO_CELL,
            },
            other => other,
        }
    }

    /// The cell of its session.
    pub fn session(self) -> Option<u16>
        ensures { result ≡ session_of self }
    {
        match self {
            Client::Open { session, .. }
            | Client::Closing { session, .. }
            | Client::Dying { session, .. } => Some(session),
            _ => None,
        }
    }
}
