//! Why a command is refused.
ghost use Rattle.std.specs.Prelude.{◌≡◌};
ghost use Rattle.aom_clients.specs.Table.{code_of};

/// Why a command of a client is refused.
#[derive(Clone, Copy)]
pub enum CommandRefusal {
    /// There is no such server, or the client has no session: KErrNotFound.
    NotFound,
    /// The client is dead: KErrDied.
    Died,
    /// The client's server went: KErrServerTerminated.
    ServerTerminated,
    /// There is no room, or the client may not ask now: KErrServerBusy.
    ServerBusy,
}

impl CommandRefusal {
    /// The code that the client is told.
    pub fn code(self) -> i32
        ensures { result ≡ code_of self }
    {
        match self {
            CommandRefusal::NotFound => -1,
            CommandRefusal::Died => -13,
            CommandRefusal::ServerTerminated => -15,
            CommandRefusal::ServerBusy => -16,
        }
    }
}
