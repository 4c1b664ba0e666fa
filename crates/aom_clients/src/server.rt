//! A server that is asked for a session.

/// A living server that is enlisted, by the number of its cell, and the most sessions that it takes.
#[derive(Clone, Copy)]
pub struct Server {
    pub cell: u16,
    pub most: u8,
}
