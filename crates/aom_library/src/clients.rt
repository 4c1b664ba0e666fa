//! Clients of servers: their sessions, queues and messages on their way.

pub use aom_clients::{
    Client, Clients, CommandRefusal, Completion, MessagePlace, NO_CELL, QueueEntry, Server,
    TakenEntry,
};
