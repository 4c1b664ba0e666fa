//! The clients of servers: what each is at, the queues of the servers, and the messages on their way.
//!
//! Each command and each part of a service is one definition of `specs/Clients.antt`, where what a client may do stands as a table (`row`):
//! a call's contract says that the state is then what the definition makes of it, and that the answer is the definition's. `with_limit`
//! takes all the memory that is ever taken. A call costs what it changes: queues, sessions and the messages of each client are lists of
//! `Lists`, so nothing is ever looked for but the first session that is there of a server that goes (`first_there`). This crate knows
//! servers and sessions by the numbers of their cells, and messages by their places: whether a cell lives, which message place is free, and
//! what a message says is the machine's concern.
//!
//! `Lists` has many lists of numbers in one table, of which a number is in one list at most, once. Contracts see a plain list of node
//! numbers for each list (`Table` of `specs/Lists.antt`). A node is found by its number: it comes last into a list, and leaves the list
//! that it is in, at a cost that no length changes. Inside, each list is a ring of links through its nodes and an end of its own
//! (`specs/CircularLists.antt`).
#![tactic(auto)]

mod client;
mod clients;
mod entry;
mod lists;
mod parts;
mod place;
mod refusal;
mod server;
mod withdrawal;

pub use client::{Client, NO_CELL};
pub use clients::Clients;
pub use entry::{QueueEntry, TakenEntry};
pub use lists::Lists;
pub use place::{Completion, MessagePlace};
pub use refusal::CommandRefusal;
pub use server::Server;
