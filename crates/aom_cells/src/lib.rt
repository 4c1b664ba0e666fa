//! The bounded stores of the machine: the heap of cells, the messages, which of them are tokens, and which cells have a session at a native.
//!
//! `Cells` has cells with a class, eight words and eight owning fields, each under a number of its own. A field is a plain number: a
//! cell's, or null where it owns nothing. The heap is a finite map from numbers to cells (`cell_at` of `specs/Heap.antt`), of which at most
//! `limit` live. `create` refuses exactly where so many live, and adds one cell under a number that had none; every other call reads, or
//! changes, the one cell that it names (`Changes`).
//!
//! `Messages` is a finite map from places to messages of five words (`message_at` of `specs/Store.antt`), of which at most `limit` are
//! kept. A message's number is 4,096 and its place, so that it is no cell's.
//!
//! `Tokens` says which messages are tokens (`Kept` of `specs/Tokens.antt`): a message that an object hands out for its own request, which a
//! reply to it completes. `redeem` names the object only where its living token is that very place, so a token whose request is over
//! completes nothing, also where its object's number has been given to another. Each call takes the same time however many tokens there are.
//!
//! `Sessions` says which cells have a session open at their native, and which natives are killed, in the order of their ends (`Standing`
//! of `specs/Sessions.antt`).
//!
//! Each `with_limit` takes all the memory that its store will ever have. That a named cell or message is there is a condition. This crate
//! knows nothing of images, owners, methods or clients: who may read, write or release something is the machine's concern.
#![tactic(auto)]

mod cell;
mod cells;
mod id;
mod message_id;
mod messages;
mod sessions;
mod tokens;

pub use cells::Cells;
pub use id::{CellId, NULL};
pub use message_id::MessageId;
pub use messages::Messages;
pub use sessions::Sessions;
pub use tokens::Tokens;
