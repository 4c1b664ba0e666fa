//! What is known at a place of a method: who owns what, what waits on the cleanup stack, which fields are full, how far the request is.
//!
//! It knows neither code nor text. States are copied at jumps and joined where ways come together.
#![tactic(auto)]

mod joining;
mod notes;
mod owner;
mod request;
mod state;

pub use joining::{JoinFault, Way, join};
pub use notes::{Edge, LoopNotes, Notes, Turn};
pub use owner::{Owner, OwnerId, Site, SiteKind, Status};
pub use request::RequestStates;
pub use state::{Entry, Fill, MessageState, State};
