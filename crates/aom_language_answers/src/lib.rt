//! What is answered to an editor, as JSON: positions, places of names, outlines, renaming, and what messages ask.
//!
//! What a name means is told by `aom_source_names`; here it becomes ranges of the protocol. It knows nothing of compiling: faults and notes are handed in.
#![tactic(auto)]

mod changes;
mod diagnosing;
mod documents;
mod hovering;
mod outline;
mod places;
mod position;
mod renaming;
mod replies;
mod request;
mod texts;

pub use changes::{changed_text, opened_text, position_of, uri_of};
pub use diagnosing::diagnostic;
pub use documents::Documents;
pub use hovering::{hover, hover_text};
pub use outline::symbols;
pub use places::definition;
pub use position::{Position, Range, Ruler, Walk};
pub use renaming::{prepare, rename};
pub use replies::{ReplyFault, notice, refuse, reply};
pub use request::{Incoming, read_message};
pub use texts::text_or_none;
