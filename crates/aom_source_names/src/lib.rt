//! What the names of a source mean, by its tokens alone: which token declares a name, and where its declaration is.
//!
//! It knows no grammar, so that it answers for a source that is being written: where a token stands is told by braces, semicolons and the words beside it.
//! Methods of one name count as one, whatever their classes are, since a call runs the nearest overrider.
#![tactic(auto)]

mod declared;
mod names;
mod places;
mod spot;
mod wanted;
mod words;

pub use declared::Declared;
pub use names::Names;
pub use spot::Spot;
pub use wanted::Wanted;
