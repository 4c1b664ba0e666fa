//! A source translated: to an assembly text by its names, to the image that the text denotes, and to a map from each line of the text to the source.
//!
//! What is answered is judged by the verifier, as every image is. The translator promises that the text assembles to the image, and the places of its faults.
#![tactic(auto)]

mod driving;
mod labels;
mod listing;
mod naming;
mod ordering;
mod refusal;
mod scoping;
mod text;
mod translating;
mod writing;

pub use refusal::Refusal;
pub use translating::{Translation, translate};
pub use writing::{Origin, Written};
