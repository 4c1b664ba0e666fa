//! The figures of a checked image: what its methods come to and cost, beside what it declares, as a text, and as a graph in
//! Graphviz's language of its classes and what they own, its methods, what leads from one to another, and the way to the greatest
//! price.
//!
//! `figures_text` answers just the text of `specs/Text.antt`, and `dot_text` that of `specs/Dot.antt`. With `Places` the text tells
//! the lines of a text that declare what the figures are of. What the figures are is said in
//! `aom_budget`; here is only how they are written and drawn. Nothing here knows whether an image is accepted: in a graph what is over
//! its budget or over a limit is red. `FigureWriter` is the text in which they are written; what else is written of an image takes it from
//! here.
#![tactic(auto)]

mod class;
mod edge;
mod graph;
mod method;
mod most;
mod names;
mod over;
mod places;
mod text;
mod way;
mod writer;

pub use graph::dot_text;
pub use most::method_number;
pub use names::Names;
pub use places::Places;
pub use text::figures_text;
pub use writer::FigureWriter;
