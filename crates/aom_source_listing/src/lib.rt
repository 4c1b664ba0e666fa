//! The names in the assembly text of a source: whether those of its classes, methods, words and fields are what the source declares.
//!
//! A text comes with the token of each of its lines. What a token declares is told by `aom_source_names`, from the words beside it; what a text declares by
//! `aom_diagnostics`. Who has written the text, and how, is not known here.
#![tactic(auto)]

mod classes;
mod labels;
mod lines;
mod listing;
mod members;
mod methods;
mod own;

pub use labels::numbered_label;
pub use listing::{are_classes_named, are_members_named, are_methods_named};
