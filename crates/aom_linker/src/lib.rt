//! A linked image.
//!
//! `link` takes an image and answers a `Linked`, or the first condition that the image fails. A `Linked` is
//! the image given, with its main, and its views answer the image's own parts by their numbers. It has two tables, made once: the method of
//! each role of a class, and the method that a call of each method runs on an object of each class, so that a run searches nothing.
//! Nothing here knows of cells, frames or the state of a register.
#![tactic(auto)]

mod body_table;
mod linked;
mod numbers;
mod role_table;
mod row;

pub use body_table::BodyTable;
pub use linked::{Linked, link};
pub use role_table::RoleTable;
