//! What classes have from those that they descend from, and what runs in the place of a method; nothing in it runs.
//!
//! Holds what the laws of the machine, of prices and of the heap need of an image whose classes have parents, as laws of
//! definitions of `aom_roles` and `aom_link_conditions`. Promises: descending is an order; a class has the kind, the words, the fields
//! and the roles of those that it descends from; what a call runs is alike to what it names; what an object may own weighs
//! less than it; and an image without parents and overriders means what it meant. It knows nothing of typings.
#![tactic(auto)]

mod laws;

pub use laws::{
    bodies_are_alike, descending_is_an_order, families_inherit, plain_images_stay, weights_fall,
};
