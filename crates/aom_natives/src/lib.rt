//! Boxed natives: providers of requests outside the image.
//!
//! A native is any type that keeps the clauses of the trait `Native`. It owes a completion for each id that it was started
//! with and that it has neither completed nor been asked to cancel, and its answers are among those that four relations of
//! the type's own allow. `Natives` holds boxes of such types by number, and beside each box the ids that are outstanding
//! there: before and after each call they are those that the box owes (`AllAgree` of `specs/Slots.antt`). No type can say
//! that, since nothing but a clause may look into a box, so each call requires it and ensures it. `Natives::adopt` takes
//! all memory, before it moves the first box. `Counter`, `Line` and `Delay` are natives with rooms of fixed size, and
//! `NativeKind` is which of them a word names. `BootFault` says why a machine does not boot with such boxes. This crate knows no cells and
//! no machine: an id is a number.
#![tactic(auto)]

mod counter;
mod delay;
mod fault;
mod kind;
mod line;
mod living;
mod native;
mod natives;
mod outstanding;

pub use counter::Counter;
pub use delay::{Delay, OwedRequest};
pub use fault::BootFault;
pub use kind::NativeKind;
pub use line::Line;
pub use living::LiveNative;
pub use native::Native;
pub use natives::Natives;
pub use outstanding::Outstanding;
