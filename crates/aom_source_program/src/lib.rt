//! What a source declares: classes, methods and constants, by name and in the orders in which an image has them.
//!
//! It reads the items of declarations; the items of bodies it only finds. What a body does is the generator's.
#![tactic(auto)]

mod class;
mod constants;
mod declaring;
mod fault;
mod method;
mod order;
mod program;
mod resolving;
mod roles;
mod source;

pub use class::{Class, ClassId, ClassKind, Field};
pub use constants::Constants;
pub use declaring::{MOST_METHODS, declare};
pub use fault::{Fault, FaultKind};
pub use method::{Body, Method, MethodId, Parameter, Role, Thing, ValueKind};
pub use program::Program;
pub use resolving::resolve;
pub use source::Source;
