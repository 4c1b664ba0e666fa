//! Linking: what an image must keep between its classes and methods before its instructions are looked at.
//!
//! `check_conditions` answers the main of an image that keeps the conditions, or the first one that it fails, and `link_place` where it fails that. What a class's method of a
//! role is, and what overrides a method, is said here too.
//! Nothing here knows of cells, frames or the state of a register.
#![tactic(auto)]

mod call_order;
mod chains;
mod conditions;
mod families;
mod fault;
mod jumps;
mod kept;
mod loops;
mod needs;
mod orders;
mod overriding;
mod place;
mod roles;
mod same;
mod singles;

pub use chains::{NO_METHOD, overriders_of_class};
pub use conditions::check_conditions;
pub use fault::LinkFault;
pub use overriding::overridden_method;
pub use place::{LinkPlace, link_place};
pub use roles::{find_role, is_class, is_inherited, own_role};
