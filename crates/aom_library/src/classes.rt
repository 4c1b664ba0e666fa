//! An image that is linked: roles and the classes of fields.

pub use aom_link_conditions::{LinkFault, LinkPlace, check_conditions, link_place};
pub use aom_linker::{BodyTable, Linked, RoleTable, link};
