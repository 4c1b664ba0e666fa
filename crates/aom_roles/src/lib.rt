//! What the kinds of classes and the roles of methods ask of each other.
//!
//! `classes_are_ordered` tells whether what classes name comes before them, and `all_are_shaped` whether each
//! method has the shape of its role; what is first to fail is told by place. All look at any image; nothing here knows which method has a role.
#![tactic(auto)]

mod class_order;
mod families;
mod roles;
mod shapes;
mod states;

pub use class_order::{classes_are_ordered, first_unordered, session_root, sessions_at};
pub use families::{descends, parent_of};
pub use roles::same_role;
pub use shapes::{
    all_are_shaped, first_misnaming, first_unshaped, gives_nothing, gives_of, is_quiet, may_leave,
    resting_states,
};
