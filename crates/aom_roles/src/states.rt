//! Sets of request states.
ghost use Rattle.std.specs.Prelude.{◌≡◌, ◌↔◌, IsTrue};
ghost use Rattle.aom_roles.specs.States.{server_states, active_states, states_of, first_of, last_of, IsPart};

use aom_image::{ClassKind, States};
use bitflags::Flags;

/// The states of a server.
pub fn server_states() -> States
    ensures { result.0 ≡ server_states }
{
    States::UNLISTED.union(States::IDLE)
}

/// The states of an active object while nothing works on it.
pub fn active_states() -> States
    ensures { result.0 ≡ active_states }
{
    server_states().union(States::ACTIVE)
}

/// The states in which the objects of a kind of class may be while nothing works on them.
#[tactic(auto, unfolding(crate::specs::States::states_of))]
pub fn states_of(kind: Option<ClassKind>) -> States
    ensures { result.0 ≡ states_of kind }
{
    match kind {
        Some(ClassKind::Active { .. }) => active_states(),
        Some(ClassKind::Server { .. }) => server_states(),
        _ => States::NONE,
    }
}

/// The state in which they begin.
#[tactic(auto, unfolding(crate::specs::States::first_of))]
pub fn first_of(kind: Option<ClassKind>) -> States
    ensures { result.0 ≡ first_of kind }
{
    match kind {
        Some(ClassKind::Active { .. } | ClassKind::Server { .. }) => States::UNLISTED,
        _ => States::NONE,
    }
}

/// The states in which their destructor ends.
#[tactic(auto, unfolding(crate::specs::States::last_of))]
pub fn last_of(kind: Option<ClassKind>) -> States
    ensures { result.0 ≡ last_of kind }
{
    match kind {
        Some(ClassKind::Active { .. } | ClassKind::Server { .. }) => server_states(),
        _ => States::NONE,
    }
}

pub fn same_states(one: States, other: States) -> bool
    ensures { IsTrue result ↔ (one.0 ≡ other.0) }
{
    one.bits() == other.bits()
}

/// Whether the set is a part of the whole, and not empty unless that is.
pub fn is_nonempty_subset(whole: States, set: States) -> bool
    ensures { IsTrue result ↔ IsPart whole.0 set.0 }
{
    whole.contains(set) && (!set.is_empty() || whole.is_empty())
}
