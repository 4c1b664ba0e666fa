//! How far the request of an object may be.
use aom_source_program::{ClassKind, Role};

/// A set of states of an object's request, by bits.
#[derive(Clone, Copy, PartialEq, Eq, Debug)]
pub struct RequestStates(pub u8);

impl RequestStates {
    pub const NONE: RequestStates = RequestStates(0);
    /// Not enlisted.
    pub const UNLISTED: RequestStates = RequestStates(1);

    pub const IDLE: RequestStates = RequestStates(2);

    pub const ISSUED: RequestStates = RequestStates(4);

    pub const ACTIVE: RequestStates = RequestStates(8);
    /// Being cancelled.
    pub const CANCELLING: RequestStates = RequestStates(16);

    pub const CANCELLED: RequestStates = RequestStates(32);

    /// The letters of the states in an assembly text, in its order.
    pub const LETTERS: [(u8, RequestStates); 6] = [
        (b'u', RequestStates::UNLISTED),
        (b'i', RequestStates::IDLE),
        (b's', RequestStates::ISSUED),
        (b'a', RequestStates::ACTIVE),
        (b'o', RequestStates::CANCELLING),
        (b'd', RequestStates::CANCELLED),
    ];

    pub fn or(self, other: RequestStates) -> RequestStates {
        RequestStates(self.0 | other.0)
    }

    pub fn and(self, other: RequestStates) -> RequestStates {
        RequestStates(self.0 & other.0)
    }

    /// Without the other's states.
    pub fn less(self, other: RequestStates) -> RequestStates {
        RequestStates(self.0 & (other.0 ^ 255))
    }

    pub fn is_none(self) -> bool {
        self.0 == 0
    }

    pub fn is_within(self, other: RequestStates) -> bool {
        self.less(other).is_none()
    }

    pub fn meets(self, other: RequestStates) -> bool {
        !self.and(other).is_none()
    }

    /// The states in which an object of a class may be while nothing of it runs.
    pub fn of_class(kind: ClassKind) -> RequestStates {
        if kind.is_active() {
            RequestStates(1 | 2 | 8)
        } else if kind.is_enlisted() {
            RequestStates(1 | 2)
        } else {
            RequestStates::NONE
        }
    }

    /// The states in which a method of a role begins, in a class of a kind.
    pub fn at_begin(role: Role, kind: ClassKind) -> RequestStates {
        let all = RequestStates::of_class(kind);
        if all.is_none() {
            return all;
        }
        match role {
            Role::Construct => RequestStates::UNLISTED,
            Role::Run | Role::Accept => RequestStates::IDLE,
            Role::Cancel => RequestStates::CANCELLING,
            Role::Error => RequestStates(2 | 8),
            Role::Service => RequestStates::NONE,
            Role::Destruct | Role::Function | Role::Undo | Role::Main => all,
        }
    }

    /// The states in which a method of a role may end where its head says nothing.
    pub fn at_end(role: Role, kind: ClassKind) -> RequestStates {
        match role {
            Role::Destruct | Role::Accept => RequestStates(1 | 2),
            Role::Run | Role::Error => RequestStates(1 | 2 | 8),
            Role::Cancel => RequestStates::CANCELLED,
            _ => RequestStates::of_class(kind),
        }
    }
}
