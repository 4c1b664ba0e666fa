//! Owners: locals and temporaries that may own something.

/// A local or a temporary, by the item that brings it forth.
#[derive(Clone, Copy, PartialEq, Eq, Debug)]
pub struct OwnerId {
    pub item: usize,
    pub is_temporary: bool,
}

impl OwnerId {
    /// The local that an item declares.
    pub fn local(item: usize) -> OwnerId {
        OwnerId {
            item,
            is_temporary: false,
        }
    }

    /// What an item computes on the way.
    pub fn temporary(item: usize) -> OwnerId {
        OwnerId {
            item,
            is_temporary: true,
        }
    }
}

/// What is known of an owner.
#[derive(Clone, Copy, PartialEq, Eq, Debug)]
pub enum Status {
    /// It owns surely.
    Owns,
    /// It owns or is null.
    Maybe,
    Null,
    /// It has been moved or deleted.
    Gone,
}

impl Status {
    /// Whether it may own something.
    pub fn is_live(self) -> bool {
        matches!(self, Status::Owns | Status::Maybe)
    }
}

/// How something came to an owner.
#[derive(Clone, Copy, PartialEq, Eq, Debug)]
pub enum SiteKind {
    Parameter,
    Let,
    Take,
    New,
    Call,
    Hand,
    Message,
    Pop,
    Join,
    Test,
    Trap,
    Set,
    Widened,
    Loop,
}

/// Where something came to an owner: there a guard may be put.
#[derive(Clone, Copy, PartialEq, Eq, Debug)]
pub struct Site {
    pub kind: SiteKind,
    pub item: usize,
}

/// An owner at a place.
#[derive(Clone, Copy, PartialEq, Eq, Debug)]
pub struct Owner {
    pub id: OwnerId,
    pub is_message: bool,
    pub status: Status,
    /// Whether it is on the cleanup stack, and not in its register.
    pub is_guarded: bool,
    pub site: Site,
    /// Later owners have greater numbers.
    pub order: usize,
}
