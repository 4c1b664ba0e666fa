//! Classes.
ghost use Rattle.std.specs.Prelude.{◌≡◌};

use crate::{ClassNumber, Items, NativeNumber, Thing};

/// What completes an active object's requests.
#[derive(Clone, Copy)]
pub enum Provider {
    Own,
    Timer,
    Native(NativeNumber),
    /// A token that the object hands out, where somebody replies to it.
    Token,
}

/// What a class is for.
#[derive(Clone, Copy)]
pub enum ClassKind {
    Plain,
    Active { provider: Provider },
    /// At most so many sessions, from 1 to 64, of that class.
    Server { sessions: u8, session: ClassNumber },
    Session,
}

impl ClassKind {
    ghost use Rattle.aom_image.specs.WellFormed.{is_dispatched, may_declare, may_descend};

    /// Whether objects of such a class are dispatched.
    pub fn is_dispatched(self) -> bool
        ensures { result ≡ is_dispatched self }
    {
        match self {
            ClassKind::Active { .. } | ClassKind::Server { .. } => true,
            ClassKind::Plain | ClassKind::Session => false,
        }
    }

    /// Whether a class of that kind may declare that budget.
    pub fn may_declare(self, budget: u32) -> bool
        ensures { result ≡ may_declare self budget }
    {
        self.is_dispatched() || budget == 0
    }

    /// Whether a class of that kind may have a parent.
    pub fn may_descend(self) -> bool
        ensures { result ≡ may_descend self }
    {
        match self {
            ClassKind::Plain | ClassKind::Active { .. } => true,
            ClassKind::Server { .. } | ClassKind::Session => false,
        }
    }
}

#[derive(Drop)]
pub struct ClassDecl {
    pub kind: ClassKind,
    /// The class whose words, fields and methods it has too.
    pub parent: Option<ClassNumber>,
    /// The count of words, at most 8.
    pub words: u8,
    /// What each owning field may own, at most 8 of them.
    pub fields: Items<Thing>,
    /// How many instructions one dispatch may take; 0 where objects of the class are not dispatched.
    pub budget: u32,
}

impl ClassDecl {
    ghost use Rattle.aom_image.specs.WellFormed.{is_server};

    pub fn is_server(&self) -> bool
        ensures { result ≡ is_server self.now }
    {
        matches!(self.kind, ClassKind::Server { .. })
    }
}
