//! Methods.
ghost use Rattle.std.specs.Prelude.{⊤, [], ◌∷◌, codes, ◌≡◌, IsSome, IfSome, IsTrue, ◌↔◌, ◌<◌};
ghost use Rattle.aom_image.specs.Roles.{role_number};

use crate::{ClassNumber, Instr, Items, MethodNumber};
use bitflags::{Flag, Flags};

/// What a place may own.
#[derive(Clone, Copy)]
pub enum Thing {
    Object(ClassNumber),
    Message,
}

/// What a method is for.
#[derive(Clone, Copy, PartialEq, Eq, Debug)]
pub enum Role {
    Do,
    Main,
    Construct,
    Destruct,
    Run,
    Cancel,
    Error,
    Accept,
    Service,
    Undo,
}

impl Role {
    /// Its number, from 0 to 9.
    #[tactic(auto, unfolding(crate::specs::Roles::role_number))]
    pub fn number(self) -> u8
        ensures value { result ≡ role_number self }
        ensures small { result < 10 }
    {
        self as u8
    }
}

/// What an argument is.
#[derive(Clone, Copy)]
pub enum Argument {
    Word,
    Own(Thing),
}

/// What a method gives back.
#[derive(Clone, Copy)]
pub enum Gives {
    Nothing,
    Word,
    Own(Thing),
    Maybe(Thing),
    /// An object that is left on the cleanup stack.
    Left(ClassNumber),
}

/// Whether a method may leave, and whether it is quiet.
#[derive(Clone, Copy)]
pub struct MethodFlags(u8);

impl MethodFlags {
    pub const NONE: MethodFlags = MethodFlags(0);

    pub const LEAVES: MethodFlags = MethodFlags(1);

    pub const QUIET: MethodFlags = MethodFlags(2);

    /// The flags that a byte spells, if it spells no others.
    pub fn of_byte(byte: u8) -> Option<MethodFlags>
        ensures known { IsSome result ↔ (byte < 4) }
        ensures value { IfSome result (λ f. f.0 ≡ byte) }
    {
        (byte < 4).then_some(MethodFlags(byte))
    }

    /// Whether there are no flags in it but those above.
    pub fn is_known(self) -> bool
        ensures { IsTrue result ↔ (self.0 < 4) }
    {
        self.0 < 4
    }
}

impl Flags for MethodFlags {
    type Bits = u8;

    ghost exact = { ⊤ };

    ghost table = { (codes "LEAVES", 1) ∷ (codes "QUIET", 2) ∷ [] };

    ghost set_of = { λ s. s.0 };

    fn flags<'a>() -> &'a [Flag<MethodFlags>] {
        &[
            Flag {
                name: "LEAVES",
                value: MethodFlags(1),
            },
            Flag {
                name: "QUIET",
                value: MethodFlags(2),
            },
        ]
    }

    fn bits(&self) -> u8 {
        self.0
    }

    fn from_bits_retain(bits: u8) -> MethodFlags {
        MethodFlags(bits)
    }
}

/// A set of request states: not enlisted, idle, issued, active, being cancelled with its request open, and with it done.
#[derive(Clone, Copy)]
pub struct States(u8);

impl States {
    pub const NONE: States = States(0);

    pub const UNLISTED: States = States(1);

    pub const IDLE: States = States(2);

    pub const ISSUED: States = States(4);

    pub const ACTIVE: States = States(8);

    pub const OPEN: States = States(16);

    pub const DONE: States = States(32);

    /// The states that a byte spells, if it spells no others.
    pub fn of_byte(byte: u8) -> Option<States>
        ensures known { IsSome result ↔ (byte < 64) }
        ensures value { IfSome result (λ s. s.0 ≡ byte) }
    {
        (byte < 64).then_some(States(byte))
    }

    /// Whether there are no states in it but those above.
    pub fn is_known(self) -> bool
        ensures { IsTrue result ↔ (self.0 < 64) }
    {
        self.0 < 64
    }
}

impl Flags for States {
    type Bits = u8;

    ghost exact = { ⊤ };

    ghost table = { (codes "UNLISTED", 1) ∷ (codes "IDLE", 2) ∷ (codes "ISSUED", 4) ∷ (codes "ACTIVE", 8) ∷ (codes "OPEN", 16) ∷ (codes "DONE", 32) ∷ [] };

    ghost set_of = { λ s. s.0 };

    fn flags<'a>() -> &'a [Flag<States>] {
        &[
            Flag {
                name: "UNLISTED",
                value: States(1),
            },
            Flag {
                name: "IDLE",
                value: States(2),
            },
            Flag {
                name: "ISSUED",
                value: States(4),
            },
            Flag {
                name: "ACTIVE",
                value: States(8),
            },
            Flag {
                name: "OPEN",
                value: States(16),
            },
            Flag {
                name: "DONE",
                value: States(32),
            },
        ]
    }

    fn bits(&self) -> u8 {
        self.0
    }

    fn from_bits_retain(bits: u8) -> States {
        States(bits)
    }
}

#[derive(Drop)]
pub struct Method {
    /// The class whose objects it works on, or none for a static method.
    pub class: Option<ClassNumber>,
    /// The method of an ancestor in whose place it runs.
    pub over: Option<MethodNumber>,
    pub role: Role,
    pub flags: MethodFlags,
    /// The states in which it may begin.
    pub before: States,
    /// The states in which it may end.
    pub after: States,
    /// At most six.
    pub arguments: Items<Argument>,
    pub gives: Gives,
    /// From 1 to 1,024 instructions.
    pub code: Items<Instr>,
}
