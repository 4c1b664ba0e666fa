//! Methods.
use crate::class::ClassId;

/// The number of a method, in the order in which they are declared; those that are added come behind.
#[derive(Clone, Copy, PartialEq, Eq, Debug)]
pub struct MethodId(pub usize);

/// What may be owned.
#[derive(Clone, Copy, PartialEq, Eq, Debug)]
pub enum Thing {
    Message,
    Object(ClassId),
}

/// What a local, a parameter or a result is.
#[derive(Clone, Copy, PartialEq, Eq, Debug)]
pub enum ValueKind {
    Nothing,
    Word,
    /// Owns surely, or may be null.
    Owner { thing: Thing, is_maybe: bool },
}

impl ValueKind {
    /// What it owns, if it may own anything.
    pub fn thing(self) -> Option<Thing> {
        match self {
            ValueKind::Owner { thing, .. } => Some(thing),
            _ => None,
        }
    }

    /// The class of what it owns.
    pub fn class(self) -> Option<ClassId> {
        match self.thing() {
            Some(Thing::Object(class)) => Some(class),
            _ => None,
        }
    }
}

/// What a method is for.
#[derive(Clone, Copy, PartialEq, Eq, Debug)]
pub enum Role {
    Construct,
    Destruct,
    Run,
    Cancel,
    Error,
    Accept,
    Service,
    /// A method that is called by name.
    Function,
    Undo,
    Main,
}

impl Role {
    /// Its keyword in the assembly text.
    pub fn word(self) -> &'static str {
        match self {
            Role::Construct => "construct",
            Role::Destruct => "destruct",
            Role::Run => "run",
            Role::Cancel => "cancel",
            Role::Error => "error",
            Role::Accept => "accept",
            Role::Service => "service",
            Role::Function => "do",
            Role::Undo => "undo",
            Role::Main => "main",
        }
    }

    /// Whether it may neither make anything nor trap.
    pub fn is_quiet(self) -> bool {
        matches!(self, Role::Destruct | Role::Cancel | Role::Undo)
    }
}

/// A parameter.
#[derive(Clone, Copy)]
pub struct Parameter<'a> {
    pub name: &'a [u8],
    pub kind: ValueKind,
    /// Its item, by which the local is known.
    pub item: usize,
    pub token: u32,
}

/// What a method does.
#[derive(Clone, Copy)]
pub enum Body {
    /// The items of a block, from its begin to its end.
    Block { begin: usize, end: usize },
    /// Nothing: a cancel method that is added.
    Empty,
    /// What a destructor does by itself.
    Destroys,
    /// Returns a new session.
    Accepts(ClassId),
    /// Gives its argument, as one of a parent class.
    Widens(ClassId),
    /// Gives a new object of the class.
    Makes(ClassId),
}

/// A method.
#[derive(Drop)]
pub struct Method<'a> {
    pub name: &'a [u8],
    pub token: u32,
    /// The token at which its body ends.
    pub end_token: u32,
    pub role: Role,
    pub class: Option<ClassId>,
    pub parameters: Vec<Parameter<'a>>,
    pub gives: ValueKind,
    pub body: Body,
    pub says_override: bool,
    pub says_noleave: bool,
    /// What it overrides.
    pub over: Option<MethodId>,
    pub overriders: Vec<MethodId>,
    /// Its name in the assembly text.
    pub label: Vec<u8>,
}

impl<'a> Method<'a> {
    /// Whether the source does not have it.
    pub fn is_added(&self) -> bool {
        !matches!(self.body, Body::Block { .. })
    }
}
