//! What is known of one place.
ghost use Rattle.std.specs.Prelude.{◌≡◌};
ghost use Rattle.aom_abstract_state.specs.Kinds.{is_empty, is_here, is_ready, is_word, is_unowning, is_object_or_null, may_be_destroyed, is_ready_kind, is_fresh_kind, made_ready, filled, field_state_of, entry_kind};
ghost use Rattle.aom_abstract_state.specs.Entries.{made_ready_entry, is_object_entry};
ghost use Rattle.aom_abstract_state.specs.Tests.{same_message_state, is_unset, may_be_null, may_own, may_be_same, implied, implied_field_state, meet_kind, apart, meet_filling, same_entry};

use crate::things::{is_object, same_thing};
use aom_image::{ClassNumber, Thing};

/// Whether an object still waits for its construct method.
#[derive(Clone, Copy, PartialEq, Eq)]
pub enum InitState {
    /// Its fields are null, and it is not enlisted.
    Fresh,
    Ready,
}

impl InitState {
    pub fn is_ready(self) -> bool
        ensures { result ≡ is_ready self }
    {
        match self {
            InitState::Fresh => false,
            InitState::Ready => true,
        }
    }
}

/// What became of the message that a service method is called with.
#[derive(Clone, Copy, PartialEq, Eq)]
pub enum MessageState {
    /// Nothing has taken it. Methods of other roles, which have none, stay here.
    Here,
    Gone,
}

impl MessageState {
    pub fn is_here(self) -> bool
        ensures { result ≡ is_here self }
    {
        match self {
            MessageState::Here => true,
            MessageState::Gone => false,
        }
    }

    pub fn is_same(self, other: MessageState) -> bool
        ensures { result ≡ same_message_state self other }
    {
        self == other
    }
}

/// What a register holds.
#[derive(Clone, Copy)]
pub enum Kind {
    Unset,
    Word,
    Null,
    Own(Thing, InitState),
    /// The thing, or null.
    Maybe(Thing, InitState),
}

impl Kind {
    pub fn is_word(self) -> bool
        ensures { result ≡ is_word self }
    {
        match self {
            Kind::Word => true,
            Kind::Unset | Kind::Null | Kind::Own(_, _) | Kind::Maybe(_, _) => false,
        }
    }

    /// It owns nothing, and perhaps nothing.
    pub fn is_unowning(self) -> bool
        ensures { result ≡ is_unowning self }
    {
        match self {
            Kind::Unset | Kind::Word | Kind::Null => true,
            Kind::Own(_, _) | Kind::Maybe(_, _) => false,
        }
    }

    pub fn is_object_or_null(self) -> bool
        ensures { result ≡ is_object_or_null self }
    {
        match self {
            Kind::Unset | Kind::Word => false,
            Kind::Null | Kind::Own(_, _) | Kind::Maybe(_, _) => true,
        }
    }

    /// An object or null, and no message.
    pub fn may_be_destroyed(self) -> bool
        ensures { result ≡ may_be_destroyed self }
    {
        match self {
            Kind::Unset | Kind::Word => false,
            Kind::Null => true,
            Kind::Own(thing, _) | Kind::Maybe(thing, _) => is_object(thing),
        }
    }

    /// Ready, where it is an object at all.
    pub fn is_ready(self) -> bool
        ensures { result ≡ is_ready_kind self }
    {
        match self {
            Kind::Unset | Kind::Word | Kind::Null => true,
            Kind::Own(_, age) | Kind::Maybe(_, age) => age.is_ready(),
        }
    }

    /// It is an object that is fresh.
    pub fn is_fresh(self) -> bool
        ensures { result ≡ is_fresh_kind self }
    {
        match self {
            Kind::Unset | Kind::Word | Kind::Null | Kind::Maybe(_, _) => false,
            Kind::Own(_, age) => !age.is_ready(),
        }
    }

    /// The same, ready where it is an object at all.
    pub fn made_ready(self) -> Kind
        ensures { result ≡ made_ready self }
    {
        match self {
            Kind::Unset | Kind::Word | Kind::Null => self,
            Kind::Own(thing, _) => Kind::Own(thing, InitState::Ready),
            Kind::Maybe(thing, _) => Kind::Maybe(thing, InitState::Ready),
        }
    }

    /// What a field holds once this has moved there.
    pub fn field_state(self) -> FieldState
        ensures { result ≡ field_state_of self }
    {
        match self {
            Kind::Unset | Kind::Word | Kind::Maybe(_, _) => FieldState::Perhaps,
            Kind::Null => FieldState::Empty,
            Kind::Own(_, _) => FieldState::Full,
        }
    }

    fn is_unset(self) -> bool
        ensures { result ≡ is_unset self }
    {
        match self {
            Kind::Unset => true,
            Kind::Word | Kind::Null | Kind::Own(_, _) | Kind::Maybe(_, _) => false,
        }
    }

    fn may_be_null(self) -> bool
        ensures { result ≡ may_be_null self }
    {
        match self {
            Kind::Unset | Kind::Null | Kind::Maybe(_, _) => true,
            Kind::Word | Kind::Own(_, _) => false,
        }
    }

    fn may_own(self, thing: Thing, age: InitState) -> bool
        ensures { result ≡ may_own thing age self }
    {
        match self {
            Kind::Unset | Kind::Word | Kind::Null => false,
            Kind::Own(own, stage) | Kind::Maybe(own, stage) => same_thing(own, thing)
                && stage == age,
        }
    }

    fn may_be_same(self, thing: Thing, age: InitState) -> bool
        ensures { result ≡ may_be_same thing age self }
    {
        match self {
            Kind::Unset | Kind::Word | Kind::Null | Kind::Own(_, _) => false,
            Kind::Maybe(own, stage) => same_thing(own, thing) && stage == age,
        }
    }

    /// Whether this says no more than the other.
    pub fn is_implied_by(&self, other: &Kind) -> bool
        ensures { result ≡ implied self.now other.now }
    {
        match *other {
            Kind::Unset => self.is_unset(),
            Kind::Word => self.is_unset() || self.is_word(),
            Kind::Null => self.may_be_null(),
            Kind::Own(thing, age) => self.may_own(thing, age),
            Kind::Maybe(thing, age) => self.may_be_same(thing, age),
        }
    }

    /// What two kinds, neither of which says no more than the other, have in common.
    fn apart(self, other: Kind) -> Option<Kind>
        ensures { result ≡ apart self other }
    {
        match (self, other) {
            (Kind::Word, Kind::Null) | (Kind::Null, Kind::Word) => Some(Kind::Unset),
            (Kind::Null, Kind::Own(thing, age)) | (Kind::Own(thing, age), Kind::Null) => Some(
                Kind::Maybe(thing, age),
            ),
            _ => None,
        }
    }

    /// The strongest kind that says no more than either.
    pub fn meet(&self, other: &Kind) -> Option<Kind>
        ensures { result ≡ meet_kind self.now other.now }
    {
        if self.is_implied_by(other) {
            Some(*self)
        } else if other.is_implied_by(self) {
            Some(*other)
        } else {
            self.apart(*other)
        }
    }
}

/// What an owning field of the running method's object holds.
#[derive(Clone, Copy, PartialEq, Eq)]
pub enum FieldState {
    Empty,
    Full,
    Perhaps,
}

impl FieldState {
    pub fn is_empty(self) -> bool
        ensures { result ≡ is_empty self }
    {
        match self {
            FieldState::Empty => true,
            FieldState::Full | FieldState::Perhaps => false,
        }
    }

    /// The kind of what the field holds, by what is declared of it.
    pub fn kind(self, declared: Option<Thing>) -> Kind
        ensures { result ≡ filled declared self }
    {
        match declared {
            None => Kind::Null,
            Some(thing) => match self {
                FieldState::Empty => Kind::Null,
                FieldState::Full => Kind::Own(thing, InitState::Ready),
                FieldState::Perhaps => Kind::Maybe(thing, InitState::Ready),
            },
        }
    }

    /// Whether this says no more than the other.
    pub fn is_implied_by(self, other: FieldState) -> bool
        ensures { result ≡ implied_field_state self other }
    {
        match self {
            FieldState::Perhaps => true,
            FieldState::Empty => other == FieldState::Empty,
            FieldState::Full => other == FieldState::Full,
        }
    }

    /// The strongest filling that says no more than either.
    pub fn meet(self, other: FieldState) -> FieldState
        ensures { result ≡ meet_filling self other }
    {
        if self.is_implied_by(other) {
            self
        } else {
            FieldState::Perhaps
        }
    }
}

/// A cleanup entry that the method has pushed.
#[derive(Clone, Copy)]
pub enum CleanupEntry {
    Object(ClassNumber, InitState),
    Operation,
}

impl CleanupEntry {
    pub fn is_object(self) -> bool
        ensures { result ≡ is_object_entry self }
    {
        match self {
            CleanupEntry::Object(_, _) => true,
            CleanupEntry::Operation => false,
        }
    }

    /// The kind of what it owns.
    pub fn kind(self) -> Kind
        ensures { result ≡ entry_kind self }
    {
        match self {
            CleanupEntry::Object(class, age) => Kind::Own(Thing::Object(class), age),
            CleanupEntry::Operation => Kind::Null,
        }
    }

    /// The same, and its object is ready.
    pub fn made_ready(self) -> CleanupEntry
        ensures { result ≡ made_ready_entry self }
    {
        match self {
            CleanupEntry::Object(class, _) => CleanupEntry::Object(class, InitState::Ready),
            CleanupEntry::Operation => CleanupEntry::Operation,
        }
    }

    pub fn is_same(self, other: CleanupEntry) -> bool
        ensures { result ≡ same_entry self other }
    {
        match self {
            CleanupEntry::Object(class, age) => match other {
                CleanupEntry::Object(number, stage) => class.number() == number.number()
                    && age == stage,
                CleanupEntry::Operation => false,
            },
            CleanupEntry::Operation => !other.is_object(),
        }
    }
}
