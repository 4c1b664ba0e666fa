//! Classes.
use crate::fault::Fault;
use crate::method::{MethodId, Role, Thing};

/// The number of a class, in the order of the source.
#[derive(Clone, Copy, PartialEq, Eq, Debug)]
pub struct ClassId(pub usize);

/// What a class is. A class that says nothing is what its parent is.
#[derive(Clone, Copy, PartialEq, Eq, Debug)]
pub enum ClassKind {
    Plain,
    Active,
    Timer,
    Token,
    Native,
    Session,
    Server,
}

impl ClassKind {
    /// Whether its objects make requests.
    pub fn is_active(self) -> bool {
        matches!(
            self,
            ClassKind::Active | ClassKind::Timer | ClassKind::Token | ClassKind::Native
        )
    }

    /// Whether its objects are enlisted at the scheduler.
    pub fn is_enlisted(self) -> bool {
        self.is_active() || self == ClassKind::Server
    }
}

/// A field that owns.
#[derive(Clone, Copy)]
pub struct Field<'a> {
    pub name: &'a [u8],
    pub thing: Thing,
    /// Of a message, the items of the code with which one that is still there is answered.
    pub code: (usize, usize),
    pub token: u32,
}

/// A class. Words and fields are those of its parents, then its own.
#[derive(Drop)]
pub struct Class<'a> {
    pub name: &'a [u8],
    pub token: u32,
    pub kind: ClassKind,
    /// The number of its native, or the most sessions of a server.
    pub number: u32,
    pub parent: Option<ClassId>,
    pub session: Option<ClassId>,
    pub budget: Option<u32>,
    pub words: Vec<&'a [u8]>,
    pub fields: Vec<Field<'a>>,
    /// How many of the fields are its parent's.
    pub inherited: usize,
    /// Its own methods with a role, by the number of the role.
    pub roles: Vec<(Role, MethodId)>,
    /// Its own methods by name.
    pub methods: Vec<MethodId>,
}

impl<'a> Class<'a> {
    /// Its own method of a role.
    pub fn role(&self, role: Role) -> Option<MethodId> {
        for entry in &self.roles {
            if entry.0 == role {
                return Some(entry.1);
            }
        }
        None
    }

    /// The number of a word.
    pub fn word(&self, name: &[u8]) -> Option<usize> {
        self.words.iter().position(|word| *word == name)
    }

    /// The number of a field that owns.
    pub fn field(&self, name: &[u8]) -> Option<usize> {
        self.fields.iter().position(|field| field.name == name)
    }

    /// The fields that it adds to its parent's.
    pub fn own_fields(&self) -> Result<&[Field<'a>], Fault<'a>> {
        self.fields.get(self.inherited..).ok_or(Fault::internal())
    }
}
