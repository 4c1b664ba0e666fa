//! A program: what a source declares.
use crate::class::{Class, ClassId, Field};
use crate::constants::Constants;
use crate::fault::{Fault, FaultKind};
use crate::method::{Method, MethodId, Role, Thing, ValueKind};
use crate::source::Source;
use aom_source_syntax::Action;
use std::alloc::Global;

/// What a source declares.
#[derive(Drop)]
pub struct Program<'a> {
    pub alloc: Global,
    pub cells: u32,
    pub messages: u32,
    pub natives: u32,
    /// The budget of the main method, where the source says it.
    pub budget: Option<u32>,
    pub root: Option<ClassId>,
    pub constants: Constants<'a>,
    pub classes: Vec<Class<'a>>,
    pub methods: Vec<Method<'a>>,
    /// The classes in the order in which an image has them.
    pub class_order: Vec<ClassId>,
    pub main: Option<MethodId>,
    /// How many methods the source has. Those behind are added.
    pub declared: usize,
}

impl<'a> Program<'a> {
    /// A program that declares nothing.
    pub fn new(alloc: Global, constants: Constants<'a>) -> Program<'a> {
        Program {
            alloc,
            cells: 0,
            messages: 0,
            natives: 0,
            budget: None,
            root: None,
            constants,
            classes: Vec::new(alloc),
            methods: Vec::new(alloc),
            class_order: Vec::new(alloc),
            main: None,
            declared: 0,
        }
    }

    /// A class by its number.
    pub fn class(&self, id: ClassId) -> Result<&Class<'a>, Fault<'a>> {
        self.classes.get(id.0).ok_or(Fault::internal())
    }

    /// A class, to be written to.
    pub fn class_mut(&mut self, id: ClassId) -> Result<&mut Class<'a>, Fault<'a>> {
        self.classes.get_mut(id.0).ok_or(Fault::internal())
    }

    /// A method by its number.
    pub fn method(&self, id: MethodId) -> Result<&Method<'a>, Fault<'a>> {
        self.methods.get(id.0).ok_or(Fault::internal())
    }

    /// A method, to be written to.
    pub fn method_mut(&mut self, id: MethodId) -> Result<&mut Method<'a>, Fault<'a>> {
        self.methods.get_mut(id.0).ok_or(Fault::internal())
    }

    /// A class by its place in the order of classes.
    pub fn ordered(&self, at: usize) -> Result<ClassId, Fault<'a>> {
        self.class_order.get(at).copied().ok_or(Fault::internal())
    }

    /// The class of a name.
    pub fn class_named(&self, name: &[u8]) -> Option<ClassId> {
        match self.classes.iter().position(|class| class.name == name) {
            Some(at) => Some(ClassId(at)),
            None => None,
        }
    }

    /// The class that is named at an item.
    pub fn class_at(&self, source: &Source<'_, 'a>, at: usize) -> Result<ClassId, Fault<'a>> {
        let name = source.name(at)?;
        self.class_named(name)
            .ok_or(source.fault(FaultKind::UnknownName, at).about(name))
    }

    /// The kind that is named at an item and the next.
    pub fn kind_at(&self, source: &Source<'_, 'a>, at: usize) -> Result<ValueKind, Fault<'a>> {
        let is_maybe = source.action(at.saturating_add(1)) == Action::MaybeType;
        match source.action(at) {
            Action::WordType => Ok(ValueKind::Word),
            Action::MessageType => Ok(ValueKind::Owner {
                thing: Thing::Message,
                is_maybe,
            }),
            Action::ClassType => {
                if self.constants.is_enum(source.name(at)?) {
                    return Ok(ValueKind::Word);
                }
                Ok(ValueKind::Owner {
                    thing: Thing::Object(self.class_at(source, at)?),
                    is_maybe,
                })
            }
            _ => Err(Fault::internal()),
        }
    }

    /// The method of a name that is of no class.
    pub fn function_named(&self, name: &[u8]) -> Option<MethodId> {
        for at in 0..self.declared.min(self.methods.len()) {
            let method = &self.methods[at];
            if method.class.is_none() && method.name == name {
                return Some(MethodId(at));
            }
        }
        None
    }

    /// Whether a class is another one or descends from it.
    pub fn descends(&self, class: ClassId, other: ClassId) -> bool {
        let mut next = Some(class);
        for _ in 0..=self.classes.len() {
            match next {
                Some(at) if at == other => return true,
                Some(at) => next = self.parent(at),
                None => return false,
            }
        }
        false
    }

    /// The parent of a class.
    pub fn parent(&self, class: ClassId) -> Option<ClassId> {
        match self.classes.get(class.0) {
            Some(found) => found.parent,
            None => None,
        }
    }

    /// The method of a role that a class has, of its own or from a parent.
    pub fn role(&self, class: ClassId, role: Role) -> Option<MethodId> {
        let mut next = Some(class);
        for _ in 0..=self.classes.len() {
            let at = next?;
            if let Some(found) = self.classes.get(at.0)?.role(role) {
                return Some(found);
            }
            next = self.parent(at);
        }
        None
    }

    /// The method of a name that a class has, of its own or from a parent.
    pub fn find(&self, class: ClassId, name: &[u8]) -> Option<MethodId> {
        let mut next = Some(class);
        for _ in 0..=self.classes.len() {
            let at = next?;
            for method in &self.classes.get(at.0)?.methods {
                if let Some(found) = self.methods.get(method.0) {
                    if found.name == name {
                        return Some(*method);
                    }
                }
            }
            next = self.parent(at);
        }
        None
    }

    /// A field of a class.
    pub fn field(&self, class: ClassId, number: usize) -> Result<Field<'a>, Fault<'a>> {
        match self.class(class)?.fields.get(number) {
            Some(field) => Ok(*field),
            None => Err(Fault::internal()),
        }
    }

    /// A method with all that override it, itself first.
    pub fn family(&self, method: MethodId) -> Result<Vec<MethodId>, Fault<'a>> {
        let mut family: Vec<MethodId> = Vec::new(self.alloc);
        family.push(method)?;
        for at in 0..self.methods.len() {
            let Some(next) = family.get(at) else {
                return Ok(family);
            };
            let next = *next;
            for overrider in &self.method(next)?.overriders {
                family.push(*overrider)?;
            }
        }
        Ok(family)
    }

    /// Whether the image is of the second version.
    pub fn is_second_version(&self) -> bool {
        self.classes.iter().any(|class| {
            class.parent.is_some() || class.kind == crate::class::ClassKind::Token
        })
    }
}
