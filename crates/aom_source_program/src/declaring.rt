//! Reads the declarations of a source.
use crate::class::{Class, ClassId, ClassKind, Field};
use crate::constants::Constants;
use crate::fault::{Fault, FaultKind};
use crate::method::{Body, Method, MethodId, Parameter, Role, Thing, ValueKind};
use crate::program::Program;
use crate::source::Source;
use aom_source_syntax::Action;
use std::alloc::Global;

/// The most classes of an image, the most servers among them, and the most letters of a class's name.
const MOST_CLASSES: usize = 256;

const MOST_SERVERS: usize = 8;

const MOST_LETTERS: usize = 32;

/// The most methods of an image.
pub const MOST_METHODS: usize = 1024;

/// The program that a source declares, whose classes are not put into order yet.
pub fn declare<'a>(alloc: Global, source: &Source<'_, 'a>) -> Result<Program<'a>, Fault<'a>> {
    let constants = Constants::read(alloc, source)?;
    let mut declaring = Declaring {
        alloc,
        source,
        program: Program::new(alloc, constants),
        class: None,
        classes: 0,
    };
    declaring.name_classes()?;
    declaring.read_all()?;
    let Declaring { mut program, .. } = declaring;
    program.declared = program.methods.len();
    Ok(program)
}

#[derive(Drop)]
struct Declaring<'s, 't, 'a> {
    alloc: Global,
    source: &'s Source<'t, 'a>,
    program: Program<'a>,
    /// The class whose members are read.
    class: Option<ClassId>,
    /// How many classes have been entered.
    classes: usize,
}

fn kind_of(action: Action) -> Option<ClassKind> {
    match action {
        Action::PlainClass => Some(ClassKind::Plain),
        Action::TimerClass => Some(ClassKind::Timer),
        Action::ActiveClass => Some(ClassKind::Active),
        Action::TokenClass => Some(ClassKind::Token),
        Action::NativeClass => Some(ClassKind::Native),
        Action::SessionClass => Some(ClassKind::Session),
        Action::ServerClass => Some(ClassKind::Server),
        _ => None,
    }
}

fn role_of(action: Action) -> Option<Role> {
    match action {
        Action::Construct => Some(Role::Construct),
        Action::Destruct => Some(Role::Destruct),
        Action::Run => Some(Role::Run),
        Action::CancelMethod => Some(Role::Cancel),
        Action::Error => Some(Role::Error),
        Action::Accept => Some(Role::Accept),
        Action::Service => Some(Role::Service),
        Action::Function => Some(Role::Function),
        Action::Undo => Some(Role::Undo),
        Action::Main => Some(Role::Main),
        _ => None,
    }
}

impl<'s, 't, 'a> Declaring<'s, 't, 'a> {
    /// All classes by name, so that each may be named before it is declared.
    fn name_classes(&mut self) -> Result<(), Fault<'a>> {
        let mut kind = ClassKind::Plain;
        let mut begin = 0;
        for at in 0..self.source.items.len() {
            let action = self.source.action(at);
            if let Some(found) = kind_of(action) {
                kind = found;
                begin = at;
            }
            if action == Action::ClassName {
                let name = self.source.name(at)?;
                if let Some(fault) = self.class_fault(name, kind) {
                    return Err(self.source.fault(fault, at).about(name));
                }
                let class = self.blank_class(name, self.source.token(begin), kind);
                self.program.classes.push(class)?;
            }
        }
        Ok(())
    }

    /// What is wrong with one class more of that name and kind.
    fn class_fault(&self, name: &'a [u8], kind: ClassKind) -> Option<FaultKind> {
        let classes = &self.program.classes;
        if self.program.class_named(name).is_some() || self.program.constants.is_enum(name) {
            return Some(FaultKind::DoubleName);
        }
        if MOST_LETTERS < name.len() {
            return Some(FaultKind::NameTooLong);
        }
        if MOST_CLASSES <= classes.len() {
            return Some(FaultKind::TooManyClasses);
        }
        let servers = classes
            .iter()
            .filter(|class| class.kind == ClassKind::Server)
            .count();
        if kind == ClassKind::Server && MOST_SERVERS <= servers {
            return Some(FaultKind::TooManyServers);
        }
        None
    }

    fn blank_class(&self, name: &'a [u8], token: u32, kind: ClassKind) -> Class<'a> {
        Class {
            name,
            token,
            kind,
            number: 0,
            parent: None,
            session: None,
            budget: None,
            words: Vec::new(self.alloc),
            fields: Vec::new(self.alloc),
            inherited: 0,
            roles: Vec::new(self.alloc),
            methods: Vec::new(self.alloc),
        }
    }

    fn read_all(&mut self) -> Result<(), Fault<'a>> {
        let mut at = 0;
        for _ in 0..self.source.items.len() {
            let action = self.source.action(at);
            if role_of(action).is_some() {
                self.read_method(at)?;
                at = self.source.partner(at).saturating_add(1);
            } else if action == Action::ConstBegin || action == Action::EnumBegin {
                at = self.source.partner(at).saturating_add(1);
            } else {
                self.read_part(action, at)?;
                at = at.saturating_add(1);
            }
        }
        Ok(())
    }

    fn read_part(&mut self, action: Action, at: usize) -> Result<(), Fault<'a>> {
        match action {
            Action::Cells => self.program.cells = self.number_before(at, 0, 4096)?,
            Action::Messages => self.program.messages = self.number_before(at, 0, 1024)?,
            Action::Natives => self.program.natives = self.number_before(at, 0, 16)?,
            Action::MainBudget => self.program.budget = Some(self.number_before(
                at, 0, 4294967295,
            )?),
            Action::RootWord => {
                if self.source.name(at)? != b"root".as_slice() {
                    return Err(self.source.fault(FaultKind::Syntax, at));
                }
            }
            Action::Root => self.program.root = Some(self.program.class_at(self.source, at)?),
            _ => self.read_class_part(action, at)?,
        }
        Ok(())
    }

    fn read_class_part(&mut self, action: Action, at: usize) -> Result<(), Fault<'a>> {
        match action {
            Action::ClassName => {
                self.class = Some(ClassId(self.classes));
                self.classes = self.classes.saturating_add(1);
            }
            Action::ClassEnd => self.class = None,
            Action::NativeNumber => {
                // it stands before the class's name
                let number = self.number_before(at, 0, 15)?;
                self.program.class_mut(ClassId(self.classes))?.number = number;
            }
            Action::MostSessions => {
                let number = self.number_before(at, 1, 64)?;
                self.this_class()?.number = number;
            }
            Action::ClassBudget => {
                let budget = self.number_before(at, 0, 4294967295)?;
                self.this_class()?.budget = Some(budget);
            }
            Action::Parent => {
                let parent = self.program.class_at(self.source, at)?;
                self.this_class()?.parent = Some(parent);
            }
            Action::Sessions => {
                let session = self.program.class_at(self.source, at)?;
                self.this_class()?.session = Some(session);
            }
            Action::Word => {
                let name = self.source.name(at)?;
                self.this_class()?.words.push(name)?;
            }
            Action::Own => self.read_field(at)?,
            _ => {}
        }
        Ok(())
    }

    fn this_class(&mut self) -> Result<&mut Class<'a>, Fault<'a>> {
        let class = self.class.ok_or(Fault::internal())?;
        self.program.class_mut(class)
    }

    fn read_field(&mut self, at: usize) -> Result<(), Fault<'a>> {
        let name = self.source.name(at)?;
        let token = self.source.token(at);
        let next = at.saturating_add(1);
        let field = if self.source.action(next) == Action::MessageElse {
            Field {
                name,
                thing: Thing::Message,
                code: (next.saturating_add(1), self.source.partner(next)),
                token,
            }
        } else {
            Field {
                name,
                thing: Thing::Object(self.program.class_at(self.source, next)?),
                code: (0, 0),
                token,
            }
        };
        self.this_class()?.fields.push(field)?;
        Ok(())
    }

    /// The constant before an item, as a number of a declaration.
    fn number_before(&self, at: usize, least: i64, most: i64) -> Result<u32, Fault<'a>> {
        let end = at.saturating_sub(1);
        let begin = self.source.partner(end);
        let value = self
            .program
            .constants
            .constant(self.alloc, self.source, begin)?;
        match u32::try_from(value) {
            Ok(number) if least <= value && value <= most => Ok(number),
            _ => Err(self.source.fault(FaultKind::NumberRange, begin)),
        }
    }

    fn read_method(&mut self, begin: usize) -> Result<(), Fault<'a>> {
        let end = self.source.partner(begin);
        let role = role_of(self.source.action(begin)).ok_or(Fault::internal())?;
        let mut method = Method {
            name: role.word().as_bytes(),
            token: self.source.token(begin),
            end_token: self.source.token(end.saturating_sub(1)),
            role,
            class: self.class,
            parameters: Vec::new(self.alloc),
            gives: ValueKind::Nothing,
            body: Body::Empty,
            says_override: self.is_overriding(begin),
            says_noleave: false,
            over: None,
            overriders: Vec::new(self.alloc),
            label: Vec::new(self.alloc),
        };
        for at in begin..end {
            match self.source.action(at) {
                Action::BlockBegin => {
                    method.body = Body::Block {
                        begin: at,
                        end: self.source.partner(at),
                    };
                    break;
                }
                action => self.read_head(&mut method, action, at)?,
            }
        }
        if role == Role::Error {
            method.gives = ValueKind::Word;
        }
        self.add_method(method, begin)
    }

    fn is_overriding(&self, begin: usize) -> bool {
        0 < begin && self.source.action(begin - 1) == Action::Override
    }

    fn read_head(
        &self,
        method: &mut Method<'a>,
        action: Action,
        at: usize,
    ) -> Result<(), Fault<'a>> {
        match action {
            Action::MethodName => method.name = self.source.name(at)?,
            Action::NoLeave => method.says_noleave = true,
            Action::Parameter => {
                let kind = self.program.kind_at(self.source, at.saturating_add(1))?;
                if let ValueKind::Owner { is_maybe: true, .. } = kind {
                    let name = self.source.name(at)?;
                    return Err(self.source.fault(FaultKind::MaybeParameter, at).about(name));
                }
                method.parameters.push(Parameter {
                    name: self.source.name(at)?,
                    kind,
                    item: at,
                    token: self.source.token(at),
                })?;
            }
            Action::Result => method.gives = self
                .program
                .kind_at(self.source, at.saturating_add(1))?,
            _ => {}
        }
        Ok(())
    }

    fn add_method(&mut self, method: Method<'a>, begin: usize) -> Result<(), Fault<'a>> {
        let id = MethodId(self.program.methods.len());
        let (role, name) = (method.role, method.name);
        let is_double = match self.class {
            Some(_) => self.is_double_in_class(role, name)?,
            None => self
                .program
                .methods
                .iter()
                .any(|other| { other.class.is_none() && other.name == name }),
        };
        if is_double {
            return Err(self.source.fault(FaultKind::DoubleName, begin).about(name));
        }
        check_parameters(&method)?;
        if MOST_METHODS <= id.0 {
            return Err(Fault::at(FaultKind::TooManyMethods, method.token).about(name));
        }
        self.program.methods.push(method)?;
        if role == Role::Main {
            self.program.main = Some(id);
        }
        if self.class.is_some() {
            let class = self.this_class()?;
            if role == Role::Function {
                class.methods.push(id)?;
            } else {
                class.roles.push((role, id))?;
            }
        }
        Ok(())
    }

    fn is_double_in_class(&self, role: Role, name: &'a [u8]) -> Result<bool, Fault<'a>> {
        let class = self.program.class(self.class.ok_or(Fault::internal())?)?;
        if role != Role::Function {
            return Ok(class.role(role).is_some());
        }
        for id in &class.methods {
            if self.program.method(*id)?.name == name {
                return Ok(true);
            }
        }
        Ok(false)
    }
}

/// How many parameters a role may have.
fn check_parameters<'a>(method: &Method<'a>) -> Result<(), Fault<'a>> {
    let most = match method.role {
        Role::Error => 1,
        Role::Service => 5,
        _ => 6,
    };
    if most < method.parameters.len() {
        return Err(Fault::at(FaultKind::TooManyParameters, method.token).about(method.name));
    }
    Ok(())
}
