//! The methods that a class is to have: those that are missing are added, or refused by name.
use crate::class::{ClassId, ClassKind};
use crate::fault::{Fault, FaultKind};
use crate::method::{Body, Method, MethodId, Role, Thing, ValueKind};
use crate::program::Program;

/// Adds destructors, cancel methods and accept methods, and tells what is missing.
pub fn add_roles<'a>(program: &mut Program<'a>) -> Result<(), Fault<'a>> {
    for at in 0..program.class_order.len() {
        let class = program.ordered(at)?;
        add_destructor(program, class)?;
        add_cancel(program, class)?;
        add_accept(program, class)?;
        check_roles(program, class)?;
    }
    if program.main.is_none() {
        return Err(Fault::at(FaultKind::NoMain, 0));
    }
    Ok(())
}

fn has(program: &Program<'_>, class: ClassId, role: Role) -> bool {
    match program.classes.get(class.0) {
        Some(class) => class.role(role).is_some(),
        None => false,
    }
}

fn add_destructor<'a>(program: &mut Program<'a>, id: ClassId) -> Result<(), Fault<'a>> {
    let class = program.class(id)?;
    let owns = class.inherited < class.fields.len();
    let wants = owns || class.kind.is_active() && class.parent.is_none();
    if wants && !has(program, id, Role::Destruct) {
        add_method(
            program,
            id,
            Role::Destruct,
            ValueKind::Nothing,
            Body::Destroys,
        )?;
    }
    Ok(())
}

fn add_cancel<'a>(program: &mut Program<'a>, id: ClassId) -> Result<(), Fault<'a>> {
    let class = program.class(id)?;
    if !class.kind.is_active() {
        return Ok(());
    }
    if program.role(id, Role::Run).is_none() {
        return Err(Fault::at(FaultKind::MissingRun, class.token).about(class.name));
    }
    if class.parent.is_none() && !has(program, id, Role::Cancel) {
        add_method(program, id, Role::Cancel, ValueKind::Nothing, Body::Empty)?;
    }
    Ok(())
}

fn add_accept<'a>(program: &mut Program<'a>, id: ClassId) -> Result<(), Fault<'a>> {
    let class = program.class(id)?;
    if class.kind == ClassKind::Session && !has(program, id, Role::Service) {
        return Err(Fault::at(FaultKind::MissingService, class.token).about(class.name));
    }
    let Some(session) = class.session else {
        return Ok(());
    };
    let gives = ValueKind::Owner {
        thing: Thing::Object(session),
        is_maybe: false,
    };
    match class.role(Role::Accept) {
        Some(accept) => program.method_mut(accept)?.gives = gives,
        None => {
            add_method(program, id, Role::Accept, gives, Body::Accepts(session))?;
        }
    }
    Ok(())
}

fn check_roles<'a>(program: &Program<'a>, id: ClassId) -> Result<(), Fault<'a>> {
    let class = program.class(id)?;
    for entry in &class.roles {
        let is_there = match entry.0 {
            Role::Construct | Role::Destruct => true,
            Role::Run | Role::Cancel | Role::Error => class.kind.is_active(),
            Role::Accept => class.kind == ClassKind::Server,
            Role::Service => class.kind == ClassKind::Session,
            Role::Function | Role::Undo | Role::Main => false,
        };
        if !is_there {
            let method = program.method(entry.1)?;
            return Err(
                Fault::at(FaultKind::WrongRole, method.token)
                    .about(method.name)
                    .beside(class.name),
            );
        }
    }
    Ok(())
}

/// A method of a class that the source does not have. It stands where the class does.
fn add_method<'a>(
    program: &mut Program<'a>,
    id: ClassId,
    role: Role,
    gives: ValueKind,
    body: Body,
) -> Result<MethodId, Fault<'a>> {
    let token = program.class(id)?.token;
    let added = program.add(role.word().as_bytes(), token, role, Some(id), gives, body)?;
    program.class_mut(id)?.roles.push((role, added))?;
    Ok(added)
}

impl<'a> Program<'a> {
    /// A method that the source does not have.
    pub fn add(
        &mut self,
        name: &'a [u8],
        token: u32,
        role: Role,
        class: Option<ClassId>,
        gives: ValueKind,
        body: Body,
    ) -> Result<MethodId, Fault<'a>> {
        let id = MethodId(self.methods.len());
        let method = Method {
            name,
            token,
            end_token: token,
            role,
            class,
            parameters: Vec::new(self.alloc),
            gives,
            body,
            says_override: false,
            says_noleave: false,
            over: None,
            overriders: Vec::new(self.alloc),
            label: Vec::new(self.alloc),
        };
        self.methods.push(method)?;
        Ok(id)
    }
}
