//! Parents, orders and overriding: what a program's declarations say of one another.
use crate::class::{Class, ClassId, ClassKind, Field};
use crate::fault::{Fault, FaultKind};
use crate::method::{MethodId, Thing};
use crate::order::order_classes;
use crate::program::Program;
use crate::roles::add_roles;

/// Settles the classes of a program: what each is, has and inherits, their order, what overrides what, and the methods that are added.
pub fn resolve<'a>(program: &mut Program<'a>) -> Result<(), Fault<'a>> {
    for at in 0..program.classes.len() {
        check_session(program, ClassId(at))?;
        check_descent(program, ClassId(at))?;
    }
    for at in 0..program.classes.len() {
        settle_kind(program, ClassId(at))?;
    }
    for at in 0..program.classes.len() {
        check_parent(program, ClassId(at))?;
        check_owned(program, ClassId(at))?;
        check_native(program, ClassId(at))?;
    }
    check_root(program)?;
    order_classes(program)?;
    for at in 0..program.class_order.len() {
        let class = program.ordered(at)?;
        inherit(program, class)?;
        check_names(program, class)?;
    }
    for at in 0..program.class_order.len() {
        let class = program.ordered(at)?;
        override_methods(program, class)?;
    }
    add_roles(program)
}

fn check_session<'a>(program: &Program<'a>, id: ClassId) -> Result<(), Fault<'a>> {
    let class = program.class(id)?;
    if let Some(session) = class.session {
        let session = program.class(session)?;
        if session.kind != ClassKind::Session {
            return Err(Fault::at(FaultKind::WrongKind, class.token).about(session.name));
        }
    }
    if (class.kind == ClassKind::Server) != class.session.is_some() {
        return Err(Fault::at(FaultKind::Syntax, class.token).about(class.name));
    }
    Ok(())
}

/// No class descends from itself.
fn check_descent<'a>(program: &Program<'a>, id: ClassId) -> Result<(), Fault<'a>> {
    let class = program.class(id)?;
    if let Some(parent) = class.parent {
        if program.descends(parent, id) {
            return Err(Fault::at(FaultKind::ClassCycle, class.token).about(class.name));
        }
    }
    Ok(())
}

/// A class that says nothing is what the nearest parent is that says something.
fn settle_kind<'a>(program: &mut Program<'a>, id: ClassId) -> Result<(), Fault<'a>> {
    let mut next = Some(id);
    for _ in 0..=program.classes.len() {
        let Some(at) = next else {
            return Ok(());
        };
        let (kind, number) = (program.class(at)?.kind, program.class(at)?.number);
        if kind != ClassKind::Plain {
            let class = program.class_mut(id)?;
            if class.kind == ClassKind::Plain {
                class.kind = kind;
                class.number = number;
            }
            return Ok(());
        }
        next = program.parent(at);
    }
    Ok(())
}

fn check_parent<'a>(program: &Program<'a>, id: ClassId) -> Result<(), Fault<'a>> {
    let class = program.class(id)?;
    let Some(parent) = class.parent else {
        return Ok(());
    };
    let parent = program.class(parent)?;
    let is_other = class.kind != parent.kind
        || class.kind == ClassKind::Native && class.number != parent.number;
    if is_other || matches!(class.kind, ClassKind::Session | ClassKind::Server) {
        return Err(
            Fault::at(FaultKind::WrongParent, class.token)
                .about(class.name)
                .beside(parent.name),
        );
    }
    Ok(())
}

/// A session is owned by its server alone.
fn check_owned<'a>(program: &Program<'a>, id: ClassId) -> Result<(), Fault<'a>> {
    for field in &program.class(id)?.fields {
        if let Thing::Object(owned) = field.thing {
            if program.class(owned)?.kind == ClassKind::Session {
                return Err(Fault::at(FaultKind::WrongKind, field.token).about(field.name));
            }
        }
    }
    Ok(())
}

/// A native is one of those that the program has.
fn check_native<'a>(program: &Program<'a>, id: ClassId) -> Result<(), Fault<'a>> {
    let class = program.class(id)?;
    if class.kind == ClassKind::Native && program.natives <= class.number {
        return Err(Fault::at(FaultKind::NumberRange, class.token).about(class.name));
    }
    Ok(())
}

/// A session is owned by its server alone, so it is no root.
fn check_root<'a>(program: &Program<'a>) -> Result<(), Fault<'a>> {
    if let Some(root) = program.root {
        let class = program.class(root)?;
        if class.kind == ClassKind::Session {
            return Err(Fault::at(FaultKind::WrongKind, class.token).about(class.name));
        }
    }
    Ok(())
}

/// A class has the words and fields of its parent before its own.
fn inherit<'a>(program: &mut Program<'a>, id: ClassId) -> Result<(), Fault<'a>> {
    let Some(parent) = program.class(id)?.parent else {
        return Ok(());
    };
    let mut words: Vec<&'a [u8]> = Vec::new(program.alloc);
    let mut fields: Vec<Field<'a>> = Vec::new(program.alloc);
    for word in &program.class(parent)?.words {
        words.push(*word)?;
    }
    for field in &program.class(parent)?.fields {
        fields.push(*field)?;
    }
    let class = program.class_mut(id)?;
    class.inherited = fields.len();
    for word in &class.words {
        words.push(*word)?;
    }
    for field in &class.fields {
        fields.push(*field)?;
    }
    class.words = words;
    class.fields = fields;
    Ok(())
}

fn check_names<'a>(program: &Program<'a>, id: ClassId) -> Result<(), Fault<'a>> {
    let class = program.class(id)?;
    if 8 < class.words.len() || 8 < class.fields.len() {
        return Err(Fault::at(FaultKind::TooManyFields, class.token).about(class.name));
    }
    for at in 0..class.words.len() {
        let word = class.words[at];
        if class.word(word) != Some(at) {
            return Err(Fault::at(FaultKind::DoubleName, class.token).about(word));
        }
    }
    for at in 0..class.fields.len() {
        let field = class.fields[at];
        if class.field(field.name) != Some(at) || class.word(field.name).is_some() {
            return Err(Fault::at(FaultKind::DoubleName, field.token).about(field.name));
        }
    }
    Ok(())
}

fn override_methods<'a>(program: &mut Program<'a>, id: ClassId) -> Result<(), Fault<'a>> {
    let parent = program.class(id)?.parent;
    for at in 0..program.class(id)?.methods.len() {
        let Some(method) = method_of(program.class(id)?, at) else {
            return Err(Fault::internal());
        };
        let name = program.method(method)?.name;
        let base = match parent {
            Some(parent) => program.find(parent, name),
            None => None,
        };
        override_method(program, method, base)?;
    }
    Ok(())
}

fn method_of(class: &Class<'_>, at: usize) -> Option<MethodId> {
    class.methods.get(at).copied()
}

fn override_method<'a>(
    program: &mut Program<'a>,
    id: MethodId,
    base: Option<MethodId>,
) -> Result<(), Fault<'a>> {
    let method = program.method(id)?;
    let (name, token, says) = (method.name, method.token, method.says_override);
    let Some(base) = base else {
        if says {
            return Err(Fault::at(FaultKind::OverridesNothing, token).about(name));
        }
        return Ok(());
    };
    if !says {
        return Err(Fault::at(FaultKind::HiddenMethod, token).about(name));
    }
    if !has_signature_of(program, id, base)? {
        return Err(Fault::at(FaultKind::OtherSignature, token).about(name));
    }
    program.method_mut(id)?.over = Some(base);
    program.method_mut(base)?.overriders.push(id)?;
    Ok(())
}

fn has_signature_of<'a>(
    program: &Program<'a>,
    id: MethodId,
    base: MethodId,
) -> Result<bool, Fault<'a>> {
    let (method, base) = (program.method(id)?, program.method(base)?);
    if method.gives != base.gives || method.parameters.len() != base.parameters.len() {
        return Ok(false);
    }
    for at in 0..method.parameters.len() {
        match base.parameters.get(at) {
            Some(parameter) if parameter.kind == method.parameters[at].kind => {}
            _ => return Ok(false),
        }
    }
    Ok(true)
}
