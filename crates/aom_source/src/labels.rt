//! The names of methods in the assembly text.
use crate::ordering::listed_methods;
use aom_source_listing::numbered_label;
use aom_source_program::{Body, Fault, MethodId, Program};

/// The most bytes of a name.
const MOST: usize = 32;

/// Gives each method a name in the text: the class's and its own, cut short, with a number where two would be one.
pub fn name_methods<'a>(program: &mut Program<'a>) -> Result<(), Fault<'a>> {
    let mut used: usize = 0;
    let mut listed = listed_methods(program)?;
    listed.push(program.main.ok_or(Fault::internal())?)?;
    for id in &listed {
        let label = plain_name(program, *id)?;
        let label = free_name(program, label, used)?;
        program.method_mut(*id)?.label = label;
        used = used.saturating_add(1);
    }
    for at in 0..program.methods.len() {
        let id = MethodId(at);
        if program.method(id)?.label.is_empty() {
            let label = plain_name(program, id)?;
            let label = free_name(program, label, used)?;
            program.method_mut(id)?.label = label;
        }
    }
    Ok(())
}

fn plain_name<'a>(program: &Program<'a>, id: MethodId) -> Result<Vec<u8>, Fault<'a>> {
    let method = program.method(id)?;
    let mut name: Vec<u8> = Vec::new(program.alloc);
    match method.body {
        Body::Widens(_) => name.extend_from_slice(b"as_")?,
        Body::Makes(_) => name.extend_from_slice(b"make_")?,
        _ => {}
    }
    if let Some(class) = method.class {
        name.extend_from_slice(program.class(class)?.name)?;
        name.extend_from_slice(b"_")?;
    }
    name.extend_from_slice(method.name)?;
    name.truncate(MOST);
    Ok(name)
}

fn is_taken(program: &Program<'_>, name: &Vec<u8>) -> bool {
    program
        .methods
        .iter()
        .any(|method| method.label.as_slice() == name.as_slice())
}

fn free_name<'a>(program: &Program<'a>, label: Vec<u8>, used: usize) -> Result<Vec<u8>, Fault<'a>> {
    if !is_taken(program, &label) {
        return Ok(label);
    }
    let mut number = used as u64;
    for _ in 0..=program.methods.len() {
        let numbered = numbered_label(program.alloc, &label, number)?;
        if !is_taken(program, &numbered) {
            return Ok(numbered);
        }
        number = number.saturating_add(1);
    }
    Err(Fault::internal())
}
