//! The order of classes: what a class owns, its parent and its sessions come before it; else they stand as in the source.
use crate::class::ClassId;
use crate::fault::{Fault, FaultKind};
use crate::method::Thing;
use crate::program::Program;

/// How far a class has been put into order.
#[derive(Clone, Copy, PartialEq, Eq, Debug)]
enum Mark {
    New,
    Open,
    Done,
}

/// A class that waits for what it needs: the first `done` of these are there.
#[derive(Clone, Copy)]
struct Waiting {
    class: ClassId,
    done: usize,
}

/// Puts the classes into order, or names one that cannot come before itself.
pub fn order_classes<'a>(program: &mut Program<'a>) -> Result<(), Fault<'a>> {
    let mut marks: Vec<Mark> = Vec::new(program.alloc);
    let mut steps: usize = 1;
    for class in &program.classes {
        marks.push(Mark::New)?;
        steps = steps.saturating_add(class.fields.len()).saturating_add(4);
    }
    for at in 0..program.classes.len() {
        visit(program, ClassId(at), &mut marks, steps)?;
    }
    Ok(())
}

fn visit<'a>(
    program: &mut Program<'a>,
    class: ClassId,
    marks: &mut Vec<Mark>,
    steps: usize,
) -> Result<(), Fault<'a>> {
    let mut waiting: Vec<Waiting> = Vec::new(program.alloc);
    enter(program, class, marks, &mut waiting)?;
    for _ in 0..steps {
        let Some(last) = waiting.pop() else {
            return Ok(());
        };
        match needed(program, last.class, last.done)? {
            Need::Class(next) => {
                waiting.push(Waiting {
                    class: last.class,
                    done: last.done.saturating_add(1),
                })?;
                enter(program, next, marks, &mut waiting)?;
            }
            Need::Nothing => waiting.push(Waiting {
                class: last.class,
                done: last.done.saturating_add(1),
            })?,
            Need::Over => {
                if last.class.0 < marks.len() {
                    marks[last.class.0] = Mark::Done;
                }
                program.class_order.push(last.class)?;
            }
        }
    }
    Ok(())
}

fn enter<'a>(
    program: &Program<'a>,
    class: ClassId,
    marks: &mut Vec<Mark>,
    waiting: &mut Vec<Waiting>,
) -> Result<(), Fault<'a>> {
    if marks.len() <= class.0 {
        return Err(Fault::internal());
    }
    match marks[class.0] {
        Mark::Done => Ok(()),
        Mark::Open => {
            let found = program.class(class)?;
            Err(Fault::at(FaultKind::ClassCycle, found.token).about(found.name))
        }
        Mark::New => {
            marks[class.0] = Mark::Open;
            waiting.push(Waiting { class, done: 0 })?;
            Ok(())
        }
    }
}

enum Need {
    Class(ClassId),
    Nothing,
    Over,
}

/// What a class needs, by number: what it owns, its parent, its sessions.
fn needed<'a>(program: &Program<'a>, class: ClassId, number: usize) -> Result<Need, Fault<'a>> {
    let class = program.class(class)?;
    let owned = class.fields.len();
    if number < owned {
        return Ok(match class.fields[number].thing {
            Thing::Object(class) => Need::Class(class),
            Thing::Message => Need::Nothing,
        });
    }
    let next = match number - owned {
        0 => class.parent,
        1 => class.session,
        _ => return Ok(Need::Over),
    };
    Ok(match next {
        Some(class) => Need::Class(class),
        None => Need::Nothing,
    })
}
