//! Which methods are quiet, and the order in which an image has the methods.
use aom_source_methods::{Summaries, Summary};
use aom_source_program::{ClassId, Fault, FaultKind, MethodId, Program, Role, Thing};

/// The methods that quiet ones call, with all that override them.
pub fn quiet_methods<'a>(
    program: &Program<'a>,
    summaries: &Summaries<'a>,
) -> Result<Vec<bool>, Fault<'a>> {
    let mut quiet: Vec<bool> = Vec::new(program.alloc);
    let mut waiting: Vec<MethodId> = Vec::new(program.alloc);
    for at in 0..program.methods.len() {
        quiet.push(false)?;
        if program.methods[at].role.is_quiet() {
            waiting.push(MethodId(at))?;
        }
    }
    for _ in 0..program.methods.len().saturating_mul(2) {
        let Some(next) = waiting.pop() else {
            return Ok(quiet);
        };
        let Some(Some(summary)) = summaries.get(next.0) else {
            continue;
        };
        for called in &summary.calls {
            for method in &program.family(*called)? {
                if method.0 < quiet.len() && !quiet[method.0] {
                    quiet[method.0] = true;
                    waiting.push(*method)?;
                }
            }
        }
    }
    Ok(quiet)
}

/// A method that waits for those that stand before it.
#[derive(Drop)]
struct Waiting {
    method: MethodId,
    before: Vec<MethodId>,
    done: usize,
}

/// The order of methods, on the way.
#[derive(Drop)]
struct Ordering<'s, 'a> {
    program: &'s Program<'a>,
    summaries: &'s Summaries<'a>,
    /// New, open, done.
    marks: Vec<u8>,
    order: Vec<MethodId>,
}

/// The order in which an image has the methods: cancel methods and destructors first, main last, and each behind what it calls or may delete.
pub fn order_methods<'s, 'a>(
    program: &'s Program<'a>,
    summaries: &'s Summaries<'a>,
) -> Result<Vec<MethodId>, Fault<'a>> {
    let mut ordering = Ordering {
        program,
        summaries,
        marks: Vec::new(program.alloc),
        order: Vec::new(program.alloc),
    };
    for _ in 0..program.methods.len() {
        ordering.marks.push(0)?;
    }
    for class in &program.class_order {
        for role in [Role::Cancel, Role::Destruct] {
            if let Some(method) = program.class(*class)?.role(role) {
                ordering.visit(method)?;
            }
        }
    }
    for method in &listed_methods(program)? {
        ordering.visit(*method)?;
    }
    ordering.visit(program.main.ok_or(Fault::internal())?)?;
    let Ordering { order, .. } = ordering;
    Ok(order)
}

/// The methods of all classes in their order, then those of no class. Main is not among them.
pub fn listed_methods<'a>(program: &Program<'a>) -> Result<Vec<MethodId>, Fault<'a>> {
    let mut listed: Vec<MethodId> = Vec::new(program.alloc);
    for class in &program.class_order {
        for entry in &program.class(*class)?.roles {
            listed.push(entry.1)?;
        }
        for method in &program.class(*class)?.methods {
            listed.push(*method)?;
        }
    }
    for at in 0..program.declared.min(program.methods.len()) {
        let method = &program.methods[at];
        if method.class.is_none() && method.role != Role::Main {
            listed.push(MethodId(at))?;
        }
    }
    Ok(listed)
}

impl<'s, 'a> Ordering<'s, 'a> {
    fn visit(&mut self, method: MethodId) -> Result<(), Fault<'a>> {
        let mut waiting: Vec<Waiting> = Vec::new(self.program.alloc);
        self.enter(method, &mut waiting)?;
        for _ in 0..self
            .program
            .methods
            .len()
            .saturating_mul(self.program.methods.len())
            .saturating_add(64)
            .saturating_mul(2)
        {
            let Some(last) = waiting.pop() else {
                return Ok(());
            };
            let Waiting {
                method,
                before,
                done,
            } = last;
            match before.get(done).copied() {
                Some(next) => {
                    waiting.push(Waiting {
                        method,
                        before,
                        done: done.saturating_add(1),
                    })?;
                    self.enter(next, &mut waiting)?;
                }
                None => {
                    if method.0 < self.marks.len() {
                        self.marks[method.0] = 2;
                    }
                    self.order.push(method)?;
                }
            }
        }
        Err(Fault::internal())
    }

    fn enter(&mut self, method: MethodId, waiting: &mut Vec<Waiting>) -> Result<(), Fault<'a>> {
        if self.marks.len() <= method.0 || self.marks[method.0] == 2 {
            return Ok(());
        }
        if self.marks[method.0] == 1 {
            return Err(self.goes_round(method)?);
        }
        self.marks[method.0] = 1;
        waiting.push(Waiting {
            method,
            before: self.before(method)?,
            done: 0,
        })?;
        Ok(())
    }

    /// The fault of a method that would stand before itself; a destructor does so where its class owns its like.
    fn goes_round(&self, method: MethodId) -> Result<Fault<'a>, Fault<'a>> {
        let found = self.program.method(method)?;
        if let (Role::Destruct, Some(class)) = (found.role, found.class) {
            let class = self.program.class(class)?;
            return Ok(Fault::at(FaultKind::ClassCycle, class.token).about(class.name));
        }
        Ok(Fault::at(FaultKind::Recursion, found.token).about(found.name))
    }

    /// What stands before a method.
    fn before(&self, id: MethodId) -> Result<Vec<MethodId>, Fault<'a>> {
        let mut before: Vec<MethodId> = Vec::new(self.program.alloc);
        let Some(Some(summary)) = self.summaries.get(id.0) else {
            return Ok(before);
        };
        for called in &summary.calls {
            for method in &self.program.family(*called)? {
                before.push(*method)?;
            }
        }
        self.add_destructors(id, summary, &mut before)?;
        if summary.cancels {
            self.add_cancels(id, &mut before)?;
        }
        Ok(before)
    }

    fn add_cancels(&self, id: MethodId, before: &mut Vec<MethodId>) -> Result<(), Fault<'a>> {
        let class = self.program.method(id)?.class.ok_or(Fault::internal())?;
        for other in &self.program.class_order {
            if self.program.descends(*other, class) {
                if let Some(cancel) = self.program.role(*other, Role::Cancel) {
                    before.push(cancel)?;
                }
            }
        }
        Ok(())
    }

    /// The destructors of what a method may delete, by their names in the text.
    fn add_destructors(
        &self,
        id: MethodId,
        summary: &Summary<'a>,
        before: &mut Vec<MethodId>,
    ) -> Result<(), Fault<'a>> {
        let mut found: Vec<MethodId> = Vec::new(self.program.alloc);
        for class in &self.mentioned(id, summary)? {
            self.add_destructors_of(*class, id, &mut found)?;
        }
        for _ in 0..found.len() {
            match self.least(&found)? {
                Some(at) if at < found.len() => before.push(found.remove(at))?,
                _ => return Err(Fault::internal()),
            }
        }
        Ok(())
    }

    /// The method that comes first by its name in the text.
    fn least(&self, found: &Vec<MethodId>) -> Result<Option<usize>, Fault<'a>> {
        let mut least: Option<usize> = None;
        for at in 0..found.len() {
            let is_less = match least {
                None => true,
                Some(other) if other < found.len() => is_below(
                    &self.program.method(found[at])?.label,
                    &self.program.method(found[other])?.label,
                ),
                Some(_) => false,
            };
            if is_less {
                least = Some(at);
            }
        }
        Ok(least)
    }

    /// The classes whose objects a method may delete, by their declared classes.
    fn mentioned(&self, id: MethodId, summary: &Summary<'a>) -> Result<Vec<ClassId>, Fault<'a>> {
        let program = self.program;
        let method = program.method(id)?;
        let mut classes: Vec<ClassId> = Vec::new(program.alloc);
        for class in &summary.mentions {
            classes.push(*class)?;
        }
        if let Some(class) = method.class {
            for field in &program.class(class)?.fields {
                if let Thing::Object(class) = field.thing {
                    classes.push(class)?;
                }
            }
        }
        if method.role == Role::Main {
            if let Some(root) = program.root {
                classes.push(root)?;
            }
        }
        if let Some(class) = method.gives.class() {
            classes.push(class)?;
        }
        Ok(classes)
    }

    /// The destructors of all classes that descend from one, and of their sessions.
    fn add_destructors_of(
        &self,
        class: ClassId,
        id: MethodId,
        found: &mut Vec<MethodId>,
    ) -> Result<(), Fault<'a>> {
        let program = self.program;
        for other in &program.class_order {
            if !program.descends(*other, class) {
                continue;
            }
            self.add_line(*other, id, found)?;
            if let Some(session) = program.class(*other)?.session {
                self.add_line(session, id, found)?;
            }
        }
        Ok(())
    }

    fn add_line(
        &self,
        class: ClassId,
        id: MethodId,
        found: &mut Vec<MethodId>,
    ) -> Result<(), Fault<'a>> {
        let mut next = Some(class);
        for _ in 0..=self.program.classes.len() {
            let Some(at) = next else {
                return Ok(());
            };
            if let Some(method) = self.program.class(at)?.role(Role::Destruct) {
                if method == id {
                    return Err(self.goes_round(id)?);
                }
                if !found.contains(&method) {
                    found.push(method)?;
                }
            }
            next = self.program.parent(at);
        }
        Ok(())
    }
}

fn is_below(one: &Vec<u8>, other: &Vec<u8>) -> bool {
    for at in 0..one.len().min(other.len()) {
        if one[at] != other[at] {
            return one[at] < other[at];
        }
    }
    one.len() < other.len()
}
