//! All methods: what one calls is translated before it.
//!
//! What is to be translated waits on a stack. A method that waits already is called by one that it waits for: no method may come to itself.
use aom_source_code::Code;
use aom_source_methods::{
    Helpers, Outcome, Summaries, Summary, Translated, first_states, translate_method,
};
use aom_source_program::{Fault, FaultKind, MethodId, Program, Role, Source};
use aom_source_states::RequestStates;

/// The most instructions of a method.
const MOST_INSTRUCTIONS: usize = 1024;

/// How far a method is.
#[derive(Clone, Copy, PartialEq, Eq, Debug)]
enum Mark {
    New,
    Open,
    Done,
    /// It is refused, or one that it calls is.
    Failed,
}

/// The methods of a program, on the way.
#[derive(Drop)]
pub struct Driving<'s, 't, 'a> {
    source: &'s Source<'t, 'a>,
    program: &'s Program<'a>,
    helpers: &'s Helpers,
    pub summaries: Summaries<'a>,
    pub codes: Vec<Option<Code<'a>>>,
    marks: Vec<Mark>,
    /// The first fault of each method.
    pub faults: Vec<Fault<'a>>,
}

impl<'s, 't, 'a> Driving<'s, 't, 'a> {
    /// No method is translated yet.
    pub fn new(
        source: &'s Source<'t, 'a>,
        program: &'s Program<'a>,
        helpers: &'s Helpers,
    ) -> Result<Driving<'s, 't, 'a>, Fault<'a>> {
        let alloc = program.alloc;
        let mut driving = Driving {
            source,
            program,
            helpers,
            summaries: Vec::new(alloc),
            codes: Vec::new(alloc),
            marks: Vec::new(alloc),
            faults: Vec::new(alloc),
        };
        for _ in 0..program.methods.len() {
            driving.summaries.push(None)?;
            driving.codes.push(None)?;
            driving.marks.push(Mark::New)?;
        }
        Ok(driving)
    }

    fn mark(&self, method: MethodId) -> Mark {
        match self.marks.get(method.0) {
            Some(mark) => *mark,
            None => Mark::Failed,
        }
    }

    fn set_mark(&mut self, method: MethodId, mark: Mark) {
        if method.0 < self.marks.len() {
            self.marks[method.0] = mark;
        }
    }

    /// Translates a method, and before it what it calls.
    pub fn visit(&mut self, method: MethodId) -> Result<(), Fault<'a>> {
        let mut waiting: Vec<MethodId> = Vec::new(self.program.alloc);
        if self.mark(method) == Mark::New {
            waiting.push(method)?;
        }
        // each method waits once, and is looked at once more when all that it needs is there
        for _ in 0..self
            .program
            .methods
            .len()
            .saturating_mul(4)
            .saturating_add(4)
        {
            let Some(next) = waiting.pop() else {
                return Ok(());
            };
            if self.mark(next) == Mark::Done || self.mark(next) == Mark::Failed {
                continue;
            }
            self.set_mark(next, Mark::Open);
            self.attempt(next, &mut waiting)?;
        }
        Err(Fault::internal())
    }

    fn attempt(&mut self, method: MethodId, waiting: &mut Vec<MethodId>) -> Result<(), Fault<'a>> {
        let program = self.program;
        let overriders = &program.method(method)?.overriders;
        if self.wants_first(method, overriders, waiting)? {
            return Ok(());
        }
        match self.translate(method) {
            Ok(Outcome::Needs(needs)) => {
                let _ = self.wants_first(method, &needs, waiting)?;
                Ok(())
            }
            Ok(Outcome::Done(translated)) => self.keep(method, translated),
            Err(fault) => self.fail(method, fault),
        }
    }

    /// Whether some methods have to come first. Then they wait above this one.
    fn wants_first(
        &mut self,
        method: MethodId,
        needed: &Vec<MethodId>,
        waiting: &mut Vec<MethodId>,
    ) -> Result<bool, Fault<'a>> {
        let mut wants = false;
        for next in needed {
            match self.mark(*next) {
                Mark::Done => {}
                Mark::Failed => {
                    // what is wrong there is told there
                    self.set_mark(method, Mark::Failed);
                    return Ok(true);
                }
                Mark::Open => {
                    let found = self.program.method(*next)?;
                    let fault = Fault::at(FaultKind::Recursion, found.token).about(found.name);
                    self.fail(method, fault)?;
                    return Ok(true);
                }
                Mark::New => wants = true,
            }
        }
        if wants {
            waiting.push(method)?;
            for next in needed {
                if self.mark(*next) == Mark::New {
                    waiting.push(*next)?;
                }
            }
        }
        Ok(wants)
    }

    fn fail(&mut self, method: MethodId, fault: Fault<'a>) -> Result<(), Fault<'a>> {
        if fault.kind == FaultKind::OutOfMemory {
            return Err(fault);
        }
        self.set_mark(method, Mark::Failed);
        self.faults.push(fault)?;
        Ok(())
    }

    /// Translates a method that begins in each state; where a request is in the way of that, in those states in which it may begin.
    fn translate(&self, method: MethodId) -> Result<Outcome<'a>, Fault<'a>> {
        let begin = first_states(self.program, method)?;
        let fault = match self.translate_from(method, begin) {
            Ok(outcome) => return Ok(outcome),
            Err(fault) => fault,
        };
        let is_called = self.program.method(method)?.role == Role::Function;
        if !is_called || !fault.kind.is_of_states() || begin.is_none() {
            return Err(fault);
        }
        let mut good = RequestStates::NONE;
        for (_, state) in RequestStates::LETTERS {
            if state.is_within(begin) && self.may_begin(method, state)? {
                good = good.or(state);
            }
        }
        if good.is_none() {
            return Err(fault);
        }
        self.translate_from(method, good)
    }

    fn may_begin(&self, method: MethodId, state: RequestStates) -> Result<bool, Fault<'a>> {
        match self.translate_from(method, state) {
            Ok(_) => Ok(true),
            Err(fault) if fault.kind.is_of_states() => Ok(false),
            Err(fault) => Err(fault),
        }
    }

    fn translate_from(
        &self,
        method: MethodId,
        begin: RequestStates,
    ) -> Result<Outcome<'a>, Fault<'a>> {
        translate_method(
            &*self.source,
            &*self.program,
            &self.summaries,
            &*self.helpers,
            method,
            begin,
        )
    }

    /// Keeps a method. What its overriders may do it may do.
    fn keep(&mut self, method: MethodId, translated: Translated<'a>) -> Result<(), Fault<'a>> {
        let Translated { code, mut summary } = translated;
        let program = self.program;
        if MOST_INSTRUCTIONS < code.lines.len() {
            let found = program.method(method)?;
            let fault = Fault::at(FaultKind::MethodTooLong, found.token).about(found.name);
            return self.fail(method, fault);
        }
        for overrider in &program.method(method)?.overriders {
            let Some(Some(other)) = self.summaries.get(overrider.0) else {
                return Err(Fault::internal());
            };
            if !summary.begin.is_within(other.begin) {
                let found = program.method(*overrider)?;
                let fault = Fault::at(FaultKind::WrongState, found.token).about(found.name);
                return self.fail(method, fault);
            }
            widen(&mut summary, other);
        }
        if method.0 < self.summaries.len() && method.0 < self.codes.len() {
            self.summaries[method.0] = Some(summary);
            self.codes[method.0] = Some(code);
        }
        self.set_mark(method, Mark::Done);
        Ok(())
    }
}

fn widen<'a>(summary: &mut Summary<'a>, other: &Summary<'a>) {
    summary.leaves = summary.leaves || other.leaves;
    if summary.noise.is_none() {
        summary.noise = other.noise;
    }
    summary.end = summary.end.or(other.end);
}
