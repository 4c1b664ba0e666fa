//! What callers know of a method that has been translated.
use aom_source_program::{ClassId, Fault, MethodId, Program};
use aom_source_states::RequestStates;
use std::alloc::{AllocError, Global};

/// Something that a quiet method may not do, and where it stands.
#[derive(Clone, Copy)]
pub struct Noise<'a> {
    pub token: u32,
    pub what: &'a [u8],
}

/// What callers know of a method.
#[derive(Drop)]
pub struct Summary<'a> {
    /// Whether it may leave.
    pub leaves: bool,
    /// The first thing in it that is not quiet.
    pub noise: Option<Noise<'a>>,
    /// How far the request may be as it begins and as it returns.
    pub begin: RequestStates,
    pub end: RequestStates,
    pub calls: Vec<MethodId>,
    /// Classes of which it may delete an object.
    pub mentions: Vec<ClassId>,
    pub cancels: bool,
}

impl<'a> Summary<'a> {
    /// Of a method that does nothing yet.
    pub fn new(alloc: Global, begin: RequestStates) -> Summary<'a> {
        Summary {
            leaves: false,
            noise: None,
            begin,
            end: RequestStates::NONE,
            calls: Vec::new(alloc),
            mentions: Vec::new(alloc),
            cancels: false,
        }
    }

    /// Notes a call.
    pub fn call(&mut self, method: MethodId) -> Result<(), AllocError> {
        if !self.calls.iter().any(|found| *found == method) {
            self.calls.push(method)?;
        }
        Ok(())
    }

    /// Notes a class.
    pub fn mention(&mut self, class: ClassId) -> Result<(), AllocError> {
        if !self.mentions.iter().any(|found| *found == class) {
            self.mentions.push(class)?;
        }
        Ok(())
    }
}

/// The methods that the translator adds for a class: one that gives an object as one of a parent class, and one that makes an object under a trap.
#[derive(Drop)]
pub struct Helpers {
    /// By the number of the class.
    pub wideners: Vec<MethodId>,
    pub makers: Vec<MethodId>,
}

impl Helpers {
    /// What gives an object as one of a class.
    pub fn widener<'a>(&self, class: ClassId) -> Result<MethodId, Fault<'a>> {
        match self.wideners.get(class.0) {
            Some(method) => Ok(*method),
            None => Err(Fault::internal()),
        }
    }

    /// What makes an object of a class.
    pub fn maker<'a>(&self, class: ClassId) -> Result<MethodId, Fault<'a>> {
        match self.makers.get(class.0) {
            Some(method) => Ok(*method),
            None => Err(Fault::internal()),
        }
    }
}

/// What is known of the methods of a program, by their numbers.
pub type Summaries<'a> = Vec<Option<Summary<'a>>>;

/// Adds the helpers of all classes to a program.
pub fn add_helpers<'a>(program: &mut Program<'a>) -> Result<Helpers, Fault<'a>> {
    let mut helpers = Helpers {
        wideners: Vec::new(program.alloc),
        makers: Vec::new(program.alloc),
    };
    for at in 0..program.classes.len() {
        let class = ClassId(at);
        helpers
            .wideners
            .push(crate::making::add_widener(program, class)?)?;
        helpers
            .makers
            .push(crate::making::add_maker(program, class)?)?;
    }
    Ok(helpers)
}
