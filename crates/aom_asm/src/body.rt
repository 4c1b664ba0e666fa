//! A method whose code is being read.
ghost use Rattle.std.specs.Prelude.{◌≡◌, ◌<◌, [], ◌∷◌, ◌++◌, length};
ghost use Rattle.aom_syntax.specs.Reading.{ReadsOrNoMemory};
ghost use Rattle.aom_asm.specs.Denoted.{with_instruction, method_of};

use aom_image::{Instr, Items, Method, Target, Version};
use aom_syntax::{Heading, NameList, Scope, WordReader};
use aom_text::AsmFaultKind;
use std::alloc::Global;
use std::marker::Model;

/// A method's heading, the labels of its code, and the code so far.
#[derive(Drop)]
pub struct Body<'a> {
    heading: Heading,
    labels: NameList<'a>,
    code: Vec<Instr>,
}

impl<'a> Model for Body<'a> {
    ghost use Rattle.aom_asm.specs.Body.{Body as BodyRecord};

    ghost Value = { BodyRecord };

    ghost view = { λ b. record { heading = b.heading; labels = b.labels; code = b.code.items } };
}

impl<'a> Body<'a> {
    pub fn open(alloc: Global, heading: Heading, labels: NameList<'a>) -> Body<'a>
        ensures { result ≡ record { heading = heading; labels = labels.entry; code = [] } }
    {
        let _reported: Option<Target> = None;
        Body {
            heading,
            labels,
            code: Vec::new(alloc),
        }
    }

    /// Adds the instruction of a statement.
    pub fn add(
        &mut self,
        scope: &Scope,
        version: Version,
        mut reader: WordReader,
    ) -> Result<(), AsmFaultKind>
        ensures { ReadsOrNoMemory (λ _. self.new) result (with_instruction scope.now version self.old reader.entry) }
    {
        let _reported: Option<Target> = None;
        let place = self.code.len();
        if place >= 1024 {
            return Err(AsmFaultKind::LimitPassed);
        }
        let instr = reader.instruction(scope, version, &self.labels, place)?;
        self.code.push(instr)?;
        Ok(())
    }

    /// The method, at its `end`.
    pub fn close(self) -> Result<Method, AsmFaultKind>
        ensures { result ≡ method_of self.entry }
    {
        let _reported: Option<Target> = None;
        if self.code.is_empty() {
            drop(self);
            return Err(AsmFaultKind::LimitPassed);
        }
        let heading = self.heading;
        Ok(Method {
            class: heading.class,
            over: heading.over,
            role: heading.role,
            flags: heading.flags,
            before: heading.before,
            after: heading.after,
            arguments: heading.arguments,
            gives: heading.gives,
            code: Items::from_vec(self.code),
        })
    }
}
