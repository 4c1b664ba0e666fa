//! Lists in one word, with a comma between each two elements.
ghost use Rattle.std.specs.Prelude.{ℕ, ◌≡◌, List, Result};
ghost use Rattle.aom_text.specs.declared.fault.AsmFaultKind.{AsmFaultKind as Kind};
ghost use Rattle.aom_syntax.specs.Classes.{listed, thing_of};
ghost use Rattle.aom_syntax.specs.Methods.{argument_of};
ghost use Rattle.aom_syntax.specs.Reading.{ReadsOrNoMemory};
ghost use Rattle.aom_syntax.specs.declared.scope.Scope.{Scope as Reported};

use crate::Scope;
use crate::class::{split_element, thing_of};
use crate::method::argument_of;
use aom_image::{Argument, Thing};
use aom_text::AsmFaultKind;
use std::alloc::Global;

/// What may stand in a list.
pub trait ReadElement: Copy {
    /// What a word says.
    ghost said: { Reported → List ℕ → Result Self Kind };

    fn read(word: &[u8], scope: &Scope) -> Result<Self, AsmFaultKind>
        ensures { result ≡ said scope.now word.now };
}

impl ReadElement for Thing {
    ghost said = { thing_of };

    fn read(word: &[u8], scope: &Scope) -> Result<Thing, AsmFaultKind> {
        thing_of(word, scope)
    }
}

impl ReadElement for Argument {
    ghost said = { argument_of };

    fn read(word: &[u8], scope: &Scope) -> Result<Argument, AsmFaultKind> {
        argument_of(word, scope)
    }
}

/// The elements of a list, at most so many. A minus is the empty list.
pub fn listed<E: ReadElement>(
    alloc: Global,
    word: &[u8],
    scope: &Scope,
    most: usize,
) -> Result<Vec<E>, AsmFaultKind>
    ensures { ReadsOrNoMemory (λ v. v.items) result (listed most (E.said scope.now) word.now) }
{
    if word == b"-".as_slice() {
        return Ok(Vec::new(alloc));
    }
    let mut elements = Vec::new(alloc);
    let mut rest = Some(word);
    while let Some(list) = rest {
        let (first, after) = split_element(list);
        if elements.len() >= most {
            return Err(AsmFaultKind::LimitPassed);
        }
        elements.push(E::read(first, scope)?)?;
        rest = after;
    }
    Ok(elements)
}
