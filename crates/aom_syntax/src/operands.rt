//! The operands of instructions.
ghost use Rattle.std.specs.Prelude.{◌≡◌, ◌≤◌, ◌<◌, IfOk};
ghost use Rattle.aom_text.specs.Numbers.{number_of};
ghost use Rattle.aom_syntax.specs.Reading.{Reads};
ghost use Rattle.aom_syntax.specs.Operands.{indexed, index_of, register, last_register, field, word_field, target_of, target, signed, depth, rounds, class, method, label, used};

use crate::{NameList, Scope, WordReader};
use aom_image::{
    ClassNumber, EntryDepth, FieldIndex, InstrPlace, LoopDepth, MethodNumber, Register, Target,
    WordIndex,
};
use aom_text::{AsmFaultKind, Number};

/// The highest register, and the highest after which one more is written.
pub const LAST_REGISTER: u8 = 15;

pub const LAST_RESULT: u8 = 14;

/// The number behind a letter, up to a highest.
fn indexed(word: &[u8], letter: u8, highest: u8) -> Result<u8, AsmFaultKind>
    ensures read { result ≡ indexed letter highest word.now }
    ensures within { IfOk result (λ n. n ≤ highest) }
{
    match word {
        [first, digits @ ..] if *first == letter => index_of(digits, highest),
        _ => Err(AsmFaultKind::BadShape),
    }
}

fn index_of(digits: &[u8], highest: u8) -> Result<u8, AsmFaultKind>
    ensures read { result ≡ index_of highest (number_of digits.now) }
    ensures within { IfOk result (λ n. n ≤ highest) }
{
    match Number::of(digits) {
        Some(number) if !number.is_negative => match number.within(0, u32::from(highest)) {
            Some(index) => Ok(index as u8),
            None => Err(AsmFaultKind::LimitPassed),
        },
        _ => Err(AsmFaultKind::BadShape),
    }
}

fn register_of(word: &[u8], highest: u8) -> Result<Register, AsmFaultKind>
    requires { highest ≤ 15 }
    ensures { result ≡ indexed 114 highest word.now }
{
    Register::new(indexed(word, b'r', highest)?).ok_or(AsmFaultKind::LimitPassed)
}

fn field_of(word: &[u8]) -> Result<FieldIndex, AsmFaultKind>
    ensures { result ≡ indexed 102 7 word.now }
{
    FieldIndex::new(indexed(word, b'f', 7)?).ok_or(AsmFaultKind::LimitPassed)
}

fn entry_of(word: &[u8]) -> Result<EntryDepth, AsmFaultKind>
    ensures { result ≡ indexed 99 15 word.now }
{
    EntryDepth::new(indexed(word, b'c', 15)?).ok_or(AsmFaultKind::LimitPassed)
}

fn target_of(word: &[u8]) -> Result<Target, AsmFaultKind>
    ensures { result ≡ target_of word.now }
{
    match word {
        [] => Err(AsmFaultKind::BadShape),
        _ if word == b"self".as_slice() => Ok(Target::This),
        [b'r', ..] => Ok(Target::Register(register_of(word, LAST_REGISTER)?)),
        [b'f', ..] => Ok(Target::Field(field_of(word)?)),
        _ => Ok(Target::Entry(entry_of(word)?)),
    }
}

impl<'a> WordReader<'a> {
    pub fn register(&mut self, highest: u8) -> Result<Register, AsmFaultKind>
        requires { highest ≤ 15 }
        ensures { Reads (λ x. (x, self.new)) result (register highest self.old) }
    {
        register_of(self.word()?, highest)
    }

    /// A register that is r0 where no word is left.
    pub fn last_register(&mut self, highest: u8) -> Result<Register, AsmFaultKind>
        requires { highest ≤ 15 }
        ensures { Reads (λ x. (x, self.new)) result (last_register highest self.old) }
    {
        if !self.is_empty() {
            return self.register(highest);
        }
        Register::new(0).ok_or(AsmFaultKind::LimitPassed)
    }

    pub fn field(&mut self) -> Result<FieldIndex, AsmFaultKind>
        ensures { Reads (λ x. (x, self.new)) result (field self.old) }
    {
        field_of(self.word()?)
    }

    pub fn word_field(&mut self) -> Result<WordIndex, AsmFaultKind>
        ensures { Reads (λ x. (x, self.new)) result (word_field self.old) }
    {
        WordIndex::new(indexed(self.word()?, b'w', 7)?).ok_or(AsmFaultKind::LimitPassed)
    }

    pub fn target(&mut self) -> Result<Target, AsmFaultKind>
        ensures { Reads (λ x. (x, self.new)) result (target self.old) }
    {
        target_of(self.word()?)
    }

    pub fn signed(&mut self) -> Result<i32, AsmFaultKind>
        ensures { Reads (λ x. (x, self.new)) result (signed self.old) }
    {
        match Number::of(self.word()?) {
            Some(number) => number.signed().ok_or(AsmFaultKind::LimitPassed),
            None => Err(AsmFaultKind::BadNumber),
        }
    }

    pub fn depth(&mut self) -> Result<LoopDepth, AsmFaultKind>
        ensures { Reads (λ x. (x, self.new)) result (depth self.old) }
    {
        LoopDepth::new(self.number(0, 3)? as u8).ok_or(AsmFaultKind::LimitPassed)
    }

    pub fn rounds(&mut self) -> Result<u16, AsmFaultKind>
        ensures { Reads (λ x. (x, self.new)) result (rounds self.old) }
    {
        Ok(self.number(1, 65535)? as u16)
    }

    /// The number of a name that is used, of a list.
    fn used(&mut self, is_strict: bool, names: &NameList, limit: u16) -> Result<u16, AsmFaultKind>
        requires { 0 < limit }
        ensures read { Reads (λ x. (x, self.new)) result (used is_strict limit names.now self.old) }
        ensures within { IfOk result (λ n. n < limit) }
    {
        let name = self.name()?;
        names.number_of(name, is_strict, limit)
    }

    pub fn class(&mut self, scope: &Scope) -> Result<ClassNumber, AsmFaultKind>
        ensures { Reads (λ x. (x, self.new)) result (class scope.now self.old) }
    {
        ClassNumber::new(self.used(scope.is_strict, &scope.classes, 256)?).ok_or(
            AsmFaultKind::LimitPassed,
        )
    }

    pub fn method(&mut self, scope: &Scope) -> Result<MethodNumber, AsmFaultKind>
        ensures { Reads (λ x. (x, self.new)) result (method scope.now self.old) }
    {
        MethodNumber::new(self.used(scope.is_strict, &scope.methods, 1024)?).ok_or(
            AsmFaultKind::LimitPassed,
        )
    }

    pub fn label(&mut self, scope: &Scope, labels: &NameList) -> Result<InstrPlace, AsmFaultKind>
        ensures { Reads (λ x. (x, self.new)) result (label scope.now labels.now self.old) }
    {
        InstrPlace::new(self.used(scope.is_strict, labels, 1024)?).ok_or(AsmFaultKind::LimitPassed)
    }
}
