//! Constants and the members of enums, and what an expression of them comes to.
use crate::fault::{Fault, FaultKind};
use crate::source::Source;
use aom_source_syntax::Action;
use std::alloc::Global;
use std::collections::{BTreeMap, BTreeSet};

/// How a constant is named: a member of an enum by the enum's name and its own.
type ConstantName<'a> = (Option<&'a [u8]>, &'a [u8]);

/// The constants of a source, and its enums.
#[derive(Drop)]
pub struct Constants<'a> {
    values: BTreeMap<ConstantName<'a>, i64, Global>,
    enums: BTreeSet<&'a [u8], Global>,
}

/// The least and the greatest number that a word can be written as.
const LEAST: i64 = -2147483648;

const GREATEST: i64 = 4294967295;

impl<'a> Constants<'a> {
    /// None.
    pub fn new(alloc: Global) -> Constants<'a> {
        Constants {
            values: BTreeMap::new(alloc),
            enums: BTreeSet::new(alloc),
        }
    }

    /// The value of a constant.
    pub fn value(&self, name: &'a [u8]) -> Option<i64> {
        self.values.get(&(None, name)).copied()
    }

    /// The value of a member of an enum.
    pub fn member(&self, of_enum: &'a [u8], name: &'a [u8]) -> Option<i64> {
        self.values.get(&(Some(of_enum), name)).copied()
    }

    /// Whether it is an enum's name.
    pub fn is_enum(&self, name: &'a [u8]) -> bool {
        self.enums.contains(&name)
    }

    /// Reads all constants and enums of a source.
    pub fn read(alloc: Global, source: &Source<'_, 'a>) -> Result<Constants<'a>, Fault<'a>> {
        let mut constants = Constants::new(alloc);
        for at in 0..source.items.len() {
            match source.action(at) {
                Action::ConstBegin => constants.read_constant(alloc, source, at)?,
                Action::EnumBegin => constants.read_enum(alloc, source, at)?,
                _ => {}
            }
        }
        Ok(constants)
    }

    fn read_constant(
        &mut self,
        alloc: Global,
        source: &Source<'_, 'a>,
        at: usize,
    ) -> Result<(), Fault<'a>> {
        let named = at.saturating_add(1);
        let name = source.name(named)?;
        if self.value(name).is_some() {
            return Err(source.fault(FaultKind::DoubleName, named).about(name));
        }
        let value = self.constant(alloc, source, at.saturating_add(2))?;
        self.values.insert((None, name), value)?;
        Ok(())
    }

    /// Each member is one more than the one before, unless it says its number.
    fn read_enum(
        &mut self,
        alloc: Global,
        source: &Source<'_, 'a>,
        at: usize,
    ) -> Result<(), Fault<'a>> {
        let named = at.saturating_add(1);
        let of_enum = source.name(named)?;
        if self.is_enum(of_enum) {
            return Err(source.fault(FaultKind::DoubleName, named).about(of_enum));
        }
        self.enums.insert(of_enum)?;
        let mut next: i64 = 0;
        for member in at..source.partner(at) {
            if source.action(member) != Action::EnumMember {
                continue;
            }
            let name = source.name(member)?;
            if self.member(of_enum, name).is_some() {
                return Err(source.fault(FaultKind::DoubleName, member).about(name));
            }
            let value = member.saturating_add(1);
            if source.action(value) == Action::ConstantBegin {
                next = self.constant(alloc, source, value)?;
            }
            in_range(source, member, next)?;
            self.values.insert((Some(of_enum), name), next)?;
            next = next.saturating_add(1);
        }
        Ok(())
    }

    /// What the constant whose items begin there comes to.
    pub fn constant(
        &self,
        alloc: Global,
        source: &Source<'_, 'a>,
        begin: usize,
    ) -> Result<i64, Fault<'a>> {
        self.evaluate(
            alloc,
            source,
            begin.saturating_add(1),
            source.partner(begin),
        )
    }

    /// What the items of an expression come to, or that it is no number.
    pub fn evaluate(
        &self,
        alloc: Global,
        source: &Source<'_, 'a>,
        begin: usize,
        end: usize,
    ) -> Result<i64, Fault<'a>> {
        let mut stack: Vec<i64> = Vec::new(alloc);
        for at in begin..end {
            match self.leaf(source, at)? {
                Some(value) => stack.push(value)?,
                None => {
                    if is_inner(source.action(at)) {
                        continue;
                    }
                    let right = stack
                        .pop()
                        .ok_or(source.fault(FaultKind::NumberWanted, at))?;
                    let left = stack
                        .pop()
                        .ok_or(source.fault(FaultKind::NumberWanted, at))?;
                    let value = applied(source.action(at), left, right).ok_or(source.fault(
                        FaultKind::NumberWanted,
                        at,
                    ))?;
                    stack.push(value)?;
                }
            }
        }
        let value = stack
            .pop()
            .ok_or(source.fault(FaultKind::NumberWanted, begin))?;
        in_range(source, begin, value)?;
        Ok(value)
    }

    fn leaf(&self, source: &Source<'_, 'a>, at: usize) -> Result<Option<i64>, Fault<'a>> {
        match source.action(at) {
            Action::Zero => Ok(Some(0)),
            Action::Number => Ok(Some(source.number(at)? as i64)),
            Action::NegativeNumber => Ok(Some(-(source.number(at)? as i64))),
            Action::Name => {
                let name = source.name(at)?;
                match self.value(name) {
                    Some(value) => Ok(Some(value)),
                    None => Err(source.fault(FaultKind::NumberWanted, at).about(name)),
                }
            }
            Action::DottedEnd => {
                let begin = source.partner(at);
                let of_enum = source.name(begin.saturating_add(1))?;
                let name = source.name(begin.saturating_add(2))?;
                match self.member(of_enum, name) {
                    Some(value) => Ok(Some(value)),
                    None => Err(source.fault(FaultKind::UnknownName, at).about(name)),
                }
            }
            _ => Ok(None),
        }
    }
}

/// What stands within a member of an enum.
fn is_inner(action: Action) -> bool {
    matches!(
        action,
        Action::Dotted | Action::ObjectName | Action::CalledName
    )
}

fn in_range<'a>(source: &Source<'_, 'a>, at: usize, value: i64) -> Result<(), Fault<'a>> {
    if value < LEAST || GREATEST < value {
        return Err(source.fault(FaultKind::NumberRange, at));
    }
    Ok(())
}

fn applied(action: Action, left: i64, right: i64) -> Option<i64> {
    match action {
        Action::Add => left.checked_add(right),
        Action::Subtract => left.checked_sub(right),
        Action::Multiply => left.checked_mul(right),
        Action::BitAnd => Some(left & right),
        Action::BitOr => Some(left | right),
        Action::BitXor => Some(left ^ right),
        _ => None,
    }
}
