//! A number for each method.
ghost use Rattle.std.specs.Prelude.{◌≡◌, ◌<◌, nat_le, length, replicate, slice_set, IfOk};
ghost use Rattle.std.specs.List.{list_all};
ghost use Rattle.aom_roles.specs.Tables.{at};
ghost use Rattle.aom_static_bounds.specs.Calls.{listed};
ghost use Rattle.aom_budget.specs.Greatest.{most_at};

use aom_image::{ClassNumber, MethodNumber};
use std::alloc::{AllocError, Global};
use std::marker::Model;

#[derive(Drop)]
pub(crate) struct Table {
    numbers: Vec<u16>,
}

impl Model for Table {
    ghost use Rattle.std.specs.Prelude.{ℕ, List};

    ghost Value = { List ℕ };

    ghost view = { λ t. t.numbers.items };
}

/// The number of the method at an index.
pub(crate) fn number_at(index: usize) -> MethodNumber
    requires { index < 1024 }
    ensures { result ≡ index }
{
    MethodNumber::new(index as u16).unwrap()
}

/// The number of the class at an index.
pub(crate) fn class_number(index: usize) -> ClassNumber
    requires { index < 256 }
    ensures { result ≡ index }
{
    ClassNumber::new(index as u16).unwrap()
}

impl Table {
    /// 0 for each of so many methods.
    pub(crate) fn new(alloc: Global, methods: usize) -> Result<Table, AllocError>
        ensures { IfOk result (λ t. t ≡ replicate methods 0) }
    {
        let numbers = vec![in alloc; 0; methods]?;
        Ok(Table { numbers })
    }

    /// It is 0 for what no method is.
    pub(crate) fn of_method(&self, method: MethodNumber) -> u16
        ensures { result ≡ at 0 self.now method }
    {
        let index = method.number() as usize;
        if index < self.numbers.len() {
            self.numbers[index]
        } else {
            0
        }
    }

    /// It is 0 where there is none.
    pub(crate) fn of_perhaps(&self, method: Option<MethodNumber>) -> u16
        ensures { result ≡ most_at self.now (listed method) }
    {
        match method {
            Some(method) => self.of_method(method),
            None => 0,
        }
    }

    pub(crate) fn set(&mut self, method: MethodNumber, number: u16)
        requires { method < length self.old }
        ensures { self.new ≡ slice_set self.old method number }
    {
        self.numbers[method.number() as usize] = number;
    }

    /// Whether no number is greater.
    pub(crate) fn keeps_to(&self, most: u16) -> bool
        ensures { result ≡ list_all (λ n. nat_le n most) self.now }
    {
        self.numbers.iter().all(|number| *number <= most)
    }
}
