//! Checked images.
ghost use Rattle.std.specs.Prelude.{◌≡◌, ◌<◌, IfOk, IfErr, IsSome};
ghost use Rattle.aom_image.specs.Views.{method_at};
ghost use Rattle.aom_typing_rules.specs.Typing.{Typing, IsTyped};
ghost use Rattle.aom_static_bounds.specs.Strongest.{IsMethodStrongest, IsStrongest, IsShapeAt};
ghost use Rattle.aom_verify.specs.Refusals.{RefusesMethod, RefusesOrWants};
ghost use Rattle.aom_verify.specs.Sweep.{HasPlaces};

use crate::Refusal;
use crate::state_table::StateTable;
use aom_abstract_state::{AbstractState, Known};
use aom_image::MethodNumber;
use aom_linker::Linked;
use std::alloc::Global;
use std::marker::Model;

/// A linked image whose methods all have a typing, with the states of the strongest one.
#[derive(Drop)]
pub struct Checked {
    linked: Linked,
    /// By the numbers of the methods.
    state_tables: Vec<StateTable>,
}

impl Model for Checked {
    ghost use Rattle.aom_image.specs.Image.{Image};
    ghost use Rattle.aom_static_bounds.specs.Strongest.{IsStrongest};

    ghost Value = { Image };

    ghost view = { λ c. c.linked };

    ghost invariant = { λ c. IsStrongest c.linked c.state_tables.items };
}

impl Checked {
    pub fn linked(&self) -> &Linked
        ensures { result.now ≡ self.now }
    {
        &self.linked
    }

    /// It has a typing, and so a strongest one.
    pub fn typed(&self)
        ensures { (t : Typing) × IsStrongest self.now t }
    {
        let _ = &self.state_tables;
    }

    /// The states of a method in the strongest typing.
    pub fn state_table(&self, method: MethodNumber) -> &StateTable
        requires { IsSome (method_at self.now method) }
        ensures { IsMethodStrongest self.now method result.now }
    {
        &self.state_tables[method.number() as usize]
    }

    /// The state of a place of a method in the strongest typing, if that place is reached.
    pub fn shape(&self, method: MethodNumber, place: usize) -> Option<AbstractState<'_>>
        requires { IsSome (method_at self.now method) }
        ensures { IsShapeAt self.now method place result }
    {
        self.state_table(method).shape(place)
    }
}

/// Checks each method in the order of their numbers. A refused image is dropped; want of memory may come at any method.
pub fn check(alloc: Global, linked: Linked) -> Result<Checked, Refusal>
    ensures ok { IfOk result (λ checked. checked ≡ linked) }
    ensures refused { IfErr result (λ refusal. RefusesOrWants linked refusal) }
    ensures complete { (t : Typing) → IsTyped linked t → IfErr result (λ refusal. refusal ≡ Refusal.OutOfMemory) }
{
    let state_tables = state_tables_of(alloc, &linked)?;
    Ok(Checked {
        linked,
        state_tables,
    })
}

/// The states of each method, or why the first that has none has none.
fn state_tables_of(alloc: Global, linked: &Linked) -> Result<Vec<StateTable>, Refusal>
    ensures ok { IfOk result (λ state_tables. IsStrongest linked.now state_tables.items) }
    ensures err { IfErr result (λ refusal. RefusesOrWants linked.now refusal) }
{
    let methods = linked.image().methods();
    let mut state_tables = Vec::with_capacity(alloc, methods.len())?;
    for index in 0..methods.len() {
        let state_table = state_table_of(alloc, linked, number_at(index))?;
        state_tables.push(state_table).unwrap();
    }
    Ok(state_tables)
}

/// The number of the method at an index.
fn number_at(index: usize) -> MethodNumber
    requires { index < 1024 }
    ensures { result ≡ index }
{
    MethodNumber::new(index as u16).unwrap()
}

/// How many places a method has.
pub(crate) fn place_count(linked: &Linked, method: MethodNumber) -> usize
    requires { IsSome (method_at linked.now method) }
    ensures some { 0 < result }
    ensures all { HasPlaces linked.now method result }
{
    let methods = linked.image().methods();
    methods.at(method.number() as usize).code.len()
}

/// The states of a method, or why it has none.
fn state_table_of(
    alloc: Global,
    linked: &Linked,
    method: MethodNumber,
) -> Result<StateTable, Refusal>
    requires { IsSome (method_at linked.now method) }
    ensures ok { IfOk result (λ s. IsMethodStrongest linked.now method s) }
    ensures err { IfErr result (λ refusal. RefusesMethod linked.now method refusal) }
{
    let entry = Known::entry(linked, method);
    let mut state_table = StateTable::new(alloc, place_count(linked, method), entry)?;
    match state_table.sweep_to_fixpoint(alloc, linked, method) {
        Ok(()) => Ok(state_table),
        Err(fault) => Err(fault.refusal(method)),
    }
}
