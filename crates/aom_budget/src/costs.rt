//! What the methods cost, and what that makes of a call, a cancel and a destruction: the most over all that may run.
ghost use Rattle.std.specs.Prelude.{◌≡◌, ◌≤◌, ℕ, length, replicate, slice_set, IfOk, IsSome};
ghost use Rattle.aom_image.specs.Image.{Image as ImageRecord};
ghost use Rattle.aom_image.specs.Views.{method_at};
ghost use Rattle.aom_static_bounds.specs.Most.{most_run};
ghost use Rattle.aom_roles.specs.Tables.{at};
ghost use Rattle.aom_budget.specs.Costing.{AreCosts};
ghost use Rattle.aom_budget.specs.Charging.{charge_said};
ghost use Rattle.aom_budget.specs.Pricing.{cancel_by, charge_by, destruction_by, kind_by, own_by};

use crate::callees::class_of;
use crate::cancels::raise_cancel_costs;
use crate::charges::Charge;
use crate::destructions::raise_destroyed;
use crate::raising::raise_called;
use crate::sums::Sums;
use aom_abstract_state::Kind;
use aom_image::{ClassNumber, Instr, MethodNumber, Role, Thing};
use aom_linker::Linked;
use aom_verify::AbstractStateView;
use std::alloc::{AllocError, Global};

#[derive(Drop)]
pub(crate) struct Costs {
    /// By method.
    pub(crate) prices: Sums,
    /// By method, over it and all that override it.
    called: Sums,
    /// By class, over its cancel method and those of all that descend from it.
    cancelled: Sums,
    /// By class, of what is declared of it.
    destroyed: Sums,
}

impl Costs {
    /// Nothing is known of any method yet.
    pub(crate) fn new(alloc: Global, linked: &Linked) -> Result<Costs, AllocError>
        ensures costs { IfOk result (λ c. AreCosts linked.now c) }
        ensures prices { IfOk result (λ c. c.prices ≡ replicate (length linked.now.methods) 0) }
    {
        let methods = linked.image().methods().len();
        let classes = linked.image().classes().len();
        let prices = Sums::new(alloc, methods)?;
        let called = Sums::new(alloc, methods)?;
        let cancelled = Sums::new(alloc, classes)?;
        let mut destroyed = Sums::new(alloc, classes)?;
        raise_destroyed(linked, &prices, &mut destroyed);
        Ok(Costs {
            prices,
            called,
            cancelled,
            destroyed,
        })
    }

    /// Keeps what a method costs, and raises what it counts for. A call of its own, so that the loop over places stays small.
    #[inline(never)]
    pub(crate) fn set(&mut self, linked: &Linked, method: MethodNumber, price: u64)
        requires costs { AreCosts linked.now self.old }
        requires method { IsSome (method_at linked.now method) }
        requires unset { at 0 self.old.prices method ≡ 0 }
        requires low { price ≤ 4294967296 }
        ensures costs { AreCosts linked.now self.new }
        ensures prices { self.new.prices ≡ slice_set self.old.prices method price }
    {
        let _formed = linked.image().methods();
        self.prices.set(method.number() as usize, price);
        raise_called(linked.image(), &mut self.called, method, price);
        match linked.method(method).role {
            Role::Destruct => raise_destroyed(linked, &self.prices, &mut self.destroyed),
            Role::Cancel => raise_cancel_costs(linked, &self.prices, &mut self.cancelled),
            _ => {}
        }
    }

    /// What a call costs, whatever it runs.
    fn of_call(&self, method: MethodNumber) -> u64
        ensures is { (p : ImageRecord) → AreCosts p self.now → result ≡ most_run p (at 0 self.now.prices) method }
        ensures low { result ≤ 4294967296 }
    {
        self.called.at(method.number() as usize)
    }

    /// What a cancel costs of what counts as an object of that class.
    fn of_cancel(&self, class: Option<ClassNumber>) -> u64
        ensures is { (p : ImageRecord) → AreCosts p self.now → result ≡ cancel_by p self.now.prices class }
        ensures low { result ≤ 4294967296 }
    {
        match class {
            Some(class) => self.cancelled.at(class.number() as usize),
            None => 0,
        }
    }

    fn of_destruction(&self, thing: Thing) -> u64
        ensures is { (p : ImageRecord) → AreCosts p self.now → result ≡ destruction_by p self.now.prices thing }
        ensures low { result ≤ 4294967296 }
    {
        match thing {
            Thing::Object(class) => self.destroyed.at_or(1, class.number() as usize),
            Thing::Message => 1,
        }
    }

    /// What the destruction of what a register may have costs.
    fn of_kind(&self, kind: Kind) -> u64
        ensures is { (p : ImageRecord) → AreCosts p self.now → result ≡ kind_by p self.now.prices kind }
        ensures low { result ≤ 4294967296 }
    {
        match kind {
            Kind::Unset | Kind::Word | Kind::Null => 0,
            Kind::Own(thing, _) | Kind::Maybe(thing, _) => self.of_destruction(thing),
        }
    }

    /// What it costs that an instruction of a method sets that going, by the prices of the lower methods.
    fn of_charge(
        &self,
        linked: &Linked,
        method: MethodNumber,
        shape: &AbstractStateView<'_>,
        charge: Charge,
    ) -> u64
        requires { AreCosts linked.now self.now }
        ensures is { result ≡ charge_by linked.now method self.now.prices shape.now (charge_said charge) }
        ensures low { result ≤ 4294967296 }
    {
        match charge {
            Charge::Nothing => 0,
            Charge::Call(called) => self.of_call(called),
            Charge::Operation(pushed) => self.prices.at(pushed.number() as usize),
            Charge::Destruction(register) => self.of_kind(shape.register(register)),
            Charge::Cancel => self.of_cancel(class_of(linked, method)),
        }
    }

    /// What the instruction costs itself.
    pub(crate) fn of_instr(
        &self,
        linked: &Linked,
        method: MethodNumber,
        shape: &AbstractStateView<'_>,
        instr: &Instr,
    ) -> u64
        requires { AreCosts linked.now self.now }
        ensures is { result ≡ own_by linked.now method self.now.prices shape.now instr.now }
        ensures low { result ≤ 4294967297 }
    {
        1 + self.of_charge(linked, method, shape, Charge::of(instr))
    }
}
