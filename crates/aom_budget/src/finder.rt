//! What the methods may come to, found from the lowest number up: what a method may call has a lower one.
ghost use Rattle.std.specs.Prelude.{◌≡◌, ◌+◌, ◌<◌, ◌≤◌, suc, min, max, length, replicate, slice_set, IfOk, IsSome};
ghost use Rattle.aom_image.specs.Views.{method_at};
ghost use Rattle.aom_roles.specs.Tables.{at};
ghost use Rattle.aom_static_bounds.specs.Strongest.{IsMethodStrongest};
ghost use Rattle.aom_static_bounds.specs.Calls.{called_for, callees};
ghost use Rattle.aom_static_bounds.specs.Depths.{Frames};
ghost use Rattle.aom_static_bounds.specs.Heights.{Heights};
ghost use Rattle.aom_budget.specs.Charging.{charge_said};
ghost use Rattle.aom_budget.specs.StackDepths.{IsMost, entered, entered_for, FramesAt, EntriesAt, AreFilled};
ghost use Rattle.aom_budget.specs.Greatest.{most_at};
ghost use Rattle.aom_budget.specs.Pricing.{price_by};
ghost use Rattle.aom_budget.specs.Reaching.{AreReached};

use crate::callees::{class_of, object_class};
use crate::cancels::raise_cancel_depths;
use crate::charges::Charge;
use crate::extents::{MAX_ENTRIES, MAX_FRAMES, StackDepths};
use crate::lines::raise_destruction;
use crate::raising::raise_called;
use crate::sums::Sums;
use crate::table::{Table, number_at};
use aom_image::{ClassNumber, Instr, MethodNumber, Role};
use aom_linker::Linked;
use aom_verify::{AbstractStateView, Checked, StateTable};
use std::alloc::{AllocError, Global};

/// How many frames, and how many cleanup entries. One more than the most stands for all that are too many.
#[derive(Clone, Copy)]
struct StackDepth {
    depth: u16,
    height: u16,
}

impl StackDepth {
    fn none() -> StackDepth
        ensures depth { result.depth ≡ 0 }
        ensures height { result.height ≡ 0 }
    {
        StackDepth {
            depth: 0,
            height: 0,
        }
    }

    fn larger(self, other: StackDepth) -> StackDepth
        ensures depth { result.depth ≡ max self.depth other.depth }
        ensures height { result.height ≡ max self.height other.height }
    {
        StackDepth {
            depth: self.depth.max(other.depth),
            height: self.height.max(other.height),
        }
    }
}

/// So many with others, up to a cap.
fn joined(own: usize, others: u64, cap: u16) -> u16
    requires { others ≤ 4294967296 }
    ensures { result ≡ min (own + others) cap }
{
    let most = u64::from(cap);
    ((own as u64).min(most) + others).min(most) as u16
}

/// What a table says of a class, if there is one.
fn of_class(table: &Sums, class: Option<ClassNumber>) -> u64
    ensures is { result ≡ price_by table.now class }
    ensures low { result ≤ 4294967296 }
{
    match class {
        Some(class) => table.at(class.number() as usize),
        None => 0,
    }
}

/// What was found of the methods, and what that makes of a call, a cancel and a destruction: the most over all that may run.
#[derive(Drop)]
struct DepthSearch {
    depths: Table,
    heights: Table,
    /// By method, how deep it goes and all that override it.
    called: Sums,
    /// By method, how high.
    entered: Sums,
    /// By class, how deep its cancel method goes and those of all that descend from it.
    cancelled: Sums,
    /// By class, how deep the lines of destructors go of what is declared of it.
    gone: Sums,
}

impl DepthSearch {
    /// Nothing is known of any method yet.
    fn new(alloc: Global, linked: &Linked) -> Result<DepthSearch, AllocError>
        ensures filled { IfOk result (λ f. AreFilled linked.now 0 f.depths f.heights) }
        ensures reached { IfOk result (λ f. AreReached linked.now f) }
    {
        let methods = linked.image().methods().len();
        let classes = linked.image().classes().len();
        let depths = Table::new(alloc, methods)?;
        let heights = Table::new(alloc, methods)?;
        let called = Sums::new(alloc, methods)?;
        let entered = Sums::new(alloc, methods)?;
        let cancelled = Sums::new(alloc, classes)?;
        let gone = Sums::new(alloc, classes)?;
        Ok(DepthSearch {
            depths,
            heights,
            called,
            entered,
            cancelled,
            gone,
        })
    }

    /// The most of what may run for what an instruction sets going.
    fn most_called(
        &self,
        linked: &Linked,
        method: MethodNumber,
        shape: &AbstractStateView<'_>,
        charge: Charge,
    ) -> u64
        requires { AreReached linked.now self.now }
        ensures low { result ≤ 4294967296 }
        ensures is { result ≡ most_at self.now.depths (called_for linked.now method shape.now (charge_said charge)) }
    {
        match charge {
            Charge::Nothing => 0,
            Charge::Call(called) => self.called.at(called.number() as usize),
            Charge::Operation(pushed) => u64::from(self.depths.of_method(pushed)),
            Charge::Destruction(register) => {
                of_class(&self.gone, object_class(shape.register(register)))
            }
            Charge::Cancel => of_class(&self.cancelled, class_of(linked, method)),
        }
    }

    /// The most of what may be entered for it.
    fn most_entered(&self, linked: &Linked, charge: Charge) -> u64
        requires { AreReached linked.now self.now }
        ensures low { result ≤ 4294967296 }
        ensures is { result ≡ most_at self.now.heights (entered_for linked.now (charge_said charge)) }
    {
        match charge {
            Charge::Call(called) => self.entered.at(called.number() as usize),
            _ => 0,
        }
    }

    /// One's own frame, with the most of what may be called.
    fn depth_at(
        &self,
        linked: &Linked,
        method: MethodNumber,
        shape: &AbstractStateView<'_>,
        instr: &Instr,
    ) -> u16
        requires { AreReached linked.now self.now }
        ensures { result ≡ min (1 + most_at self.now.depths (callees linked.now method shape.now instr.now)) 257 }
    {
        joined(
            1,
            self.most_called(linked, method, shape, Charge::of(instr)),
            MAX_FRAMES + 1,
        )
    }

    /// One's own entries, with the most of what may be entered.
    fn height_at(&self, linked: &Linked, shape: &AbstractStateView<'_>, instr: &Instr) -> u16
        requires { AreReached linked.now self.now }
        ensures { result ≡ min (length shape.now.entries + most_at self.now.heights (entered linked.now instr.now)) 1025 }
    {
        joined(
            shape.height(),
            self.most_entered(linked, Charge::of(instr)),
            MAX_ENTRIES + 1,
        )
    }

    /// What a place comes to: nothing where it is not reached.
    fn of_place(
        &self,
        linked: &Linked,
        method: MethodNumber,
        state_table: &StateTable,
        place: usize,
    ) -> StackDepth
        requires filled { AreFilled linked.now method self.now.depths self.now.heights }
        requires reached { AreReached linked.now self.now }
        requires strongest { IsMethodStrongest linked.now method state_table.now }
        requires place { place < length state_table.now }
        ensures depth { IsMost 257 (FramesAt linked.now method state_table.now place) result.depth }
        ensures height { IsMost 1025 (EntriesAt linked.now method state_table.now place) result.height }
    {
        linked.facts();
        match state_table.view(place) {
            None => StackDepth::none(),
            Some(shape) => {
                let instr = linked.instr(method, place);
                StackDepth {
                    depth: self.depth_at(linked, method, &shape, &instr),
                    height: self.height_at(linked, &shape, &instr),
                }
            }
        }
    }

    /// The most that a place of the method comes to.
    fn of_method(
        &self,
        linked: &Linked,
        method: MethodNumber,
        state_table: &StateTable,
    ) -> StackDepth
        requires filled { AreFilled linked.now method self.now.depths self.now.heights }
        requires reached { AreReached linked.now self.now }
        requires strongest { IsMethodStrongest linked.now method state_table.now }
        ensures depth { IsMost 257 (Frames linked.now method) result.depth }
        ensures height { IsMost 1025 (Heights linked.now method) result.height }
    {
        linked.facts();
        let mut most = StackDepth::none();
        for place in 0..state_table.len() {
            most = most.larger(self.of_place(linked, method, state_table, place));
        }
        most
    }

    /// Keeps what a method comes to, and raises what it counts for. A call of its own, so that the loop over places stays small.
    #[inline(never)]
    fn set(&mut self, linked: &Linked, method: MethodNumber, extent: StackDepth)
        requires reached { AreReached linked.now self.old }
        requires method { IsSome (method_at linked.now method) }
        requires shallow { at 0 self.old.depths method ≡ 0 }
        requires flat { at 0 self.old.heights method ≡ 0 }
        ensures reached { AreReached linked.now self.new }
        ensures depths { self.new.depths ≡ slice_set self.old.depths method extent.depth }
        ensures heights { self.new.heights ≡ slice_set self.old.heights method extent.height }
    {
        let image = linked.image();
        let _formed = image.methods();
        self.depths.set(method, extent.depth);
        self.heights.set(method, extent.height);
        raise_called(image, &mut self.called, method, u64::from(extent.depth));
        raise_called(image, &mut self.entered, method, u64::from(extent.height));
        match linked.method(method).role {
            Role::Destruct => raise_destruction(linked, &self.depths, &mut self.gone),
            Role::Cancel => raise_cancel_depths(linked, &self.depths, &mut self.cancelled),
            _ => {}
        }
    }

    /// Finds the extent of a method once those of the lower ones are found.
    fn find(&mut self, checked: &Checked, method: MethodNumber)
        requires filled { AreFilled checked.now method self.old.depths self.old.heights }
        requires reached { AreReached checked.now self.old }
        requires method { IsSome (method_at checked.now method) }
        ensures filled { AreFilled checked.now (suc method) self.new.depths self.new.heights }
        ensures reached { AreReached checked.now self.new }
    {
        let linked = checked.linked();
        let extent = self.of_method(linked, method, checked.state_table(method));
        self.set(linked, method, extent);
    }

    /// Finds each extent, the lowest number first.
    fn find_all(&mut self, checked: &Checked)
        requires filled { AreFilled checked.now 0 self.old.depths self.old.heights }
        requires reached { AreReached checked.now self.old }
        ensures { AreFilled checked.now (length checked.now.methods) self.new.depths self.new.heights }
    {
        let methods = checked.linked().image().methods();
        for index in 0..methods.len() {
            self.find(checked, number_at(index));
        }
    }
}

/// The extents of a checked image. One more than may be stands for all that is too many.
pub(crate) fn extents_of(alloc: Global, checked: &Checked) -> Result<StackDepths, AllocError>
    ensures { IfOk result (λ e. AreFilled checked.now (length checked.now.methods) e.depths e.heights) }
{
    let mut finder = DepthSearch::new(alloc, checked.linked())?;
    finder.find_all(checked);
    let DepthSearch {
        depths,
        heights,
        ..
    } = finder;
    Ok(StackDepths { depths, heights })
}
