//! The laws, each as the contract of a function that does nothing.
ghost use Rattle.aom_safety.specs.Laws.{BootKeeps, InstructionKeeps, DestructionKeeps, UnwindingKeeps, TurnKeeps, TurnGoesOn, SignalsAreReady, StepKeeps, EndsOwned, EndsEmpty, RegistersKeep, ClientsKeep, TypedIsSound, LinkedIsWired};
ghost use Rattle.aom_safety.specs.Loops.{LoopsKeep};
ghost use Rattle.aom_safety.specs.Quiet.{QuietPreserved, CaughtOwned};
ghost use Rattle.aom_safety.specs.Leaves.{LeavesMove, LeavesArrive};
ghost use Rattle.aom_safety.specs.Steps.{StepsAreMoves};
ghost use Rattle.aom_safety.specs.Counting.{StepsAreCounted};
ghost use Rattle.aom_safety.specs.Traps.{TrapsKeep};
ghost use Rattle.aom_safety.specs.Apart.{KeptNeedsFail};

/// A run of a typed image begins well typed.
pub fn boot_keeps()
    ensures { BootKeeps }
{}

/// An instruction of a well-typed state is not stuck.
pub fn instruction_keeps()
    ensures { InstructionKeeps }
{}

/// A cell that goes leaves no orphan.
pub fn destruction_keeps()
    ensures { DestructionKeeps }
{}

/// What a leave unwinds goes, or runs, and its code arrives.
pub fn unwinding_keeps()
    ensures { UnwindingKeeps }
{}

/// A dispatch ends well typed.
pub fn turn_keeps()
    ensures { TurnKeeps }
{}

/// A turn goes on: something is due, dispatched or waited for, or the run ends.
pub fn turn_goes_on()
    ensures { TurnGoesOn }
{}

/// Between dispatches what signals is ready.
pub fn signals_are_ready()
    ensures { SignalsAreReady }
{}

/// A method in a loop's body has rounds of that loop left.
pub fn loops_keep()
    ensures { LoopsKeep }
{}

/// Every move of a well-typed state is one of the four above, or the fifth: before a server goes a session of it does, or its destructor begins.
pub fn step_keeps()
    ensures { StepKeeps }
{}

/// Each step is a move of one of eight kinds, and what an instruction does is its effect.
pub fn steps_are_moves()
    ensures { StepsAreMoves }
{}

/// Instructions and the cells that go count, from 0 as a run begins, and nothing else does.
pub fn steps_are_counted()
    ensures { StepsAreCounted }
{}

/// While a cell goes or a leave unwinds, quiet methods alone run.
pub fn quiet_preserved()
    ensures { QuietPreserved }
{}

/// Only registers that a method has own.
pub fn registers_keep()
    ensures { RegistersKeep }
{}

/// Clients, and what they have at servers, say the same.
pub fn clients_keep()
    ensures { ClientsKeep }
{}

/// A leave deals with the last entry over its mark, and its own code arrives.
pub fn leaves_move()
    ensures { LeavesMove }
{}

/// On each run from a leave all its entries are dealt with in their order, and then its code arrives.
pub fn leaves_arrive()
    ensures { LeavesArrive }
{}

/// Until a trap is over its method waits as it was, and what lies below its mark stays as it is.
pub fn traps_keep()
    ensures { TrapsKeep }
{}

/// Ownership is a forest where a leave is caught.
pub fn caught_owned()
    ensures { CaughtOwned }
{}

/// Ownership is a forest at the end of each dispatch.
pub fn ends_owned()
    ensures { EndsOwned }
{}

/// Without a root nothing is left.
pub fn ends_empty()
    ensures { EndsEmpty }
{}

/// The whole of a run.
pub fn typed_is_sound()
    ensures { TypedIsSound }
{}

/// What the laws ask of an image is what linking has checked.
pub fn linked_is_wired()
    ensures { LinkedIsWired }
{}

/// Where clients and servers do not say the same, nothing is kept.
pub fn kept_needs_fail()
    ensures { KeptNeedsFail }
{}
