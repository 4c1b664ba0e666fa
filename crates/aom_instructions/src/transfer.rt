//! Control transfers.
use crate::{FieldIndex, InstrPlace, LoopDepth, Register};

/// What decides whether a branch is taken.
#[derive(Clone, Copy)]
pub enum Condition {
    /// How the words of two registers compare.
    OnWords,
    /// Whether a register is null.
    IsNull(Register),
    /// Whether an owning field is null.
    IsEmpty(FieldIndex),
    /// Whether the request of the method's object is active.
    IsActive,
    /// Whether the method's object is enlisted.
    IsAdded,
}

/// Where a method goes on from an instruction.
#[derive(Clone, Copy)]
pub enum Transfer {
    /// At the next place.
    Onward,
    /// At that place.
    Jump(InstrPlace),
    /// At that place, or at the next one.
    Branch(Condition, InstrPlace),
    /// At the next place, in the first of so many rounds of a loop.
    Begin(LoopDepth, u16),
    /// At that place, in another round of the loop, and at the next one after the last round.
    Repeat(LoopDepth, InstrPlace),
    /// Nowhere: it returns, with what the register has where it gives something.
    Return(Register),
    /// Nowhere: it leaves, with the code in the register.
    Leave(Register),
}
