//! The instructions of image version 1.
use crate::{
    ClassNumber, EntryDepth, FieldIndex, InstrPlace, LoopDepth, MethodNumber, Register, WordIndex,
};

/// What a call is made on.
#[derive(Clone, Copy)]
pub enum Target {
    /// The object of the running method, or nothing where the called method is static.
    This,
    Register(Register),
    Field(FieldIndex),
    Entry(EntryDepth),
}

/// One instruction. The operand that is written stands first.
#[derive(Clone, Copy)]
pub enum Instr {
    Const(Register, i32),
    Copy(Register, Register),
    Move(Register, Register),
    Add(Register, Register, Register),
    Sub(Register, Register, Register),
    Mul(Register, Register, Register),
    And(Register, Register, Register),
    Or(Register, Register, Register),
    Xor(Register, Register, Register),
    Jump(InstrPlace),
    JumpEqual(Register, Register, InstrPlace),
    JumpLess(Register, Register, InstrPlace),
    JumpNull(Register, InstrPlace),
    JumpEmpty(FieldIndex, InstrPlace),
    JumpActive(InstrPlace),
    JumpAdded(InstrPlace),
    /// So many rounds, from 1.
    Loop(LoopDepth, u16),
    Next(LoopDepth, InstrPlace),
    Print(Register),
    Load(Register, WordIndex),
    Store(WordIndex, Register),
    Take(Register, FieldIndex),
    Put(FieldIndex, Register),
    New(Register, ClassNumber),
    NewOrLeave(Register, ClassNumber),
    Delete(Register),
    Push(Register),
    PushOperation(Register, MethodNumber),
    Pop(Register),
    PopOperation,
    PopDelete,
    /// The target, the method, the first argument and the register of the result.
    Call(Target, MethodNumber, Register, Register),
    /// The same under a trap. The code goes to the register after the result's, which is at most 14.
    Trap(Target, MethodNumber, Register, Register),
    Return(Register),
    Leave(Register),
    LeaveIf(Register),
    Enlist(i32),
    Issue(Register, Register),
    SetActive,
    Cancel,
    Abort,
    Status(Register),
    Connect(Register),
    Ask(Register, Register, Register),
    Close,
    TakeMessage(Register),
    Reply(Register, Register),
    Stop,
    Hand(Register),
}
