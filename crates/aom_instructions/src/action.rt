//! What instructions do with methods and objects.
use crate::{ClassNumber, MethodNumber, Register, Target};

/// How a method is called.
#[derive(Clone, Copy)]
pub enum CallMode {
    Plain,
    /// Under a trap, which catches what it leaves with.
    Trapped,
}

/// What an instruction does with methods and objects, now or as what it pushes leaves the cleanup stack.
#[derive(Clone, Copy)]
pub enum Action {
    Nothing,
    /// An object of the class is made.
    Make(ClassNumber),
    /// What the register owns is destroyed.
    Destroy(Register),
    /// What the register owns is pushed.
    Push(Register),
    /// The method is pushed, with the word of the register as its argument.
    PushOperation(Register, MethodNumber),
    /// The method is called on the target, with arguments from the first register on; its result comes to the second.
    Call(CallMode, Target, MethodNumber, Register, Register),
    /// The request of the method's object is cancelled.
    Cancel,
}
