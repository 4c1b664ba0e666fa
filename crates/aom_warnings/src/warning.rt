//! Warnings.
use aom_image::{ClassNumber, FieldIndex, MethodNumber, Register};

/// What an image has that nobody may have wanted.
#[derive(Clone, Copy)]
pub enum Warning {
    /// No object of the class is made.
    NeverMade(ClassNumber),
    /// Nothing reads the owning field of the class.
    NeverRead(ClassNumber, FieldIndex),
    /// Nothing calls the method.
    NeverCalled(MethodNumber),
    /// No way leads to the place of the method, nor to those behind it up to the next to which one does.
    NeverReached(MethodNumber, usize),
    /// The instruction at the place writes a word to a register that the method never reads.
    NeverUsed(MethodNumber, usize, Register),
}
