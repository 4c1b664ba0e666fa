//! What can stand on the stack.
use aom_image::MethodNumber;

/// What stands on the cleanup stack.
#[derive(Clone, Copy, Default, PartialEq, Eq)]
pub enum Item {
    /// An object, by its number.
    Object(u32),
    /// A method that is called on that word, a register's number, when it is dealt with.
    Operation(MethodNumber, u32),
    /// Where a trap was set.
    #[default]
    Mark,
}
