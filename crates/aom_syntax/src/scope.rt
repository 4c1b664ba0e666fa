//! What is known of the rest of a text while one statement is read.
use crate::NameList;
use aom_image::{ClassDecl, Items};

/// The names of a text, and its classes where they were read before.
#[derive(Drop)]
pub struct Scope<'a> {
    /// Whether a name that is declared nowhere is a fault.
    pub is_strict: bool,
    pub classes: NameList<'a>,
    pub methods: NameList<'a>,
    /// The classes as an earlier reading gave them, for what is missing in methods.
    pub kinds: Items<ClassDecl>,
}
