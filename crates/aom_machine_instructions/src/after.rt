//! What is at hand behind an instruction.

/// What an instruction leaves, as far as it is known without a look at the stack of tasks.
#[derive(Clone, Copy)]
pub enum After {
    /// A method runs, and nothing was told.
    RunsOn,
    /// The cell of that number goes next, with nothing before it: the task of that is not on the stack yet.
    CellGoes(u32),
    /// What is innermost is to be looked for.
    Other,
}
