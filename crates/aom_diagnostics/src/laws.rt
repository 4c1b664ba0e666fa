//! The law, as the contract of a function that does nothing.
ghost use Rattle.aom_diagnostics.specs.Laws.{StatementsDeclare};

/// Where a text denotes an image, the statements that are found say what the image has.
pub fn statements_declare()
    ensures { StatementsDeclare }
{}
