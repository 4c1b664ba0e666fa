//! Laws of the grammar.
ghost use Rattle.aom_source_syntax.specs.Reading.{OneTree, OneProgram};

/// A text has one tree of a program at most, so its items are one list.
pub fn a_text_has_one_program()
    ensures tree { OneTree }
    ensures items { OneProgram }
{}
