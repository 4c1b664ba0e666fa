//! The law, as the contract of a function that does nothing.
ghost use Rattle.aom_needs.specs.Laws.{NeedsAreTold};

/// What is told of an instruction are just its rule's needs of the reasons that are told, in the rule's order.
pub fn needs_are_told()
    ensures { NeedsAreTold }
{}
