//! The law of the order, as a contract.
ghost use Rattle.aom_abstract_state.specs.Laws.{IsOrder};

/// Saying no more is reflexive and transitive.
pub fn order_is_one()
    ensures { IsOrder }
{}
