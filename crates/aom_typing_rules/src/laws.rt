//! The law of the rules, as a contract.
ghost use Rattle.aom_typing_rules.specs.Laws.{IsMonotone};

/// What passes for a state passes for one that says more, with flows that say no less.
pub fn rules_are_monotone()
    ensures { IsMonotone }
{}
