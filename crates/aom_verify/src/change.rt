//! What a step of a sweep changes.
ghost use Rattle.std.specs.Prelude.{◌≡◌, ◌<◌, ◌⊎◌, false};
ghost use Rattle.aom_verify.specs.Change.{step_then, then};
ghost use Rattle.aom_verify.specs.declared.change.StatesChange.TheVariants.{Nothing};

/// What became of the states of a method.
#[derive(Clone, Copy, PartialEq, Eq)]
pub(crate) enum StatesChange {
    Nothing,
    /// A state says less than before, and no place was reached first.
    Fell,
    /// A place was reached first.
    Reached,
}

impl StatesChange {
    /// This change and then another.
    pub(crate) fn then(self, after: StatesChange) -> StatesChange
        ensures { result ≡ then self after }
    {
        match self {
            StatesChange::Nothing => after,
            StatesChange::Fell => match after {
                StatesChange::Nothing | StatesChange::Fell => StatesChange::Fell,
                StatesChange::Reached => StatesChange::Reached,
            },
            StatesChange::Reached => StatesChange::Reached,
        }
    }
}

/// What a step of a sweep changes, and whether it does so at a place that the sweep has come to.
#[derive(Clone, Copy)]
pub(crate) struct Step {
    pub(crate) change: StatesChange,
    pub(crate) is_behind: bool,
}

impl Step {
    pub(crate) fn nothing() -> Step
        ensures { result ≡ record { change = Nothing; is_behind = false } }
    {
        Step {
            change: StatesChange::Nothing,
            is_behind: false,
        }
    }

    /// That change at a place, of a sweep that has come to another.
    pub(crate) fn at(to: usize, seen: usize, change: StatesChange) -> Step
        ensures change { result.change ≡ change }
        ensures ahead { result.is_behind ≡ false → (change ≡ Nothing) ⊎ (seen < to) }
        ensures nothing { change ≡ Nothing → result.is_behind ≡ false }
    {
        match change {
            StatesChange::Nothing => Step::nothing(),
            StatesChange::Fell | StatesChange::Reached => Step {
                change,
                is_behind: to <= seen,
            },
        }
    }

    /// This step and then another.
    pub(crate) fn then(self, after: Step) -> Step
        ensures { result ≡ step_then self after }
    {
        Step {
            change: self.change.then(after.change),
            is_behind: self.is_behind || after.is_behind,
        }
    }
}
