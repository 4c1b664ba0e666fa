//! How a run ended.
ghost use Rattle.std.specs.Prelude.{◌≡◌};
ghost use Rattle.aom_run.specs.Outcomes.{outcome_of};

use aom_transcript::Ending;

#[derive(Clone, Copy)]
pub enum Outcome {
    Stopped,
    Waiting,
    /// Main left with that code.
    MainLeft(i32),
    /// So many dispatches were over as the call allows.
    Limit,
    /// A dispatch was left, and that was the answer.
    Error(i32),
    /// The transcript could not be written.
    WriteFault,
}

impl Outcome {
    pub fn of(ending: Ending) -> Outcome
        ensures { result ≡ outcome_of ending }
    {
        match ending {
            Ending::Stopped => Outcome::Stopped,
            Ending::Waiting => Outcome::Waiting,
            Ending::MainLeft(code) => Outcome::MainLeft(code),
            Ending::Limit => Outcome::Limit,
            Ending::Error(answer) => Outcome::Error(answer),
        }
    }
}
