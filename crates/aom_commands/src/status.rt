//! How the program ends.
ghost use Rattle.std.specs.Prelude.{◌≡◌};
ghost use Rattle.aom_commands.specs.Status.{status_number};

/// What the system is told as the program ends.
#[derive(Clone, Copy, PartialEq, Eq)]
pub enum ExitStatus {
    /// What was asked for is done: an image is accepted, a file is translated, a run has stopped.
    Done,
    ImageRefused,
    /// The command line, a native's word, the text beside an image or the script is refused, or there are too few natives.
    CallRefused,
    /// A run has ended before it stopped: for nothing, or at its limit; or one that was explored has ended otherwise than is expected.
    Unfinished,
    /// Main has left, or a dispatch was left and answered with an error.
    Broken,
    /// A file, the output or the memory has failed.
    Fault,
}

impl ExitStatus {
    pub fn number(self) -> u8
        ensures { result ≡ status_number self }
    {
        self as u8
    }
}
