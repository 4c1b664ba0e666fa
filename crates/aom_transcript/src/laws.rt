//! The law, as the contract of a function that does nothing.
ghost use Rattle.aom_transcript.specs.Naming.{NumbersAreTranscripts};

/// Where lines are read with the numbers of classes, what is written is the transcript.
pub fn numbers_are_transcripts()
    ensures { NumbersAreTranscripts }
{}
