//! What holds of the spelling of images, whatever runs.
ghost use Rattle.aom_codec.specs.RoundTrip.{SerializationHasItsSize, SerializationReadsBack, ReadingSerializesBack};

/// Spelling and reading undo each other, and a spelling is as long as an image's counts say.
pub fn serialization_and_reading()
    ensures serialized { SerializationReadsBack }
    ensures size { SerializationHasItsSize }
    ensures read { ReadingSerializesBack }
{}
