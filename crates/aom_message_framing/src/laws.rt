//! A stream is cut in one way.
ghost use Rattle.aom_message_framing.specs.Laws.{CutsOnce};

/// Of two frames with which a stream begins each is the other.
pub fn a_stream_is_cut_once()
    ensures { CutsOnce }
{}
