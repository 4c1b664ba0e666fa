//! That a path that is told can be asked by.
ghost use Rattle.aom_debug_protocol.specs.Ways.{PathsReadBack};

/// A path that the map of owners tells is read back as the way that it spells, where a line has room for it.
pub fn paths_are_read_back()
    ensures { PathsReadBack }
{}
