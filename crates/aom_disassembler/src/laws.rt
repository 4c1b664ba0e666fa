//! A law of listings, as the contract of a function that does nothing.
ghost use Rattle.aom_disassembler.specs.Laws.{ListingsSplit};

/// The text of a listing splits into just its statements, one in each line.
pub fn listings_split()
    ensures { ListingsSplit }
{}
