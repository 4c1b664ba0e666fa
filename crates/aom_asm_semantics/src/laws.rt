//! The laws, each as the contract of a function that does nothing.
ghost use Rattle.aom_asm_semantics.specs.ReadbackLaws.{NumbersReadBack, TablesReadBack, InstructionsReadBack, HeadersReadBack, ClassesReadBack, HeadingsReadBack, ShapedSayQuiet, StatementsDenote, ListingsAssemble};
ghost use Rattle.aom_asm_semantics.specs.Laws.{TextsDenote, ListingsDenote};

/// A number in decimal digits reads as that number.
pub fn numbers_read_back()
    ensures { NumbersReadBack }
{}

/// Each word of the language, and each mnemonic.
#[tactic(auto, using(crate::proofs::Tables::keyword_reads, crate::proofs::Tables::mnemonic_reads))]
pub fn tables_read_back()
    ensures { TablesReadBack }
{}

/// Each instruction, with its label, at its place in its method.
pub fn instructions_read_back()
    ensures { InstructionsReadBack }
{}

/// The statement that opens a text.
pub fn headers_read_back()
    ensures { HeadersReadBack }
{}

/// The statement of each class.
pub fn classes_read_back()
    ensures { ClassesReadBack }
{}

/// The statement that each method begins with.
pub fn headings_read_back()
    ensures { HeadingsReadBack }
{}

/// So an image whose methods have the shapes that a link asks is one of the round trip.
#[tactic(auto, using(crate::proofs::Quiet::shaped_say_quiet))]
pub fn shaped_say_quiet()
    ensures { ShapedSayQuiet }
{}

/// Statements in whatever lines, by both readings of a text.
pub fn statements_denote()
    ensures { StatementsDenote }
{}

/// The round trip: what `aom_disassembler::disassemble` writes of an image, the assembler reads as that image.
pub fn listings_assemble()
    ensures { ListingsAssemble }
{}

/// What the assembler reads of a text is what the text denotes.
pub fn texts_denote()
    ensures { TextsDenote }
{}

/// The text of a listing denotes the image that it is of.
pub fn listings_denote()
    ensures { ListingsDenote }
{}
