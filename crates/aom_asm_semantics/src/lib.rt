//! What an assembly text denotes, as a relation that no code runs, that the assembler answers by it, and that a listing reads back.
//!
//! Promises: `assemble`'s image is denoted by its text, every image that a text denotes is the one that `assemble`
//! answers, and so a text denotes at most one image. `specs/Source.antt` has the parts of a text and how they are
//! written, `specs/Meaning.antt` what each part says, `specs/Denotes.antt` what the whole denotes. How a text is read,
//! and which fault is told first, is `aom_asm`'s.
//!
//! Each statement of a listing, read among the names that a listing gives, is what was written and leaves no word,
//! whether names are told apart or not; and the text of a listing denotes the image that it is of, where each destruct,
//! cancel and undo method says that it is quiet and the text is no longer than a text may be. The form of a listing is
//! told in `aom_disassembler`.
#![tactic(auto)]

mod laws;

pub use laws::{
    classes_read_back, headers_read_back, headings_read_back, instructions_read_back,
    listings_assemble, listings_denote, numbers_read_back, shaped_say_quiet, statements_denote,
    tables_read_back, texts_denote,
};
