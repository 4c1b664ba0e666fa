//! What each fault means, in plain words: one table with an entry for each fault number of every kind, and what is said of the
//! place where a fault is.
//!
//! `load_entry` and its like answer just the texts of `specs/Table.antt`, which docs/reasons.md tells too, word by word; each
//! kind's own texts stand in a file of its name. `write_entry` writes an entry, and `write_line`, `write_method` and `write_compared` what
//! `specs/Places.antt` and `specs/Compared.antt` say of a line of a text, of an instruction and of a budget. A method and an
//! instruction are written as in a listing; `write_source` and `write_declared` write in their place the statements of a text, as
//! `specs/Sources.antt` says, and `write_as_line` all in one line, as `specs/Lines.antt` says. `write_link_place` and `write_link_source` write
//! where an image fails a link condition (`specs/Linking.antt`), and `write_known` what is known where a method stands (`specs/Known.antt`).
//! `write_form` writes how the instruction of a line is to be written whose words have another form (`specs/Forms.antt`, `specs/Malformed.antt`).
//!
//! The way back from an image to its text: `image_statement`, `class_statement`, `method_statement` and `instruction_statement` answer
//! the statements, with their lines, that `specs/Declarations.antt` finds in a text by counting those that begin with `class` or `method`;
//! `class_names` and `method_names` the names in them, `class_lines` and `method_lines` their lines.
//! That they are the right ones where the text denotes the image is the law `statements_declare`. Nothing here knows which command was
//! refused, nor where a text goes.
#![tactic(auto)]

mod as_line;
mod asm;
mod boot;
mod budget;
mod compared;
mod entry;
mod finding;
mod form;
mod known;
mod laws;
mod link;
mod linking;
mod load;
mod malformed;
mod naming;
mod place;
mod script;
mod source;
mod table;
mod verify;
mod word;

pub use as_line::{
    budget_line, class_lines, image_line, method_lines, refusal_line, write_as_line,
};
pub use compared::write_compared;
pub use entry::{Explanation, write_entry};
pub use finding::{begins_with, instruction_statement};
pub use known::{write_kind, write_known};
pub use laws::statements_declare;
pub use linking::{link_line, write_link_place, write_link_source};
pub use malformed::write_form;
pub use naming::{class_names, method_names};
pub use place::{write_line, write_method, write_word};
pub use source::{write_declared, write_source};
pub use table::{
    asm_entry, boot_entry, budget_entry, link_entry, load_entry, script_entry, verify_entry,
    word_entry,
};
pub use word::Unnumbered;
