//! Faults that have no number.

use crate::Explanation;

/// A fault that is told by its word alone.
#[derive(Clone, Copy)]
pub enum Unnumbered {
    /// A word that names no native.
    Native,
    /// A file that cannot be read.
    File,
    /// A text that the image beside it is not of.
    Text,
    /// An output that has failed.
    Write,
    Memory,
}

pub(crate) const NATIVE: Explanation = Explanation {
    name: b"native",
    meaning: b"A word behind the script names no native that there is, or there are more than sixteen words.",
    remedy: b"Write counter, line or delay; a native of one's own is for a program of one's own, as natives.md says.",
};

pub(crate) const FILE: Explanation = Explanation {
    name: b"file",
    meaning: b"A file that the words name cannot be read.",
    remedy: b"Look at the name, and whether it is a file that may be read.",
};

pub(crate) const TEXT: Explanation = Explanation {
    name: b"text",
    meaning: b"The text that --text names denotes an image, and another one than is named beside it.",
    remedy: b"Name the text that the image is of, or assemble the text again and name that image.",
};

pub(crate) const WRITE: Explanation = Explanation {
    name: b"write",
    meaning: b"The standard output took nothing more. What is out is a beginning.",
    remedy: b"Look for a full disk, or a reader that has ended.",
};

pub(crate) const MEMORY: Explanation = Explanation {
    name: b"memory",
    meaning: b"A request for memory was refused, whatever it was for. It says nothing about the image, the text or the script.",
    remedy: b"Give the program more memory.",
};
