//! Texts that denote no image.

use crate::Explanation;

pub(crate) const NOT_ASCII: Explanation = Explanation {
    name: b"no ASCII",
    meaning: b"A byte outside 32 to 126 that is no tab, carriage return or line feed, in comments too. An image is refused so.",
    remedy: b"Write plain letters; save the text without accents, curly quotes or a byte order mark.",
};

pub(crate) const UNKNOWN_WORD: Explanation = Explanation {
    name: b"unknown word",
    meaning: b"A word of the language is expected, and this one is none.",
    remedy: b"Look for a slip in the mnemonic, the role or the part's name.",
};

pub(crate) const BAD_NUMBER: Explanation = Explanation {
    name: b"no number",
    meaning: b"A number is expected, and the word is none: decimal digits, with a minus before them or not.",
    remedy: b"Write it in decimal.",
};

pub(crate) const UNKNOWN_NAME: Explanation = Explanation {
    name: b"unknown name",
    meaning: b"A class, a method or a label is used and declared nowhere. Labels are known in their own method alone.",
    remedy: b"Declare it, or look for a slip; names differ by capitals.",
};

pub(crate) const DOUBLE_NAME: Explanation = Explanation {
    name: b"name twice",
    meaning: b"A class, a method, or a label of one method is declared a second time.",
    remedy: b"Rename one of the two.",
};

pub(crate) const BAD_SHAPE: Explanation = Explanation {
    name: b"wrong shape",
    meaning: b"Words are missing, left over, or in the wrong order; an operand has the wrong form; a name is none that may be declared; an end is missing; a word belongs to a later version; the text is empty.",
    remedy: b"Compare the statement with its form in assembly.md. Of the last line, or of a method or class statement: look whether the method before it has its end.",
};

pub(crate) const LIMIT_PASSED: Explanation = Explanation {
    name: b"past a limit",
    meaning: b"A number, register or field is out of its range, there is one too many of something, a method has no instructions, the text has no methods, or it has more than 1 MiB.",
    remedy: b"Look up the range; split what is too large.",
};
