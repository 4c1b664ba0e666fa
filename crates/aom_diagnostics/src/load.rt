//! Bytes that are no image.

use crate::Explanation;

pub(crate) const BAD_MAGIC: Explanation = Explanation {
    name: b"wrong magic",
    meaning: b"The first four bytes are not AOIM. An assembly text is refused so.",
    remedy: b"Put --asm before a text, or assemble it first and name the image.",
};

pub(crate) const BAD_VERSION: Explanation = Explanation {
    name: b"wrong version",
    meaning: b"The version is neither 1 nor 2.",
    remedy: b"Make the image in one of these versions.",
};

pub(crate) const TRUNCATED: Explanation = Explanation {
    name: b"cut off",
    meaning: b"The bytes end within a field. An empty file is refused so.",
    remedy: b"Copy the whole file; look at the counts of classes, methods and instructions.",
};

pub(crate) const TRAILING: Explanation = Explanation {
    name: b"bytes left over",
    meaning: b"Bytes stand behind the last method.",
    remedy: b"Take them away; look at the count of methods.",
};

pub(crate) const LIMIT_PASSED: Explanation = Explanation {
    name: b"past a limit",
    meaning: b"A count or a limit is out of its range, there is a ninth server class, or the file has more than 1 MiB.",
    remedy: b"Declare less.",
};

pub(crate) const BAD_OPCODE: Explanation = Explanation {
    name: b"no instruction",
    meaning: b"An opcode is none of the table.",
    remedy: b"Take an opcode from 01 to 30, in version 2 to 31; look whether an instruction has its 8 bytes.",
};

pub(crate) const BAD_OPERAND: Explanation = Explanation {
    name: b"no operand",
    meaning: b"An operand, a kind, a role, a flag or a set of states is none that there is, or none that may stand here.",
    remedy: b"Look up the range of the field.",
};

pub(crate) const BAD_INDEX: Explanation = Explanation {
    name: b"no such number",
    meaning: b"A class, method, place or native of that number is not there.",
    remedy: b"Count from 0; write ffff where there is no class.",
};

pub(crate) const NOT_ZERO: Explanation = Explanation {
    name: b"unused byte",
    meaning: b"A byte that is not used here is not zero.",
    remedy: b"Write zero.",
};
