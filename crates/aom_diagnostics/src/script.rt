//! Texts that are no script.

use crate::Explanation;

pub(crate) const NOT_ASCII: Explanation = Explanation {
    name: b"no ASCII",
    meaning: b"A byte outside 32 to 126 that is no tab, carriage return or line feed.",
    remedy: b"Write plain digits and letters.",
};

pub(crate) const BAD_LINE: Explanation = Explanation {
    name: b"no line",
    meaning: b"The words make no line. A script has no comments.",
    remedy: b"Write refuse N, T event N W, T kill N, T connect C CLASS SLOTS, T send C F I0 I1 I2 I3, T close C, T die C, or nothing.",
};

pub(crate) const BAD_NUMBER: Explanation = Explanation {
    name: b"no number",
    meaning: b"A word that should be a number is none.",
    remedy: b"Write it in decimal digits.",
};

pub(crate) const TIME_BACK: Explanation = Explanation {
    name: b"time goes back",
    meaning: b"A time is below that of the timed line before, or below 0.",
    remedy: b"Put the lines in the order of their times.",
};

pub(crate) const LIMIT_PASSED: Explanation = Explanation {
    name: b"past a limit",
    meaning: b"A number is out of its range and no time goes back, the script has more than 65,536 lines, or, told of line 1, more than 1 MiB.",
    remedy: b"Requests are counted from 1, to 4,294,967,295; a time is at most 10^15, a native from 0 to 15, a word from -2^31 to 2^31 - 1, a client from 0 to 63, its slots from 0 to 64, a class from 0 to 255.",
};
