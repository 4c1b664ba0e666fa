//! Machines that are not made.

use crate::Explanation;

pub(crate) const TOO_FEW_NATIVES: Explanation = Explanation {
    name: b"too few natives",
    meaning: b"The image counts more natives (natives N in its text) than words for natives stand behind the script.",
    remedy: b"Name one for each, numbered from 0 in their order: counter, line or delay. More than the image counts do no harm.",
};
