//! Images that may come to too much.

use crate::Explanation;

pub(crate) const OVER_BUDGET: Explanation = Explanation {
    name: b"over budget",
    meaning: b"budget 1 main price P declared D: main, with the root's destruction, may take P steps, and the image declares D. A P of 4294967296 stands for all that is more. budget 1 class K price P declared D says the same of a dispatch of an object of the class K: of an active object its run method, and its error method, which follows where the run has left; of a server the dearest of its accept method, its sessions' service method and a session's destruction.",
    remedy: b"Declare at least P, or make loops shorter, those in called methods first.",
};

pub(crate) const TOO_DEEP: Explanation = Explanation {
    name: b"too deep",
    meaning: b"A method may come to more than 256 frames.",
    remedy: b"Do in one method what a chain of calls does, or call from a loop.",
};

pub(crate) const CLEANUP_TOO_DEEP: Explanation = Explanation {
    name: b"too many cleanup entries",
    meaning: b"A method may come to more than 1,024 cleanup entries, with those of the methods that it calls.",
    remedy: b"Take entries down before the call; let one object own many.",
};
