//! Images whose parts do not go together.

use crate::Explanation;

pub(crate) const CLASS_ORDER: Explanation = Explanation {
    name: b"order of classes",
    meaning: b"A class owns objects of a class that does not come before it (its own is none that does), or owns sessions; a server's sessions are of one that does not, or is none of sessions; a class comes before its parent; or the root is a session.",
    remedy: b"Declare what is owned first, and the class of its sessions before a server. A class cannot own its like, so chains are made of several classes.",
};

pub(crate) const CALL_ORDER: Explanation = Explanation {
    name: b"order of calls",
    meaning: b"A method calls, traps or pushes one that does not come before it, or that such a one overrides; has to do with a class whose destructor, or that of one below it, of one above these, or of its sessions, does not come before it; or cancels before the cancel method of its class or of one below.",
    remedy: b"Put destructors first, then each method before those that call it, and main last. A method cannot call itself: use a loop.",
};

pub(crate) const MISSING_ROLE: Explanation = Explanation {
    name: b"missing method",
    meaning: b"A class with owning fields has no destruct method, or owns more than its parent and has none of its own; one of active objects lacks run, cancel or destruct; a server has no accept method, or a session no service.",
    remedy: b"Write it. A destructor takes what each field owns and deletes it, accept gives a new session, and service takes its message.",
};

pub(crate) const DOUBLE_ROLE: Explanation = Explanation {
    name: b"one method too many",
    meaning: b"A class has two methods of one role, do aside, or there are two mains.",
    remedy: b"Keep one; make the other a do.",
};

pub(crate) const ROLE_SHAPE: Explanation = Explanation {
    name: b"wrong shape of a role",
    meaning: b"A method takes, gives or declares what its role may not, or a call, trap or pushop names a method of a role that it may not name.",
    remedy: b"Compare the method with the row of its role in linking.md. trap takes no construct method, and pushop an undo method alone.",
};

pub(crate) const BAD_JUMP: Explanation = Explanation {
    name: b"bad jump",
    meaning: b"A jump goes back or into a loop's body from outside, or a run may go on past the method's last instruction.",
    remedy: b"Go back by loop and next. End each method with ret or leave, also behind stop.",
};

pub(crate) const BAD_LOOP: Explanation = Explanation {
    name: b"bad loop",
    meaning: b"A loop has no next that goes back to the place behind it, a next closes none, loops overlap, or a depth is not the count of loops around.",
    remedy: b"Put the label on the instruction behind loop, and close inner loops first: depth 0 outside, 1 within it.",
};

pub(crate) const NO_MAIN: Explanation = Explanation {
    name: b"no main",
    meaning: b"No method is main.",
    remedy: b"Declare one as main.",
};

pub(crate) const BAD_PARENT: Explanation = Explanation {
    name: b"wrong parent",
    meaning: b"A class is of another kind than its parent, has fewer words, or its owning fields do not begin with its parent's.",
    remedy: b"Give the class the parent's kind, and list the parent's words and fields first.",
};

pub(crate) const BAD_OVERRIDE: Explanation = Explanation {
    name: b"wrong overrider",
    meaning: b"A method overrides one in whose place it may not run. Both are do methods, its class descends from the other's, and they take and give the same; it leaves only where the other may, is quiet where that is, and begins and ends in no other states; and no two of a class override the same.",
    remedy: b"Compare the two statements, or take over away and call the method that is meant.",
};
