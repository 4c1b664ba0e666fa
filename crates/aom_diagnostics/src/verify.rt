//! Methods without a typing.

use crate::Explanation;

pub(crate) const REGISTER_KIND: Explanation = Explanation {
    name: b"wrong kind",
    meaning: b"A register, a field, a cleanup entry or an operand is not of the kind that the instruction needs, or ways come together here that know different kinds of a register.",
    remedy: b"Compare what the instruction needs with what each way to it leaves there; reasons.md has the cases, one by one.",
};

pub(crate) const OWNED_AT_LEAVE: Explanation = Explanation {
    name: b"owner lost by a leave",
    meaning: b"The instruction may leave, and a register may own something that would be lost.",
    remedy: b"Push the object before, put it in a field, or delete it; or trap what leaves.",
};

pub(crate) const OWNED_AT_RETURN: Explanation = Explanation {
    name: b"owner lost by a return",
    meaning: b"The method ends, and a register may still own something. An argument that is an object counts too.",
    remedy: b"Delete it, put it in a field, or give it as the result. Null may be deleted, so no test is needed.",
};

pub(crate) const CLEANUP_AT_RETURN: Explanation = Explanation {
    name: b"cleanup stack at the end",
    meaning: b"The method ends and has cleanup entries of its own, or ways come together here that have different entries. A method that gives left has to end with one, of an object of that class that is constructed.",
    remedy: b"Take each entry down again on each way, by pop, popop or popdel.",
};

pub(crate) const POP_EMPTY: Explanation = Explanation {
    name: b"no cleanup entry",
    meaning: b"There is no entry, or none so deep, that the method has pushed itself.",
    remedy: b"Push before, or count c0, c1 from the last one pushed.",
};

pub(crate) const LEAVE_NOT_ALLOWED: Explanation = Explanation {
    name: b"may not leave",
    meaning: b"The instruction may leave, and the method is not declared leaves.",
    remedy: b"Declare the method leaves, or call the other under trap, or take new for newl.",
};

pub(crate) const FIELD_NOT_NULL: Explanation = Explanation {
    name: b"field still owns",
    meaning: b"put into a field that may own something, which would be lost. Or a construct method calls that of its class's parent on self, and a field of the parent's may own something.",
    remedy: b"take from the field and delete that first, or ask by jempty. After a call on the same object all its fields may own.",
};

pub(crate) const FIELDS_LEFT: Explanation = Explanation {
    name: b"fields left",
    meaning: b"A destructor ends, and a field may still own something.",
    remedy: b"take from each field and delete.",
};

pub(crate) const NOT_FRESH: Explanation = Explanation {
    name: b"not fresh",
    meaning: b"A construct method is called on an object that is constructed already, as self and what a field owns always are, or on one whose class has another construct method; on self a construct method may call that of its class's parent.",
    remedy: b"Construct each object once, right after new or newl, by the construct method that its class has.",
};

pub(crate) const STILL_FRESH: Explanation = Explanation {
    name: b"still fresh",
    meaning: b"An object is used, given or put in a field before its construct method has run.",
    remedy: b"Call its construct method first.",
};

pub(crate) const NOT_IDLE: Explanation = Explanation {
    name: b"not idle",
    meaning: b"issue or hand, and the request may not be idle; cancel, and it may be issued or in a cancel already; or close, and it may be anything but idle or not enlisted.",
    remedy: b"Ask by jactive and issue or hand on the way where it is not active, or cancel before, also before close; each issue or hand wants its setactive before the next.",
};

pub(crate) const NOT_ISSUED: Explanation = Explanation {
    name: b"not issued",
    meaning: b"setactive, and the request may not be issued.",
    remedy: b"issue or hand right before it, on each way.",
};

pub(crate) const ISSUED_AT_LEAVE: Explanation = Explanation {
    name: b"issued at a leave",
    meaning: b"The instruction may leave, and the request of the method's object may be issued and not set active.",
    remedy: b"setactive right after issue or hand, and leave before or after both.",
};

pub(crate) const ISSUED_AT_RETURN: Explanation = Explanation {
    name: b"issued at a return",
    meaning: b"The method ends, and the request of its object may be issued and not set active.",
    remedy: b"setactive on each way after issue or hand, also where there was no room for the token.",
};

pub(crate) const STILL_ACTIVE: Explanation = Explanation {
    name: b"still active",
    meaning: b"A destructor ends, and the request of its object may be active.",
    remedy: b"cancel first of all in the destructor; it does nothing where nothing is active.",
};

pub(crate) const NOT_CANCELLED: Explanation = Explanation {
    name: b"not cancelled",
    meaning: b"A cancel method ends, and it is not sure that its request is done: cancel waits for that, and would wait for ever.",
    remedy: b"abort in the cancel method, on each way.",
};

pub(crate) const MESSAGE_AT_LEAVE: Explanation = Explanation {
    name: b"message at a leave",
    meaning: b"The instruction may leave, and the service has taken its message, so that no code of the leave could reach the client.",
    remedy: b"Do what may leave before takemsg, or under a trap; behind it reply with the code.",
};

pub(crate) const MESSAGE_AT_RETURN: Explanation = Explanation {
    name: b"message at a return",
    meaning: b"A service method ends and has not taken its message, or ways come together here on which it is taken and is not.",
    remedy: b"takemsg on each way, and reply to it or keep it in a field; leave where it is to be completed with a code and nothing else.",
};

pub(crate) const NOT_ADDED: Explanation = Explanation {
    name: b"not enlisted",
    meaning: b"issue or hand, and the object may not be enlisted; or enlist, and it may be.",
    remedy: b"enlist once, in the construct method, before the first issue or hand; or ask by jadded.",
};

pub(crate) const ENTRY_STATE: Explanation = Explanation {
    name: b"wrong state",
    meaning: b"A method is called, or ends, while its object may be in a request state in which it may not begin or end; or abort, and the request may be in no cancel.",
    remedy: b"Declare the states in which the method begins and ends, or bring the request into them before: setactive, cancel. abort belongs into the cancel method.",
};

pub(crate) const QUIET_BROKEN: Explanation = Explanation {
    name: b"quiet broken",
    meaning: b"A quiet method makes an object, sets a trap, or calls a method that is not quiet. Destruct and undo methods are always quiet.",
    remedy: b"Do it in another method, before; or take quiet away where the role leaves it free.",
};
