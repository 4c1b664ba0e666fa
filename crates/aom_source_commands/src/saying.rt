//! What is said of each fault: a sentence and a mend. `$` stands for what it is about, `@` for what stands beside that.
use aom_source_program::FaultKind;

/// A sentence, and what mends it.
#[derive(Clone, Copy)]
pub struct Saying {
    pub sentence: &'static str,
    pub mend: &'static str,
}

fn say(sentence: &'static str, mend: &'static str) -> Saying {
    Saying { sentence, mend }
}

/// What is said of a fault.
pub fn said_of(kind: FaultKind) -> Saying {
    match kind {
        FaultKind::Syntax => say("this cannot stand here", ""),
        FaultKind::DoubleName => say("`$` is declared already", "take another name"),
        FaultKind::UnknownName => say("there is no `$` here", "declare it, or mend its spelling"),
        FaultKind::NumberRange => say(
            "the number is out of its range",
            "a word has 32 bits; there are at most 4096 cells, 1024 messages, 16 natives and 64 sessions of a server",
        ),
        FaultKind::NumberWanted => say(
            "a number or a const is wanted here",
            "declare a `const`, or write the number",
        ),
        FaultKind::BadRounds => say(
            "a loop has 1 to 65535 rounds",
            "say fewer rounds, or put a loop into a loop",
        ),
        FaultKind::Unreachable => say(
            "no way leads here",
            "take it out, or mend what ends before it",
        ),
        FaultKind::NoLoop => say("this stands in no loop", "put it into one"),
        FaultKind::LoopsTooDeep => say(
            "at most four loops lie in each other",
            "make a method of the inner ones",
        ),
        FaultKind::TooManyLocals => say(
            "more than 16 registers are wanted here, for locals and what is being computed",
            "end some locals in a block of their own, or make a method of a part",
        ),
        FaultKind::TooManyParameters => say(
            "`$` has more parameters than a method may have",
            "put some into words of the object",
        ),
        FaultKind::TooManyMethods => say(
            "`$` is one method more than an image may have: 1024, with those that are added",
            "join some methods, or make a program of a part",
        ),
        FaultKind::MethodTooLong => say(
            "`$` has more than the 1024 instructions that a method may have",
            "make a method of a part of it",
        ),
        FaultKind::ProgramTooLong => say(
            "the assembly text of this source has more than 1 MiB",
            "make a program of a part",
        ),
        FaultKind::Internal => say(
            "the translator has a fault of its own here",
            "tell its authors, with the source",
        ),
        FaultKind::OutOfMemory => say("there is no memory", ""),
        FaultKind::ClassCycle => say(
            "`$` would come before itself: it owns its like, perhaps through others, or descends from itself",
            "make a chain of several classes",
        ),
        FaultKind::WrongParent => say(
            "`$` is of another kind than its parent `@`, or of a kind that has no parent",
            "give both one kind",
        ),
        FaultKind::HiddenMethod => say(
            "a parent has a method `$` already",
            "write `override fn`, or take another name",
        ),
        FaultKind::OverridesNothing => say(
            "no parent has a method `$`",
            "write `fn`, or mend its name",
        ),
        FaultKind::OtherSignature => say(
            "`$` takes or gives something else than what it overrides",
            "give both the same parameters and result",
        ),
        FaultKind::MissingRun => say(
            "`$` waits for requests, and has no `run`",
            "write `run { .. }` in it",
        ),
        FaultKind::MissingService => say(
            "`$` is a session, and has no `service`",
            "write `service(..) { .. }` in it",
        ),
        FaultKind::WrongRole => say(
            "a class as `@` has no `$`",
            "take it out, or declare another kind of class",
        ),
        FaultKind::TooManyFields => say(
            "`$` has more than 8 words or 8 owning fields",
            "put some into an object of their own",
        ),
        FaultKind::TooManyClasses => say(
            "`$` is one class more than an image may have: 256",
            "join some classes, or make a program of a part",
        ),
        FaultKind::TooManyServers => say(
            "`$` is one server more than an image may have: 8",
            "let one server do what two do",
        ),
        FaultKind::NameTooLong => say(
            "`$` has more than the 32 letters that the name of a class may have",
            "take a shorter name",
        ),
        FaultKind::NoMain => say("there is no `main { .. }`", "write one"),
        FaultKind::OwnerAsWord => say(
            "`$` owns something, and a word is wanted here",
            "call a method of it that gives a word",
        ),
        FaultKind::WordAsOwner => say(
            "`$` is a word, and something owned is wanted here",
            "give an object or a message",
        ),
        FaultKind::ConditionAsWord => say("a condition is no word", "write `if`"),
        FaultKind::NoCondition => say("a condition is wanted here", "compare it: `x != 0`"),
        FaultKind::WrongKind => say(
            "`$` is not of the kind that is wanted here",
            "see which kind of class has this",
        ),
        FaultKind::WrongClass => say(
            "this is a `$`, and a `@` is wanted",
            "give one of that class",
        ),
        FaultKind::WrongArguments => say(
            "`$` takes another number of arguments",
            "see its parameters",
        ),
        FaultKind::WrongCall => say(
            "`$` is no method to call",
            "`defer` runs an `undo`, and main is called by nobody",
        ),
        FaultKind::WrongResult => say(
            "`$` gives nothing",
            "say what it gives: `-> word`, or return nothing",
        ),
        FaultKind::NoResult => say(
            "`$` gives something, and this way ends without",
            "return it on each way",
        ),
        FaultKind::WrongSuper => say(
            "`super(..)` stands in a construct whose parent has one, and a call of a method runs its nearest overrider",
            "move what both do into a method of another name",
        ),
        FaultKind::WrongTrap => say(
            "a trap stands before a call or a `new`",
            "make a method of what is to be trapped",
        ),
        FaultKind::MaybeParameter => say(
            "`$` owns something surely: a parameter may not be null",
            "test it before the call",
        ),
        FaultKind::MayBeNull => say(
            "`$` may be null or empty here, and something is wanted that is there",
            "test it: `if $ { .. }`",
        ),
        FaultKind::Moved => say(
            "`$` has been moved or deleted, on some way to this place",
            "move it last, or make another one",
        ),
        FaultKind::MovedInLoop => say(
            "`$` is moved or deleted in a round of this loop, and would be wanted in the next",
            "give it another value in the round, or break",
        ),
        FaultKind::OwnerDropped => say(
            "`$` gives something that is owned, and nobody takes it",
            "write `let x = ..`",
        ),
        FaultKind::FieldMoved => say("the field `$` is moved away by `take $`", "write `take $`"),
        FaultKind::OwnerIntoMaybe => say(
            "`maybe new $` with an argument that owns: it would be left over where nothing is made",
            "give it by a call afterwards",
        ),
        FaultKind::NoTestNeeded => say(
            "`$` is known here: it owns surely, or is null",
            "take the test out",
        ),
        FaultKind::NoNullHere => say(
            "there is no null to be had here",
            "return what may be null itself, after a test",
        ),
        FaultKind::ReturnInDestruct => say(
            "a `return` would pass over `$`, which is emptied at the end of a destruct",
            "go on by `if` and `else`",
        ),
        FaultKind::MessageLost => say(
            "`$` may still own a message here",
            "reply to it, keep it in a field, or hand it on, on each way",
        ),
        FaultKind::MessageOnOneWay => say(
            "one way to this place has given a message away, and another has not",
            "reply to it or keep it on both ways",
        ),
        FaultKind::MessageNotTaken => say(
            "the service ends here, and its message is not taken: a client would wait for ever",
            "reply to `message`, keep it, or leave",
        ),
        FaultKind::MessageTakenTwice => say(
            "the message is taken already, on each way to this place",
            "keep it in a local",
        ),
        FaultKind::MessageAtLeave => say(
            "`$` may leave or be lost at a leave here, and a message is held: no code could reach the client",
            "do it before `message` is taken, or under a trap",
        ),
        FaultKind::FieldFull => say(
            "`$` may still own something here, which cannot be deleted",
            "ask by `if $`, and reply to that one first",
        ),
        FaultKind::MayNotLeave => say(
            "`$` may leave, and `@` may not",
            "trap it, or take `maybe new` for `new`",
        ),
        FaultKind::MaybeAtLeave => say(
            "`@` may leave, and `$` may own something: what may be null cannot be guarded",
            "test it: `if $ { .. }`",
        ),
        FaultKind::TwoOwnersAtLeave => say(
            "`@` may leave while `$` is in no place from which a leave would delete it: it came there beside another owner",
            "put it in a field, or move what may leave before it",
        ),
        FaultKind::GuardOrder => say(
            "what is wanted here lies below something on the cleanup stack that still stands",
            "end the block of the `defer` before",
        ),
        FaultKind::NotEnlisted => say(
            "a request is made here, and the object may not be enlisted yet",
            "`enlist` it in its construct, or ask by `if enlisted`",
        ),
        FaultKind::AlreadyActive => say(
            "a request is made here, and the last one may not be over",
            "ask by `if active`, or `cancel` before",
        ),
        FaultKind::AlreadyEnlisted => say(
            "the object may be enlisted already",
            "`enlist` once, in its construct",
        ),
        FaultKind::WrongState => say(
            "`$` cannot begin while the request is as it may be here",
            "ask by `if active` or `if enlisted`, or `cancel` before",
        ),
        FaultKind::NotQuiet => say(
            "`$` makes nothing and traps nothing, and `@` does",
            "do it in another method, before",
        ),
        FaultKind::Recursion => say(
            "no method may come to itself, by calls or by destructors: `$` does",
            "use a loop",
        ),
    }
}
