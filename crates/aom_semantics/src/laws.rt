//! The closed cases, each as the contract of a function that does nothing.
ghost use Rattle.aom_semantics.specs.Cases.Words.{WordNeedsFail};
ghost use Rattle.aom_semantics.specs.Cases.Objects.{ObjectNeedsFail};
ghost use Rattle.aom_semantics.specs.Cases.Calls.{CallNeedsFail};
ghost use Rattle.aom_semantics.specs.Cases.Returns.{ReturnNeedsFail};
ghost use Rattle.aom_semantics.specs.Cases.Cleanup.{CleanupNeedsFail};
ghost use Rattle.aom_semantics.specs.Cases.Requests.{RequestNeedsFail};
ghost use Rattle.aom_semantics.specs.Cases.Natives.{NativeNeedsFail};
ghost use Rattle.aom_semantics.specs.Cases.Moves.{MoveNeedsFail};
ghost use Rattle.aom_semantics.specs.Cases.Servers.{ServerNeedsFail};
ghost use Rattle.aom_semantics.specs.Cases.Turns.{TurnNeedsFail};
ghost use Rattle.aom_semantics.specs.Cases.Left.{MovesLeave};
ghost use Rattle.aom_semantics.specs.Cases.Events.{EventNeedsFail};
ghost use Rattle.aom_semantics.specs.Cases.Owners.{OwnerNeedsFail};
ghost use Rattle.aom_semantics.specs.Cases.Constructs.{ConstructsRun};
ghost use Rattle.aom_semantics.specs.Cases.Families.{LinesRun, OverridersRun};
ghost use Rattle.aom_semantics.specs.Cases.Further.{ServersRun};
ghost use Rattle.aom_semantics.specs.Cases.Tokens.{TokenNeedsFail, TokensRun};

/// Each need of an instruction on words fails where its case says so.
pub fn word_needs_fail()
    ensures { WordNeedsFail }
{}

/// Each need of an instruction on objects fails where its case says so.
pub fn object_needs_fail()
    ensures { ObjectNeedsFail }
{}

/// Each need of a call or a trap fails where its case says so.
pub fn call_needs_fail()
    ensures { CallNeedsFail }
{}

/// Each need of a return fails where its case says so.
pub fn return_needs_fail()
    ensures { ReturnNeedsFail }
{}

/// Each need of an instruction on the cleanup stack, or of a leave, fails where its case says so.
pub fn cleanup_needs_fail()
    ensures { CleanupNeedsFail }
{}

/// Each need of an instruction on the request of an object fails where its case says so.
pub fn request_needs_fail()
    ensures { RequestNeedsFail }
{}

/// Each need of an instruction at a native fails where its case says so, and what is found is what it answers.
pub fn native_needs_fail()
    ensures { NativeNeedsFail }
{}

/// Each need of the moves that are no instruction fails where its case says so.
pub fn move_needs_fail()
    ensures { MoveNeedsFail }
{}

/// What a move leaves: which methods are at hand, who owns what, and whose messages are.
pub fn moves_leave()
    ensures { MovesLeave }
{}

/// A turn does what its examples say, and a stray signal is stuck.
pub fn turn_needs_fail()
    ensures { TurnNeedsFail }
{}

/// Events and natives come in their order, and leave what their examples say.
pub fn event_needs_fail()
    ensures { EventNeedsFail }
{}

/// Places that do not own are no owners.
pub fn owner_needs_fail()
    ensures { OwnerNeedsFail }
{}

/// Each need of an instruction on messages, of a server's dispatch and of its going fails where its case says so, and its queue signals.
pub fn server_needs_fail()
    ensures { ServerNeedsFail }
{}

/// As an object goes the destructors of its class and of those above run in a line, as these runs write.
pub fn lines_run()
    ensures { LinesRun }
{}

/// A call runs the overrider of what its object counts as, as these runs write.
pub fn overriders_run()
    ensures { OverridersRun }
{}

/// A construct calls its parent's on its own object while the parent's fields are empty, as these runs write.
pub fn constructs_run()
    ensures { ConstructsRun }
{}

/// Each need of an instruction that hands out a token, and of a reply to one, fails where its case says so.
pub fn token_needs_fail()
    ensures { TokenNeedsFail }
{}

/// Tokens are handed out, become void and are replied to as these runs write.
pub fn tokens_run()
    ensures { TokensRun }
{}

/// Runs with servers and clients write, line by line, what their examples say.
pub fn servers_run()
    ensures { ServersRun }
{}
