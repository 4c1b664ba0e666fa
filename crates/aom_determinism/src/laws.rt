//! The laws, each as the contract of a function that does nothing.
ghost use Rattle.aom_determinism.specs.Determined.{AllStaysThere, EachRunFollows, MovesStayAlike, NamesMeanNothing, NothingIsObserved, TextIsDetermined, TurnsStayAlike};
ghost use Rattle.aom_determinism.specs.Laws.{BootOwesNothing, MovesFollowCalls, TurnsKillOrComplete, RunsKeepSessions, OwesAtOne};
ghost use Rattle.aom_determinism.specs.Endings.{DispatchesAreSpent, RunsCanEnd};

/// A state moves under other names as it moves under its own, and writes the same; so it does with a turn between dispatches.
pub fn names_mean_nothing()
    ensures { NamesMeanNothing }
{}

/// What clients and the dispatch at hand say is of cells that are there, in each state of a run.
pub fn all_stays_there()
    ensures { AllStaysThere }
{}

/// Two states that are the same but for names move on to two that are, with the same lines.
pub fn moves_stay_alike()
    ensures { MovesStayAlike }
{}

/// So they do with a turn, where a native that is polled completes the same for both, and each has a free name for what the turn makes.
pub fn turns_stay_alike()
    ensures { TurnsStayAlike }
{}

/// Two runs of one image that hear the same of natives write one text and end alike, whatever names their cells have.
pub fn text_is_determined()
    ensures { TextIsDetermined }
{}

/// Each run follows an oracle: what it heard of natives, by its moves and turns.
pub fn each_run_follows()
    ensures { EachRunFollows }
{}

/// Where no native serves a class of the image, all its runs hear the same of natives.
pub fn nothing_is_observed()
    ensures { NothingIsObserved }
{}

/// As a run begins nothing is outstanding.
pub fn boot_owes_nothing()
    ensures { BootOwesNothing }
{}

/// What is outstanding after a move is told by the call that it makes and by the answer.
pub fn moves_follow_calls()
    ensures { MovesFollowCalls }
{}

/// What is outstanding after a turn is told by what the turn does.
pub fn turns_kill_or_complete()
    ensures { TurnsKillOrComplete }
{}

/// In each state of a run what is outstanding is so in a session, and sessions are with natives that live.
pub fn runs_keep_sessions()
    ensures { RunsKeepSessions }
{}

/// A cell is served by one native, and owes there.
#[tactic(auto, using(crate::proofs::Cells::owes_at_one))]
pub fn owes_at_one()
    ensures { OwesAtOne }
{}

/// No move makes more dispatches possible, and the pick of an object takes one.
pub fn dispatches_are_spent()
    ensures { DispatchesAreSpent }
{}

/// A run can be brought to an end from where it has come.
pub fn runs_can_end()
    ensures { RunsCanEnd }
{}
