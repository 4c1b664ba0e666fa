//! The laws, each as the contract of a function that does nothing.
ghost use Rattle.aom_termination.specs.RankLaws.{MovesLowerRanks, RanksBoundMoves, CellsStandOrGo};
ghost use Rattle.aom_termination.specs.Leaves.{LeavesCome};
ghost use Rattle.aom_termination.specs.Runs.{TypedRunsWell};
ghost use Rattle.aom_termination.specs.Laws.{BootWithin, MovesPay, StepsWithin, TurnsPay};

/// A move of a well-typed state lowers its rank, whatever the choice.
pub fn moves_lower_ranks()
    ensures { MovesLowerRanks }
{}

/// Each dispatch ends: a rank falls no further than to nothing.
pub fn ranks_bound_moves()
    ensures { RanksBoundMoves }
{}

/// The code of a leave arrives, whatever is left free.
pub fn leaves_come()
    ensures { LeavesCome }
{}

/// So the rank can be told by who knows the tasks and how many cells live, and no owners.
pub fn cells_stand_or_go()
    ensures { CellsStandOrGo }
{}

/// The whole of a run: it never goes wrong, each dispatch ends, and leaves, traps and loops are what they are to be.
pub fn typed_runs_well()
    ensures { TypedRunsWell }
{}

/// A run begins with main's price before it.
pub fn boot_within()
    ensures { BootWithin }
{}

/// A step is paid for by what it leads on from, and what is no step costs nothing; as the dispatch of an object ends,
/// main's price pays for the root's destruction.
pub fn moves_pay()
    ensures { MovesPay }
{}

/// A turn that dispatches an object begins with the price of its class, and any other costs nothing.
pub fn turns_pay()
    ensures { TurnsPay }
{}

/// Each dispatch takes at most its declared number of steps.
pub fn steps_within()
    ensures { StepsWithin }
{}
