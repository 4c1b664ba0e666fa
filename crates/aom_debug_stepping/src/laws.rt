//! That a debugger's moves are those of a run.
ghost use Rattle.aom_debug_stepping.specs.RunGoalLaws.{RunGoalsRun, GoingRuns, OverRuns, StepsRun, TurnsRun};
ghost use Rattle.aom_debug_stepping.specs.Laws.{ArrivesRun, DebugStepsMove};

/// However a debugger goes on, that is a run, with the same lines; so one that goes on by commands tells what a run tells.
pub fn run_goals_are_a_run()
    ensures steps { StepsRun }
    ensures turns { TurnsRun }
    ensures goes { GoingRuns }
    ensures over { OverRuns }
    ensures run_goals { RunGoalsRun }
{}

/// A debugger's step is moves of the checked machine, and what it takes until something is at hand is a run, each with the same lines; so one that goes on
/// by these tells what a run tells.
pub fn moves_are_a_run()
    ensures debug_steps { DebugStepsMove }
    ensures arrives { ArrivesRun }
{}
