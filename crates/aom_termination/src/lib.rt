//! That each dispatch comes to its end, and within its declared number of steps: what it may still cost falls with each step.
//!
//! Promises: in a linked image with a typing and a table of prices that pays for each move of that typing, the steps
//! so far and all that may still come (`left` of `specs/Left.antt`) never grow, until the dispatch of an object begins
//! or ends, where steps are counted anew. So where main's price, with the root's destruction, is within what the image
//! declares, and the price of each class of active objects or of servers within what the class declares, no dispatch takes
//! more steps than its payer declares (`specs/BudgetOwners.antt`). It is about any such table, and says nothing of how one is found.
//!
//! Without any price a run does not go on for ever within a dispatch: a rank (`specs/Ranks.antt`) falls with each move.
//! A move of a well-typed state of a linked image, while something is at hand, leads to a state of lower rank, whatever
//! is left free. The rank is a number of the state, made of the methods, places and counters at hand and of the cells;
//! the typing is no part of it. It is no bound on what a dispatch costs. With it `RunsWell` of `specs/Runs.antt` says
//! the whole of a run: it never goes wrong, and each dispatch and each leave comes to its end.
#![tactic(auto)]

mod laws;

pub use laws::{
    boot_within, cells_stand_or_go, leaves_come, moves_lower_ranks, moves_pay, ranks_bound_moves,
    steps_within, turns_pay, typed_runs_well,
};
