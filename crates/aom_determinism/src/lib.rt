//! How a run goes on and ends, told by the checked machine alone: what is outstanding at natives, that there is an end, and that its
//! text is determined.
//!
//! The checked machine knows natives by their numbers: of each cell it says whether its session is open and whether its
//! request is outstanding. Before each move it is known what the move asks of a native (`wanted` of `aom_semantics`). This
//! crate promises that what is outstanding, and what sessions are open, change by that call and its answer alone, and
//! between dispatches by kills and completions alone; and that what is outstanding is so in an open session with a
//! native that lives. It knows no native itself.
//!
//! Each run of an accepted image that has come so far goes on to an end, whatever has happened by then (`RunsCanEnd`). Three
//! numbers fall: the dispatches that there may still be, the rank of what is at hand, and between dispatches the timers that run, the
//! events to come and the natives to poll. So what a sink has received of a run that it cut short is a beginning of a whole transcript.
//!
//! The checked machine leaves open which free name a new cell gets, and what natives say. Nothing that a run writes depends on the
//! names, of objects and of messages alike: what a state does it does under other names too, and two runs of one image in the same
//! environment that hear the same of natives have the same lines and the same ending. Where no native serves a class of the image any
//! two runs do.
//! It knows nothing of a machine. Each law is the contract of a public function with an empty body.
#![tactic(auto)]

mod laws;

pub use laws::{
    all_stays_there, boot_owes_nothing, dispatches_are_spent, each_run_follows, moves_follow_calls,
    moves_stay_alike, names_mean_nothing, nothing_is_observed, owes_at_one, runs_can_end,
    runs_keep_sessions, text_is_determined, turns_kill_or_complete, turns_stay_alike,
};
