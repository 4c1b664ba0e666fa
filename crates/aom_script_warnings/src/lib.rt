//! Lines of a script that nobody may have wanted: a client connects to a class that is no server.
//!
//! `script_warnings` answers just those of `specs/Warned.antt`, in the order of the lines. Nothing here asks whether the script is one that a run
//! takes, or knows how a warning is told.
#![tactic(auto)]

mod warned;

pub use warned::{NoServer, script_warnings};
