//! A script beside a source: with comments, and with names in place of numbers.
//!
//! `plain_script` answers the script that it stands for, line by line, so that a fault's line is that of both. It knows no source: names and their numbers are
//! given.
#![tactic(auto)]

mod naming;
mod reading;

pub use naming::ScriptName;
pub use reading::plain_script;
