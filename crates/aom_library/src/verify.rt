//! The verifier, and what an image or a script has that nobody may have wanted.

pub use aom_script_warnings::{NoServer, script_warnings};
pub use aom_verify::{Checked, Refusal, Stop, check, stop_of};
pub use aom_warnings::{Warning, warnings};
