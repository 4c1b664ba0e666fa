//! One call for each command, over the bytes of files and two sinks, and the command line.

pub use aom_command_line::{RunWords, TriesWords, Words, WordsFault, read_words};
pub use aom_commands::{
    ExitStatus, Fault, Translation, accept_bytes, assemble_bytes, check_bytes, explore_bytes,
    explore_bytes_with, prices_bytes, report, run_bytes, translate_bytes, try_check, try_run,
};
pub use aom_debug::debug_bytes;
pub use aom_diagnostic_commands::{
    Program, Telling, asm, check, check_all, debug, dot, explore, explore_with, run, warn,
    warn_script,
};
pub use aom_fault_injection::{ExpectedEnding, ExploreOptions, Part, Tries};
