//! The machine with its natives, and the buffer that takes its lines.

pub use aom_machine::Progress;
pub use aom_machine_state::LineBuffer;
pub use aom_natives::BootFault;
pub use aom_run::HostedMachine;
