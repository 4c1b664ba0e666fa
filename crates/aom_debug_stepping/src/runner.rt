//! A machine that moves under a script.
use aom_debug_protocol::History;
use aom_machine_state::LineBuffer;
use aom_run::HostedMachine;
use aom_script::Script;
use aom_transcript::Page;

/// A machine under a script, with all that its moves write to.
#[derive(Drop)]
pub struct Runner<'a> {
    pub machine: HostedMachine<'a>,
    pub script: Script,
    /// The most dispatches after main's.
    pub limit: u32,
    pub lines: LineBuffer,
    pub page: Page,
    /// The latest instructions.
    pub recent: History,
}
