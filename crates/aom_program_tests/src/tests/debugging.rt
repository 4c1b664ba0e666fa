//! Debugger sessions: readers that fail or give a byte at a time, outputs that fail, and memory that is refused.

mod programs;
mod readers;
mod sessions;
mod sessions_memory;
