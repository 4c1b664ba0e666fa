//! The stack of what is at hand: frames, traps, destructions, leaves, dispatches.

pub use aom_frames::{Callee, Dispatch, Frame, Stage, Subject, Task, TaskKind, Tasks, View};
