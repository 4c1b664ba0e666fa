//! The stack of what is at hand: methods, traps, destructions, the sessions that go before a server,
//! leaves and dispatches, the innermost on top.
//!
//! A `Frame` is where a method stands, its sixteen registers and the counters of its loops: plain numbers, with nothing
//! that tells a word from the number of a cell. Registers begin with null. `Tasks::with_depth` takes all the memory that
//! the stack will ever have, so that `push` asks for room and answers nothing: an array of what each task is (`TaskKinds`),
//! and one of the frames of those that are methods (`Frames`), in which a frame begins where it will stand. Contracts see a list with the innermost
//! task first (`Stack` of `specs/Tasks.antt`), and each write as a change of the frame on top. Instructions on
//! words need no more than their method's frame, so they are run here, as many as come next (`Works` and `Worked` of
//! `specs/Words.antt`). It is told where a method goes on.
//!
//! `Cleanup` has the objects and operations that a leave deals with, and a mark for each trap that is set. Contracts see a
//! list with the last item first (`Stack` of `specs/Items.antt`), and each call as one change at its top: entries come and
//! go above the last mark alone, and `pop` never takes a mark. `Cleanup::with_depth` takes all its memory. This crate knows
//! no cells but by their numbers: what is done with an entry that is taken off is the machine's concern.
#![tactic(auto)]

mod callee;
mod cleanup;
mod dispatch;
mod frame;
mod frames;
mod item;
mod kinds;
mod task;
mod tasks;
mod view;
mod words;

pub use callee::Callee;
pub use cleanup::Cleanup;
pub use dispatch::{Dispatch, Stage, Subject};
pub use frame::Frame;
pub use item::Item;
pub use task::{Task, TaskKind};
pub use tasks::Tasks;
pub use view::View;
pub use words::is_on_words;
