//! The requests of active objects, and who is next: the objects in the order in which they are picked, and the timers in the order in which they are due.
//!
//! `Schedule` lists objects by falling priority, among equals the first enlisted first, and `next_ready` is the first that is ready
//! (`first_ready` of `specs/PriorityList.antt`; `IsPick` says what that means). `Timers` lists timers by due time, among equals by issue.
//! A change is one equation on the list, by `placed`, `without` or `marked`; an object has one entry and one timer at most.
//! `with_limit` takes all the memory that either ever takes, and no other call can fail. A pick is one look, a mark a binary search
//! among those that are ready. What comes in or goes is found by a binary search and moves the entries of the shorter side alone: the
//! first and the last move none.
//! This crate knows nothing of programs, and of cells only their numbers: why an object is ready is the machine's concern.
//!
//! `Requests` has a request for each object that is enlisted, with a state and a status (TRequestStatus), and the signals of those that
//! are completed; a server's is for messages, and always stands. Contracts see a finite map from numbers to requests (`Table` of
//! `specs/Requests.antt`), and each call as a change at one number (`Changes`). How many signals there are follows from the requests
//! alone (`signals`), and the counter says just that after every call. So one call, `wait_for`, takes a signal and makes the object idle.
#![tactic(auto)]

mod entry;
mod key;
mod order;
mod request;
mod requests;
mod schedule;
mod timer;
mod timers;

pub use entry::ScheduleEntry;
pub use request::{PENDING, RequestState};
pub use requests::Requests;
pub use schedule::Schedule;
pub use timer::Timer;
pub use timers::Timers;
