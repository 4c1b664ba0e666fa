//! The active objects of a machine: what each waits for, the order in which they are picked, and their timers.
//!
//! `ActiveObjects` keeps three parts of `aom_scheduler` together: requests, schedule and timers. Each object with a request has an entry in
//! the schedule, which is ready as its request is; a timer runs only for a request that is pending (`IsWhole` of `specs/Agrees.antt`). Contracts
//! see the three models (`Active`), and each call says what it makes of the requests of the checked machine that they stand for
//! (`StandsFor`, and `specs/Meanings.antt`): each is one change at one number, and the timer that is due first and the object that is
//! picked are the checked machine's. `with_limit` takes all the memory that is ever taken, and no other call can fail.
//! This crate touches nothing but its own three parts. It knows no programs, and of cells only their numbers: what makes a request, and
//! what runs once an object is picked, is the machine's concern; of a server it is told whether something waits in its queue.
#![tactic(auto)]

mod active;
mod laws;
mod parts;

pub use active::ActiveObjects;
pub use laws::status_is_determined;
