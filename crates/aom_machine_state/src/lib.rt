//! The parts of the machine, which are all that changes in it, and what they stand for.
//!
//! Its values are plain numbers. A register, a field or an entry holds a word, the number of a cell or of a message, or the reserved
//! null, and nothing in it says which. Here are the reads and writes of one place, and no instruction. `Stands` of
//! `specs/Stands.antt` says for which states of the checked machine the parts stand. All memory is taken by
//! `Parts::boot`: no later call has an allocator.
//!
//! A `LineBuffer` has room for every line that one call of the machine can write, and the numbers of the requests that are to be
//! refused. After `LineBuffer::new` it takes no memory either.
#![tactic(auto)]

mod counters;
mod fields;
mod line_buffer;
mod parts;
mod progress;
mod refusals;
mod registers;
mod stores;

pub use counters::Counters;
pub use line_buffer::LineBuffer;
pub use parts::Parts;
pub use progress::Progress;
