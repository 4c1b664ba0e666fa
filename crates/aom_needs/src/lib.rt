//! What a refused instruction needs, as a sentence: the operand, what is wanted of it and what is there.
//!
//! `Wanted` is a need as data. `specs/Asked.antt` lists those of each instruction, in the order in which its rule looks at them, of three
//! reasons: a wrong kind, a request that is still active, and a wrong state of one. That these are just the rule's needs of these reasons,
//! each about the operand that the rule looks at, is the law `needs_are_told`. `write_needed` writes the sentence of the first that is not met,
//! as `specs/Sentences.antt` says, and `first_needed` answers it. Nothing here decides whether an instruction is refused, nor for what reason.
#![tactic(auto)]

mod asked;
mod classes;
mod laws;
mod methods;
mod needed;
mod owners;
mod sentences;
mod states;
mod unmet;
mod wanted;

pub use laws::needs_are_told;
pub use needed::{first_needed, write_needed};
pub use wanted::{ClassNeed, Operand, Wanted};
