//! What can befall a run, and what of it `explore` tries.
//!
//! An `Injection` is what happens to a run beside what its script says: requests that are refused, a native that is killed, a client that dies. It
//! has the words by which a script says the same, and makes of a script the one with these words (`injected` of `specs/Injections.antt`). A `Plan`
//! has those that are tried, in their order (`planned` of `specs/Planned.antt`), by what the run without them asks for and when it does something.
//! A `OutcomeCounts` counts how runs ended, an `ExpectedEnding` says how one may (`specs/Expected.antt`), and `ExploreOptions` have all that a call is
//! asked. Nothing here makes a run.
#![tactic(auto)]

mod expected;
mod injection;
mod options;
mod outcome_counts;
mod plan;
mod times;
mod tries;

pub use expected::{ExpectedEnding, is_unexpected, mark_of};
pub use injection::{Injection, InjectionText, KillTarget};
pub use options::ExploreOptions;
pub use outcome_counts::{Closing, OutcomeCounts};
pub use plan::Plan;
pub use times::times_of;
pub use tries::{Part, Tries};
