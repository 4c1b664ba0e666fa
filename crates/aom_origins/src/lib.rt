//! Where what is known at a refused place comes from: the one place whose instruction made it so.
//!
//! `needed_subject` tells what a need is about that is not met: a register, a field, the request or the message. `find_origin`
//! looks at the states that the verifier had found when it stopped: it answers the place whose state has the subject otherwise and
//! leads to none but such as have it as it is, if that is one place alone and the method does not begin so
//! (`specs/Origins.antt`). `find_need_origin` asks both. Nothing here knows how that is told.
#![tactic(auto)]

mod edges;
mod origin;
mod subject;

pub use origin::{find_need_origin, find_origin};
pub use subject::{Subject, needed_subject};
