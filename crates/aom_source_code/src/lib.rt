//! The instructions that a method is translated to, with labels, with the place in the source of each, and with the names of locals.
//!
//! It knows neither what an instruction needs nor what is known where it stands.
#![tactic(auto)]

mod code;
mod line;
mod operation;

pub use code::{Code, LabelId, NamedRegister};
pub use line::{Line, Note, Operand, Reason};
pub use operation::Operation;
