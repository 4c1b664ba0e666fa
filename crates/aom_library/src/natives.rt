//! Boxed natives by number, the trait that they keep, and three types that keep it.

pub use aom_natives::{Counter, Delay, Line, Native, NativeKind, Natives};
