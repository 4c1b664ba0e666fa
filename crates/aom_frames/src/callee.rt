//! Whom a call reaches.
ghost use Rattle.std.specs.Prelude.{◌≡◌};
ghost use Rattle.aom_frames.specs.Tasks.{begun};

use crate::{Frame, View};
use aom_image::MethodNumber;

/// The method that is called, the cell that it works on, or null, and as what that counts.
#[derive(Clone, Copy)]
pub struct Callee {
    pub method: MethodNumber,
    pub this: u32,
    pub view: View,
}

impl Callee {
    /// The frame in which it begins.
    pub(crate) fn begin(self) -> Frame
        ensures { result ≡ begun self }
    {
        Frame::begin(self.method, self.this).counting_as(self.view)
    }
}
