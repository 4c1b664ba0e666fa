//! Where an instruction stands.
ghost use Rattle.std.specs.Prelude.{◌≡◌};
ghost use Rattle.aom_debug_protocol.specs.Marks.{same_spot};

/// The place of an instruction in a method, by their numbers.
#[derive(Clone, Copy)]
pub struct CodeLocation {
    pub method: u16,
    pub place: usize,
}

impl CodeLocation {
    pub fn is(self, other: CodeLocation) -> bool
        ensures { result ≡ same_spot self other }
    {
        self.method == other.method && self.place == other.place
    }
}

impl Default for CodeLocation {
    /// For the room that is not taken yet.
    fn default() -> CodeLocation {
        CodeLocation {
            method: 0,
            place: 0,
        }
    }
}
