//! The versions of the image format.
ghost use Rattle.std.specs.Prelude.{◌≡◌, ◌≤◌};
ghost use Rattle.aom_instructions.specs.Versions.{includes, has_families, family_bytes};

/// Which of the two formats an image has.
#[derive(Clone, Copy)]
pub enum Version {
    One,
    /// Its classes may have parents, its methods may override others, and its objects may hand out tokens.
    Two,
}

impl Version {
    /// Whether what is there from that version on is there in this one.
    pub fn includes(self, since: Version) -> bool
        ensures { result ≡ includes self since }
    {
        match (self, since) {
            (Version::One, Version::Two) => false,
            (Version::One, Version::One) | (Version::Two, _) => true,
        }
    }

    /// Whether an image of that version may have parents and overriders.
    pub fn has_families(self) -> bool
        ensures { result ≡ has_families self }
    {
        self.includes(Version::Two)
    }

    /// How many bytes of a class and of a method tell of families.
    pub fn family_bytes(self) -> usize
        ensures value { result ≡ family_bytes self }
        ensures small { result ≤ 4 }
    {
        match self {
            Version::One => 0,
            Version::Two => 4,
        }
    }
}
