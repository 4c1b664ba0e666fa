//! As what an object counts.
ghost use Rattle.std.specs.Prelude.{◌≡◌};
ghost use Rattle.aom_frames.specs.Views.{above, class_above, own};

use aom_image::ClassNumber;

/// As what the object of a method counts, where a call on it looks for the method to run: its own class, or a class above it, whose
/// destructor runs.
#[derive(Clone, Copy)]
pub struct View {
    is_above: bool,
    /// A plain number, as a cell has it.
    class: u8,
}

impl View {
    /// Its own class.
    pub fn own() -> View
        ensures { result ≡ own }
    {
        View {
            is_above: false,
            class: 0,
        }
    }

    /// That class, which stands above its own.
    pub fn above(class: ClassNumber) -> View
        ensures { result ≡ above class }
    {
        View {
            is_above: true,
            class: class.number() as u8,
        }
    }

    /// The class above its own, if it counts as one.
    pub fn class(self) -> Option<ClassNumber>
        ensures { result ≡ class_above self }
    {
        if self.is_above {
            Some(ClassNumber::new(u16::from(self.class)).unwrap())
        } else {
            None
        }
    }
}
