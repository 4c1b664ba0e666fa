//! The numbers of classes and methods, by their indices.
ghost use Rattle.std.specs.Prelude.{◌≡◌, ◌<◌};

use aom_image::{ClassNumber, FieldIndex, MethodNumber};

/// The number of the class at an index.
pub fn class_number(index: usize) -> ClassNumber
    requires { index < 256 }
    ensures { result ≡ index }
{
    ClassNumber::new(index as u16).unwrap()
}

/// The number of the method at an index.
pub fn method_number(index: usize) -> MethodNumber
    requires { index < 1024 }
    ensures { result ≡ index }
{
    MethodNumber::new(index as u16).unwrap()
}

/// The owning field at an index.
pub fn field_index(index: usize) -> FieldIndex
    requires { index < 8 }
    ensures { result ≡ index }
{
    FieldIndex::new(index as u8).unwrap()
}
