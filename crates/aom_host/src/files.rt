//! Files.
ghost use Rattle.std.specs.Prelude.{◌≡◌, IfErr};
ghost use Rattle.aom_host.specs.Files.{IsOf};

use std::alloc::{AllocError, AllocFailed};
use std::fs::File;
use std::io::{ErrorKind, Read};
use std::rt::Files;

/// One byte more than the most that an image, a text or a script may have.
const MAX_BYTES: u64 = (1 << 20) + 1;

/// Why what a command needs is not at hand.
#[derive(Clone, Copy, Debug)]
pub enum ReadError<'a> {
    /// The file of that name cannot be read, and why.
    File { name: &'a str, why: &'static str },
    Memory,
}

impl<'a> From<AllocError> for ReadError<'a> {
    ghost use Rattle.aom_host.specs.declared.files.ReadError.TheVariants.{Memory};

    ghost from_gives = { λ _ f. f ≡ Memory };

    fn from(_error: AllocError) -> ReadError<'a> {
        ReadError::Memory
    }
}

impl<'a, T: Drop> From<AllocFailed<T>> for ReadError<'a> {
    ghost use Rattle.aom_host.specs.declared.files.ReadError.TheVariants.{Memory};

    ghost from_gives = { λ _ f. f ≡ Memory };

    fn from(_failed: AllocFailed<T>) -> ReadError<'a> {
        ReadError::Memory
    }
}

/// The bytes of a file, and of a longer one its first. That a file is too long is told by what is made of its bytes.
pub fn read_file<'a, R: Files + AllocGlobal>(
    rt: &R,
    name: &'a str,
) -> Result<Vec<u8>, ReadError<'a>>
    ensures { IfErr result (λ unready. IsOf name.now unready) }
{
    let file = match File::open(rt, name) {
        Ok(file) => file,
        Err(error) => return Err(refusal_of(name, error.kind())),
    };
    let mut bytes = Vec::new(rt.alloc());
    match file.take(MAX_BYTES).read_to_end(&mut bytes) {
        Ok(_) => Ok(bytes),
        Err(error) => Err(refusal_of(name, error.kind())),
    }
}

/// What is told of a file that the system does not give.
fn refusal_of<'a>(name: &'a str, kind: ErrorKind) -> ReadError<'a>
    ensures { IsOf name.now result }
{
    let why = match kind {
        ErrorKind::OutOfMemory => return ReadError::Memory,
        ErrorKind::NotFound | ErrorKind::NotADirectory => "there is no such file",
        ErrorKind::IsADirectory => "it is a folder",
        ErrorKind::PermissionDenied => "it may not be read",
        _ => "reading it failed",
    };
    ReadError::File { name, why }
}
