//! A program that assembles a text, and lists its image.
use aom_library::asm::{assemble, disassemble};
use aom_library::image::encode;
use std::alloc::Global;
use std::test::Fail;

const TEXT: &str = "\
# prints 7, then stops
image cells 1 budget 4
method main main
const r0 7
print r0
stop
ret
end
";

const LISTING: &str = "\
image cells 1 messages 0 natives 0 budget 4
method m0 main in - out - args - gives none
const r0 7
print r0
stop
ret r0
end
";

/// The bytes of the image that a text denotes.
fn assembled(alloc: Global, text: &[u8]) -> Option<Vec<u8>> {
    let image = assemble(alloc, text).ok()?;
    encode(alloc, &image).ok()
}

/// The listing of the image that a text denotes.
fn listed(alloc: Global, text: &[u8]) -> Option<Vec<u8>> {
    let image = assemble(alloc, text).ok()?;
    disassemble(alloc, &image).ok()
}

#[test]
fn a_text_is_listed(rt: HostRuntime) -> Result<(), Fail> {
    let alloc = rt.alloc();
    let Some(listing) = listed(alloc, TEXT.as_bytes()) else {
        assert!(rt; false, "no listing");
        return Ok(());
    };
    assert!(rt; listing.as_slice() == LISTING.as_bytes());
    let image = assembled(alloc, TEXT.as_bytes());
    assert!(rt; image.is_some());
    assert!(rt; image == assembled(alloc, listing.as_slice()));
    Ok(())
}
