//! Any request for memory may be refused: then nothing is told of the session but that. None is made once it has begun.
use super::programs::{CANCELS, CANCELS_ASKED, CANCELS_REPORTED};
use super::readers::Typed;
use crate::tests::fixed_sink::FixedSink;
use crate::tests::page::BoundedPage;
use aom_commands::{ExitStatus, Translation, translate_bytes};
use aom_debug::debug_bytes;
use aom_natives::Native;
use std::alloc::Global;

/// How the cancel is assembled.
fn assembles(alloc: Global, image: &mut BoundedPage, errors: &mut FixedSink) -> ExitStatus {
    translate_bytes(alloc, Translation::Asm, CANCELS.as_bytes(), image, errors)
}

/// How a session on an image ends.
fn debugs(alloc: Global, image: &[u8], out: &mut FixedSink, errors: &mut FixedSink) -> ExitStatus {
    let boxes: Vec<Box<dyn Native>> = Vec::new(alloc);
    let mut reader = Typed {
        rest: CANCELS_ASKED.as_bytes(),
        most: 4096,
        is_torn: false,
    };
    debug_bytes(
        alloc,
        image,
        b"",
        1_000_000,
        boxes,
        &mut reader,
        100,
        out,
        errors,
    )
}

#[test]
fn a_session_is_reported_whole_or_not_at_all(rt: HostRuntime) {
    let mut image = BoundedPage::new(rt.alloc(), 4096);
    let mut out = FixedSink::blank();
    let mut errors = FixedSink::blank();
    if assembles(rt.alloc(), &mut image, &mut errors) != ExitStatus::Done {
        assert!(rt; errors.has(b"memory\n") || errors.has(b"write\n"));
        return;
    }
    let ended = debugs(rt.alloc(), image.text.as_slice(), &mut out, &mut errors);
    if ended == ExitStatus::Fault {
        assert!(rt; out.has(b"") && errors.has(b"memory\n"));
        return;
    }
    assert!(rt; ended == ExitStatus::Done);
    assert!(rt; out.has(CANCELS_REPORTED.as_bytes()) && errors.has(b""));
}
