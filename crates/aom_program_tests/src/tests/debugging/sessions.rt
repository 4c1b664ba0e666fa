//! Debugging sessions whose reader or output fails.
use super::programs::{CANCELS, CANCELS_ASKED};
use super::readers::{Stuck, Typed};
use crate::tests::answer::CallAnswer;
use crate::tests::page::BoundedPage;
use aom_commands::{ExitStatus, Translation, translate_bytes};
use aom_debug::{Reader, debug_bytes};
use aom_natives::Native;
use std::alloc::Global;

/// The bytes of the image of a program.
fn image_of(alloc: Global, program: &str) -> Vec<u8> {
    let mut image = BoundedPage::new(alloc, 4096);
    let mut errors = BoundedPage::new(alloc, 100);
    let text = program.as_bytes();
    translate_bytes(alloc, Translation::Asm, text, &mut image, &mut errors);
    image.text
}

/// What a session on an image tells, where at most 100 reads and so many bytes of output are had.
fn debugs<R: Reader>(
    alloc: Global,
    image: &[u8],
    script: &[u8],
    reader: &mut R,
    room: usize,
) -> CallAnswer<ExitStatus> {
    let mut out = BoundedPage::new(alloc, room);
    let mut errors = BoundedPage::new(alloc, 100);
    let boxes: Vec<Box<dyn Native>> = Vec::new(alloc);
    let status = debug_bytes(
        alloc,
        image,
        script,
        1_000_000,
        boxes,
        reader,
        100,
        &mut out,
        &mut errors,
    );
    CallAnswer::of(status, out, errors)
}

/// Whether an answer is that, to the output and of what is wrong.
fn is(answer: &CallAnswer<ExitStatus>, status: ExitStatus, out: &str, errors: &str) -> bool {
    answer.status == status
        && answer.out.as_slice() == out.as_bytes()
        && answer.errors.as_slice() == errors.as_bytes()
}

#[test]
fn a_reader_that_never_ends_is_a_fault(rt: HostRuntime) {
    let image = image_of(rt.alloc(), CANCELS);
    let answer = debugs(rt.alloc(), image.as_slice(), b"", &mut Stuck, 10_000);
    assert!(rt; is(&answer, ExitStatus::Fault, "", "file\n"));
}

/// What is told of a session on the cancel that is read and written so.
fn cancels(
    alloc: Global,
    asked: &str,
    most: usize,
    is_torn: bool,
    room: usize,
) -> CallAnswer<ExitStatus> {
    let mut reader = Typed {
        rest: asked.as_bytes(),
        most,
        is_torn,
    };
    let image = image_of(alloc, CANCELS);
    debugs(alloc, image.as_slice(), b"", &mut reader, room)
}

#[test]
fn a_reader_that_fails_is_a_fault(rt: HostRuntime) {
    let answer = cancels(rt.alloc(), "turn\nactives", 3, true, 10_000);
    assert!(rt; is(&answer, ExitStatus::Fault, "@0 main\nbetween 1\n", "file\n"));
}

#[test]
fn an_output_that_fails_ends_the_session(rt: HostRuntime) {
    let answer = cancels(rt.alloc(), CANCELS_ASKED, 4096, false, 12);
    assert!(rt; is(&answer, ExitStatus::Fault, "@0 main\nbetw", "write\n"));
}
