//! Explanations where memory is wanting, and where the output fails.
use super::fixed_sink::FixedSink;
use super::page::BoundedPage;
use super::pages::FIRST;
use aom_commands::{ExitStatus, Fault};
use aom_diagnostic_commands::{Program, Telling, check};
use aom_transcript::Sink;
use std::alloc::Global;
use std::process::Abort;

/// Checks an image, and explains its fault.
fn check_explained<W: Sink, E: Sink>(
    alloc: Global,
    image: &[u8],
    out: &mut W,
    errors: &mut E,
) -> ExitStatus {
    let program = Program::Image(image);
    check(alloc, program, Telling::Explained, false, out, errors)
}

/// Whether a text that is no image is refused and explained. Else memory was wanting, and that is told. Nothing here but the command
/// asks for memory.
fn is_explained(rt: &impl Abort, alloc: Global) -> bool {
    let mut written = FixedSink::blank();
    let mut reported = FixedSink::blank();
    let ended = check_explained(alloc, b"a text", &mut written, &mut reported);
    assert!(rt; written.has(b""));
    if ended == ExitStatus::Fault {
        let said =
            b"memory\nmemory: A request for memory was refused, whatever it was for. It says nothing about the image, the text or the script.\nTo mend it: Give the program more memory.\n";
        assert!(rt; reported.has(b"memory\nmemory\n") || reported.has(said));
        return false;
    }
    assert!(rt; ended == ExitStatus::ImageRefused);
    let said =
        b"load 1\nwrong magic: The first four bytes are not AOIM. An assembly text is refused so.\nTo mend it: Put --asm before a text, or assemble it first and name the image.\n";
    let explained = reported.has(said);
    assert!(rt; explained || reported.has(b"load 1\nmemory\n"));
    explained
}

/// Any request for memory may be refused: then the command says so behind the fault's line. A trial refuses one, so the second call explains.
#[test]
fn explaining_may_want_memory(rt: HostRuntime) {
    let explained = is_explained(&rt, rt.alloc()) || is_explained(&rt, rt.alloc());
    assert!(rt; explained);
}

#[test]
fn want_of_memory_is_explained(rt: HostRuntime) {
    let said = b"memory\nmemory: A request for memory was refused, whatever it was for.";
    let mut errors = BoundedPage::new(rt.alloc(), 4096);
    let ended = Telling::Explained.report(rt.alloc(), &Fault::Memory, b"", &mut errors);
    assert!(rt; ended == ExitStatus::Fault && errors.text.starts_with(said));
}

/// Whether a call ended and wrote so.
fn is(
    ended: ExitStatus,
    out: &BoundedPage,
    errors: &BoundedPage,
    text: &[u8],
    line: &[u8],
) -> bool {
    ended == ExitStatus::Fault && out.text.as_slice() == text && errors.text.as_slice() == line
}

#[test]
fn an_output_that_fails_is_explained(rt: HostRuntime) {
    let mut out = BoundedPage::new(rt.alloc(), 6);
    let mut errors = BoundedPage::new(rt.alloc(), 4096);
    let ended = check_explained(rt.alloc(), &FIRST, &mut out, &mut errors);
    let line =
        b"write\nwrite: The standard output took nothing more. What is out is a beginning.\nTo mend it: Look for a full disk, or a reader that has ended.\n";
    assert!(rt; is(ended, &out, &errors, b"accept", line));
}
