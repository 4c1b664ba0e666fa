//! What the tests share: two images and their texts, the calls of commands, and what each has to answer and to write.
ghost use Rattle.aom_natives.specs.Owed.{OweNothing};

use super::page::BoundedPage;
use aom_commands::{
    ExitStatus, Translation, check_bytes, prices_bytes, run_bytes, translate_bytes,
};
use aom_natives::Native;
use aom_transcript::Sink;
use std::alloc::Global;
use std::process::Abort;
use std::test::Fail;

/// A main that prints 7 and stops.
pub const FIRST: [u8; 80] = [
    0x41, 0x4f, 0x49, 0x4d, 0, 1, 0, 0, 0, 1, 0, 1, 0, 0, 0, 0, 0xff, 0xff, 0, 0, 0, 0, 0, 4, //
    0xff, 0xff, 1, 0, 0, 0, 0, 0, 0, 0, 0, 0, 0, 0, 0, 0, 0, 0, 0, 0, 0xff, 0xff, 0, 4, //
    1, 0, 0, 0, 0, 0, 0, 7, 0x13, 0, 0, 0, 0, 0, 0, 0, 0x30, 0, 0, 0, 0, 0, 0, 0, 0x22, 0, 0, 0, 0,
    0, 0, 0,
];

/// Makes a cell, then another in a full heap, and deletes what it got.
pub const FULL_HEAP: [u8; 156] = [
    0x41, 0x4f, 0x49, 0x4d, 0, 1, 0, 1, 0, 1, 0, 1, 0, 0, 0, 0, 0xff, 0xff, 0, 0, 0, 0, 0, 0x0c, 0,
    0, 0, 0, 0, 0, 0xff, 0xff, 0, 0, 0, 0, 0, 0, 0, 0, 0, 0, 0, 0, 0, 0, 0, 0, 0, 0, 0, 0, 0xff,
    0xff, 1, 0, 0, 0, 0, 0, 0, 0, 0, 0, 0, 0, 0, 0, 0, 0, 0, 0, 0xff, 0xff, 0, 0x0a, 0x18, 0, 0, 0,
    0, 0, 0, 0, 0x18, 1, 0, 0, 0, 0, 0, 0, 1, 2, 0, 0, 0, 0, 0, 1, 0x0d, 1, 0, 0, 0, 0, 0, 5, 1, 2,
    0, 0, 0, 0, 0, 2, 0x13, 2, 0, 0, 0, 0, 0, 0, 0x1a, 0, 0, 0, 0, 0, 0, 0, 0x1a, 1, 0, 0, 0, 0, 0,
    0, 0x30, 0, 0, 0, 0, 0, 0, 0, 0x22, 0, 0, 0, 0, 0, 0, 0,
];

/// A command, and what it is given.
#[derive(Clone, Copy)]
pub enum CommandCall<'a> {
    Asm(&'a [u8]),
    Check(&'a [u8]),
    /// `check --prices`.
    Prices(&'a [u8]),
    Dis(&'a [u8]),
    Dot(&'a [u8]),
    /// An image and a script, beside no native.
    Run(&'a [u8], &'a [u8]),
}

/// Runs an image under a script beside these natives. What `run_bytes` promises is left behind here.
pub fn run_beside<W: Sink, E: Sink>(
    alloc: Global,
    image: &[u8],
    script: &[u8],
    boxes: Vec<Box<dyn Native>>,
    out: &mut W,
    errors: &mut E,
) -> ExitStatus
    requires { OweNothing (λ b. (⟦<dyn Native as Native>⟧ b.vtable).owed b.value) boxes.items }
{
    run_bytes(alloc, image, script, 1_000_000, boxes, out, errors)
}

/// Makes a call. What the command promises is left behind here.
pub fn answer<W: Sink, E: Sink>(
    alloc: Global,
    call: &CommandCall<'_>,
    out: &mut W,
    errors: &mut E,
) -> ExitStatus {
    match *call {
        CommandCall::Asm(text) => translate_bytes(alloc, Translation::Asm, text, out, errors),
        CommandCall::Check(image) => check_bytes(alloc, image, out, errors),
        CommandCall::Prices(image) => prices_bytes(alloc, image, out, errors),
        CommandCall::Dis(image) => translate_bytes(alloc, Translation::Dis, image, out, errors),
        CommandCall::Dot(image) => translate_bytes(alloc, Translation::Dot, image, out, errors),
        CommandCall::Run(image, script) => run_beside(
            alloc,
            image,
            script,
            Vec::new(alloc),
            out,
            errors,
        ),
    }
}

/// The output and the errors of a call that ends so: a refusal goes to the errors, and all else to the output. Where that has
/// failed it has a beginning of it.
pub fn sides(status: ExitStatus, reported: &[u8]) -> (&[u8], &[u8]) {
    match status {
        ExitStatus::ImageRefused | ExitStatus::CallRefused => (b"", reported),
        ExitStatus::Fault => (reported, b"write\n"),
        ExitStatus::Done | ExitStatus::Unfinished | ExitStatus::Broken => (reported, b""),
    }
}

/// Whether a call with so much room for the output, which takes three bytes at a time, ends so and tells that.
pub fn reports(
    alloc: Global,
    call: &CommandCall<'_>,
    room: usize,
    status: ExitStatus,
    reported: &[u8],
) -> bool {
    let mut out = BoundedPage::narrow(alloc, room, 3);
    let mut errors = BoundedPage::new(alloc, 100);
    let ended = answer(alloc, call, &mut out, &mut errors);
    is_reported(ended, &out, &errors, status, reported)
}

/// Whether a call that has ended and written so has told that.
pub fn is_reported(
    ended: ExitStatus,
    out: &BoundedPage,
    errors: &BoundedPage,
    status: ExitStatus,
    reported: &[u8],
) -> bool {
    let (text, line) = sides(status, reported);
    ended == status && out.text.as_slice() == text && errors.text.as_slice() == line
}

/// A call, the room for its output, and what it tells.
pub type Case<'a> = (CommandCall<'a>, usize, &'a [u8]);

/// Each call ends so, and tells as its case says.
pub fn all_report(rt: &impl Abort, alloc: Global, status: ExitStatus, cases: &[Case<'_>]) {
    for (number, case) in cases.iter().enumerate() {
        assert!(rt;
            reports(alloc, &case.0, case.1, status, case.2),
            "case {number}"
        );
    }
}

/// The bytes of the image that a text in parts denotes.
pub fn assembled(rt: &impl Abort, alloc: Global, parts: &[&str]) -> Result<Vec<u8>, Fail> {
    let text = parts.concat(alloc)?;
    let mut image = BoundedPage::new(alloc, 1 << 12);
    let mut errors = BoundedPage::new(alloc, 100);
    let status = answer(
        alloc,
        &CommandCall::Asm(text.as_bytes()),
        &mut image,
        &mut errors,
    );
    assert!(rt; status == ExitStatus::Done, "a text that denotes no image");
    Ok(image.text)
}

/// The first image as a text, with what may be left out left out.
pub const SHORT: &[u8] =
    b"image cells 1 budget 4; method main main; const r0 7; print r0; stop; ret; end";

/// The listing of the first image.
pub const LISTING: &[u8] =
    b"image cells 1 messages 0 natives 0 budget 4\nmethod m0 main in - out - args - gives none\nconst r0 7\nprint r0\nstop\nret r0\nend\n";
