//! Any request for memory may be refused: then a command says so, and writes nothing else. Nothing here but the
//! command asks for memory. A trial of these tests refuses one request, so a call that wanted memory answers when it
//! is made once more.
use super::fixed_sink::FixedSink;
use super::pages::{CommandCall, FIRST, FULL_HEAP, LISTING, SHORT, answer, sides};
use aom_commands::{ExitStatus, Fault, report};
use std::alloc::Global;
use std::process::Abort;

/// What came of a call.
#[derive(Clone, Copy, PartialEq, Eq)]
enum Came {
    AsAsked,
    WantsMemory,
    Otherwise,
}

/// Whether a call ends so, with those texts on its output and to its errors, or wants memory.
fn came_of(
    alloc: Global,
    call: &CommandCall<'_>,
    status: ExitStatus,
    text: &[u8],
    line: &[u8],
) -> Came {
    let mut out = FixedSink::blank();
    let mut errors = FixedSink::blank();
    let ended = answer(alloc, call, &mut out, &mut errors);
    if ended == status && out.has(text) && errors.has(line) {
        Came::AsAsked
    } else if ended == ExitStatus::Fault && out.has(b"") && errors.has(b"memory\n") {
        Came::WantsMemory
    } else {
        Came::Otherwise
    }
}

/// A call ends so with those texts, or wants memory the first time.
fn ends_so(
    rt: &impl Abort,
    alloc: Global,
    call: &CommandCall<'_>,
    status: ExitStatus,
    text: &[u8],
    line: &[u8],
) {
    let mut came = came_of(alloc, call, status, text, line);
    if came == Came::WantsMemory {
        came = came_of(alloc, call, status, text, line);
    }
    assert!(rt; came == Came::AsAsked);
}

/// A call ends so and tells that, or wants memory.
fn may_report(
    rt: &impl Abort,
    alloc: Global,
    call: &CommandCall<'_>,
    status: ExitStatus,
    reported: &[u8],
) {
    let (text, line) = sides(status, reported);
    ends_so(rt, alloc, call, status, text, line);
}

/// The calls, how they end, and what they tell.
const CASES: [(CommandCall<'static>, ExitStatus, &[u8]); 8] = [
    (
        CommandCall::Check(&FULL_HEAP),
        ExitStatus::Done,
        b"accepted\n",
    ),
    (
        CommandCall::Run(&FULL_HEAP, b"\n"),
        ExitStatus::Done,
        b"@0 main\nout 1\ngone 0\nend stopped cells 0\n",
    ),
    (
        CommandCall::Prices(&FIRST),
        ExitStatus::Done,
        b"accepted\nmain price 4 declared 4\nframes 1 of 256\nentries 0 of 1024\nmethod 0 price 4 frames 1 entries 0\n",
    ),
    (
        CommandCall::Dot(&FIRST),
        ExitStatus::Done,
        b"digraph aom {\nm0 [label=\"m0 main\\nprice 4 frames 1 entries 0\"]\n}\n",
    ),
    (CommandCall::Asm(SHORT), ExitStatus::Done, &FIRST),
    (CommandCall::Dis(&FIRST), ExitStatus::Done, LISTING),
    // a refusal may want memory too
    (
        CommandCall::Asm(b"image budget 4\nfoo"),
        ExitStatus::ImageRefused,
        b"asm 2 2\n",
    ),
    (
        CommandCall::Run(&FIRST, b"x"),
        ExitStatus::CallRefused,
        b"script 1 2\n",
    ),
];

/// Each of these ends and tells so, or wants memory.
fn all_may_report(rt: &impl Abort, alloc: Global, cases: &[(CommandCall<'_>, ExitStatus, &[u8])]) {
    for case in cases {
        may_report(rt, alloc, &case.0, case.1, case.2);
    }
}

#[test]
fn each_call_may_want_memory(rt: HostRuntime) {
    all_may_report(&rt, rt.alloc(), &CASES);
    let short = CommandCall::Check(&FIRST[..79]);
    may_report(
        &rt,
        rt.alloc(),
        &short,
        ExitStatus::ImageRefused,
        b"load 3\n",
    );
}

/// The first image, which declares a step less than main takes.
const UNPAID: [u8; 80] = [
    0x41, 0x4f, 0x49, 0x4d, 0, 1, 0, 0, 0, 1, 0, 1, 0, 0, 0, 0, 0xff, 0xff, 0, 0, 0, 0, 0, 3, //
    0xff, 0xff, 1, 0, 0, 0, 0, 0, 0, 0, 0, 0, 0, 0, 0, 0, 0, 0, 0, 0, 0xff, 0xff, 0, 4, //
    1, 0, 0, 0, 0, 0, 0, 7, 0x13, 0, 0, 0, 0, 0, 0, 0, 0x30, 0, 0, 0, 0, 0, 0, 0, 0x22, 0, 0, 0, 0,
    0, 0, 0,
];

/// Figures of an image that is refused go to the output, and why it is refused to the errors.
#[test]
fn refusing_with_figures_may_want_memory(rt: HostRuntime) {
    let text =
        b"main price 4 declared 3\nframes 1 of 256\nentries 0 of 1024\nmethod 0 price 4 frames 1 entries 0\n";
    let line = b"budget 1 main price 4 declared 3\n";
    let call = CommandCall::Prices(&UNPAID);
    ends_so(&rt, rt.alloc(), &call, ExitStatus::ImageRefused, text, line);
}

/// That it is wanting has its line and its status, where no command tells it too.
#[test]
fn want_of_memory_is_reported(rt: HostRuntime) {
    let mut errors = FixedSink::blank();
    let status = report(&Fault::Memory, &mut errors);
    assert!(rt; status.number() == 5 && errors.has(b"memory\n"));
}
