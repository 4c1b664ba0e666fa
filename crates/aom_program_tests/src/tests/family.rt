//! A child in its parent's place, from the bytes of an image to the transcript.
use super::pages::{Case, CommandCall, all_report};
use aom_commands::ExitStatus;

/// The image of `examples/shapes.aom`: a square, which is a shape, answers its area in its own way.
const SHAPES: [u8; 548] = [
    0x41, 0x4f, 0x49, 0x4d, 0, 2, 0, 3, 0, 7, 0, 2, 0, 0, 0, 0, 0xff, 0xff, 0, 0, 0, 0, 0, 0x28, 0,
    0, 0, 0, 0, 0, 0xff, 0xff, 0, 0, 0, 0, 0, 0, 0, 0, 0, 0, 0, 0, 0, 0, 0, 0, 0, 0, 0, 0, 0xff,
    0xff, 0, 0, 0, 1, 1, 0, 0, 0, 0xff, 0xff, 0, 0, 0, 0, 0, 0, 0, 0, 0, 0, 0, 0, 0, 0, 0, 0, 0, 0,
    0, 0, 0xff, 0xff, 0, 0, 0, 1, 1, 0, 0, 0, 0xff, 0xff, 0, 0, 0, 0, 0, 0, 0, 0, 0, 0, 0, 0, 0, 0,
    0, 0, 0, 0, 0, 0, 0, 1, 0, 0, 0, 2, 3, 2, 0, 0, 0, 0, 0, 0, 0, 0, 0, 0, 0, 0, 0, 0, 0, 0, 0xff,
    0xff, 0, 3, 0xff, 0xff, 0, 0, 1, 0, 0, 0, 0, 0, 0, 2, 0x13, 0, 0, 0, 0, 0, 0, 0, 0x22, 0, 0, 0,
    0, 0, 0, 0, 0, 1, 3, 2, 0, 0, 0, 0, 0, 0, 0, 0, 0, 0, 0, 0, 0, 0, 0, 0, 0xff, 0xff, 0, 5, 0xff,
    0xff, 0, 0, 1, 0, 0, 0, 0, 0, 0, 1, 0x13, 0, 0, 0, 0, 0, 0, 0, 0x16, 0, 0, 0, 0, 0, 0, 0, 0x1a,
    0, 0, 0, 0, 0, 0, 0, 0x22, 0, 0, 0, 0, 0, 0, 0, 0, 1, 2, 0, 0, 0, 1, 0, 0xff, 0xff, 0, 0, 0, 0,
    0, 0, 0, 0, 0, 0, 0xff, 0xff, 0, 5, 0xff, 0xff, 0, 0, 0x15, 0, 0, 0, 0, 0, 0, 0, 0x18, 1, 0, 0,
    0, 0, 0, 0, 0x0d, 1, 0, 0, 0, 0, 0, 4, 0x17, 0, 1, 0, 0, 0, 0, 0, 0x22, 0, 0, 0, 0, 0, 0, 0, 0,
    1, 0, 0, 0, 0, 0, 1, 0, 0, 0, 0, 0, 0, 0, 0, 0, 0, 0, 0, 0xff, 0xff, 0, 2, 0xff, 0xff, 0, 0, 1,
    0, 0, 0, 0, 0, 0, 0, 0x22, 0, 0, 0, 0, 0, 0, 0, 0, 2, 0, 0, 0, 0, 0, 1, 0, 0, 0, 0, 0, 0, 0, 0,
    0, 0, 0, 0, 0xff, 0xff, 0, 3, 0, 3, 0, 0, 0x14, 0, 0, 0, 0, 0, 0, 0, 6, 0, 0, 0, 0, 0, 0, 0,
    0x22, 0, 0, 0, 0, 0, 0, 0, 0xff, 0xff, 0, 0, 0, 0, 1, 0, 0, 1, 0, 0, 0, 0, 0, 0, 0, 0, 0, 0,
    0xff, 0xff, 0, 4, 0xff, 0xff, 0, 0, 0x20, 0x10, 1, 1, 0, 0, 0, 3, 0x13, 1, 0, 0, 0, 0, 0, 0,
    0x1a, 0, 0, 0, 0, 0, 0, 0, 0x22, 0, 0, 0, 0, 0, 0, 0, 0xff, 0xff, 1, 0, 0, 0, 0, 0, 0, 0, 0, 0,
    0, 0, 0, 0, 0, 0, 0, 0, 0xff, 0xff, 0, 7, 0xff, 0xff, 0, 0, 0x18, 0, 0, 0, 0, 0, 0, 2, 0x0d, 0,
    0, 0, 0, 0, 0, 5, 1, 1, 0, 0, 0, 0, 0, 4, 0x20, 0x10, 1, 0, 0, 0, 0, 2, 0x20, 0, 0, 0, 0, 0, 0,
    5, 0x30, 0, 0, 0, 0, 0, 0, 0, 0x22, 0, 0, 0, 0, 0, 0, 0,
];

const FAMILY: [Case<'static>; 2] = [
    (CommandCall::Check(&SHAPES), 100, b"accepted\n"),
    (
        CommandCall::Run(&SHAPES, b""),
        100,
        b"@0 main\nout 16\nout 2\nout 1\ngone 0\ngone 2\nend stopped cells 0\n",
    ),
];

/// It is accepted, and a call on the square runs what the square has. It goes by its own destructor, and then by that of a shape.
#[test]
fn a_child_stands_for_its_parent(rt: HostRuntime) {
    all_report(&rt, rt.alloc(), ExitStatus::Done, &FAMILY);
}

/// Where the square is no shape it has nothing to override.
#[test]
fn a_stranger_overrides_nothing(rt: HostRuntime) {
    let mut image = SHAPES;
    image[116] = 0xff;
    image[117] = 0xff;
    all_report(
        &rt,
        rt.alloc(),
        ExitStatus::ImageRefused,
        &[(CommandCall::Check(&image), 100, b"link 11\n")],
    );
}
