//! A program that tells what is wrong with an image in one line of its text.
use aom_library::commands::{ExitStatus, Program, Telling, asm, check};
use aom_library::run::MemorySink;
use std::test::Fail;

const TEXT: &[u8] = b"image budget 1\nmethod main main\nstop\nret\nend\n";

const UNREAD: &[u8] = b"\
file
file: A file that the words name cannot be read.
To mend it: Look at the name, and whether it is a file that may be read.
Not read: stops.aom: it is elsewhere
";

#[test]
fn a_budget_that_is_too_low_is_reported_with_its_file_and_line(
    rt: HostRuntime,
) -> Result<(), Fail> {
    let alloc = rt.alloc();
    let mut image = MemorySink::new(alloc);
    let mut out = MemorySink::new(alloc);
    let mut errors = MemorySink::new(alloc);
    let text = Program::Text(TEXT);
    let made = asm(alloc, text, Telling::Plain, &mut image, &mut errors);
    assert!(rt; made == ExitStatus::Done);
    let program = Program::ImageOfText(image.text.as_slice(), TEXT);
    let telling = Telling::AsLine(b"stops.aom");
    let status = check(alloc, program, telling, false, &mut out, &mut errors);
    assert!(rt; status == ExitStatus::ImageRefused);
    assert!(rt; out.text.is_empty());
    assert!(rt;
        errors.text.as_slice()
            == b"stops.aom:1: budget 1 main price 2 declared 1: over budget\n".as_slice()
    );
    Ok(())
}

#[test]
fn a_file_that_cannot_be_read_is_reported_with_its_name(rt: HostRuntime) -> Result<(), Fail> {
    let mut errors = MemorySink::new(rt.alloc());
    let why = b"it is elsewhere";
    let status = Telling::Explained.report_unread(rt.alloc(), b"stops.aom", why, &mut errors);
    assert!(rt; status == ExitStatus::Fault);
    assert!(rt; errors.text.as_slice() == UNREAD);
    Ok(())
}
