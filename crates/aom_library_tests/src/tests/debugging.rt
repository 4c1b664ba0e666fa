//! A program that steps through a run with the debugger.
use aom_library::commands::{ExitStatus, Program, Telling, asm, debug_bytes};
use aom_library::debug::Reader;
use aom_library::natives::Native;
use aom_library::run::MemorySink;
use std::test::Fail;

/// The commands that are still to come.
#[derive(Drop)]
struct Commands<'a> {
    rest: &'a [u8],
}

impl<'a> Reader for Commands<'a> {
    ghost use Rattle.std.specs.Prelude.{None, false, true};

    ghost given = { λ _. None };

    ghost ended = { λ _. true };

    ghost failed = { λ _. false };

    fn get(&mut self, buffer: &mut [u8]) -> Option<usize> {
        let count = self.rest.len().min(buffer.len());
        buffer[..count].copy_from_slice(&self.rest[..count]);
        self.rest = &self.rest[count..];
        Some(count)
    }
}

const TEXT: &str = "\
image cells 1 budget 9;class C plain
method main main;new r0 C;jnull r0 L;delete r0;L: stop;ret;end
";

const ASKED: &str = "\
step 1
owners
step 2
cells
go
";

const REPORTED: &str = "\
@0 main
at 0 1
reg 0 r0 0
at gone 0
cells 1
0 1
gone 0
end stopped cells 0
ended
";

#[test]
fn a_run_is_stepped_through(rt: HostRuntime) -> Result<(), Fail> {
    let alloc = rt.alloc();
    let mut image = MemorySink::new(alloc);
    let mut out = MemorySink::new(alloc);
    let mut errors = MemorySink::new(alloc);
    let text = Program::Text(TEXT.as_bytes());
    let made = asm(alloc, text, Telling::Plain, &mut image, &mut errors);
    assert!(rt; made == ExitStatus::Done);
    let boxes: Vec<Box<dyn Native>> = Vec::new(alloc);
    let mut commands = Commands {
        rest: ASKED.as_bytes(),
    };
    let status = debug_bytes(
        alloc,
        &image.text,
        b"",
        100,
        boxes,
        &mut commands,
        100,
        &mut out,
        &mut errors,
    );
    assert!(rt; status == ExitStatus::Done);
    assert!(rt; out.text.as_slice() == REPORTED.as_bytes());
    assert!(rt; errors.text.is_empty());
    Ok(())
}
