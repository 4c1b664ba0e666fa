//! A program that checks an image, and runs it beside a native of its own.
ghost use Rattle.std.specs.Prelude.{pos, negsuc, ◌≡◌, [], option_to_list};

use aom_library::commands::{ExitStatus, Program, Telling, asm, check_bytes, run_bytes};
use aom_library::natives::Native;
use aom_library::run::MemorySink;
use std::alloc::Global;
use std::test::Fail;

/// A door: a request at it ends with the word of the next event.
#[derive(Drop)]
struct Door {
    id: Option<u32>,
    word: Option<i32>,
}

impl Door {
    fn new() -> Door
        ensures { ⟦<Door as Native>⟧.owed result ≡ [] }
    {
        Door {
            id: None,
            word: None,
        }
    }
}

impl Native for Door {
    ghost owed = { λ d. option_to_list d.id };

    ghost open_may = { λ _ _ answer. answer ≡ pos 0 };

    ghost start_may = { λ _ _ _ _ _. Unit {0} };

    ghost call_may = { λ _ _ _ _ answer. answer ≡ negsuc 4 };

    ghost poll_may = { λ _ _ _. Unit {0} };

    fn open(&mut self, _id: u32) -> i32 {
        0
    }

    fn start(&mut self, id: u32, _function: i32, _word: i32) -> i32 {
        if self.id.is_some() {
            return -16;
        }
        self.id = Some(id);
        0
    }

    fn call(&mut self, _id: u32, _function: i32, _word: i32) -> i32 {
        -5
    }

    fn cancel(&mut self, _id: u32) {
        self.id = None;
    }

    fn poll(&mut self, _now: u64) -> Option<(u32, i32)> {
        let (Some(id), Some(word)) = (self.id, self.word) else {
            return None;
        };
        self.id = None;
        Some((id, word))
    }

    fn event(&mut self, word: i32) {
        self.word = Some(word);
    }

    fn close(&mut self, _id: u32) {}
}

const TEXT: &str = "\
image cells 1 natives 1 budget 60 root N;class N active native 0 budget 20
method k cancel of N;abort;ret;end
method d destruct of N;cancel;ret;end
method r run of N;status r0;print r0;stop;ret;end
method n construct of N;enlist 0;connect r0;const r1 0;issue r1 r1;setactive;ret;end
method main main leaves;newl r0 N;push r0;call c0 n;pop r0;put f0 r0;ret;end
";

/// The bytes of the image of the text, which is accepted.
fn accepted(alloc: Global) -> Option<Vec<u8>> {
    let mut image = MemorySink::new(alloc);
    let mut out = MemorySink::new(alloc);
    let mut errors = MemorySink::new(alloc);
    let text = Program::Text(TEXT.as_bytes());
    let made = asm(alloc, text, Telling::Plain, &mut image, &mut errors);
    if made != ExitStatus::Done {
        return None;
    }
    match check_bytes(alloc, image.text.as_slice(), &mut out, &mut errors) {
        ExitStatus::Done => Some(image.text),
        _ => None,
    }
}

#[test]
fn an_image_runs_beside_a_native_of_ones_own(rt: HostRuntime) -> Result<(), Fail> {
    let alloc = rt.alloc();
    let image = accepted(alloc);
    assert!(rt; image.is_some());
    let image = image.unwrap_or(Vec::new(alloc));
    let mut out = MemorySink::new(alloc);
    let mut errors = MemorySink::new(alloc);
    let mut boxes: Vec<Box<dyn Native>> = Vec::with_capacity(alloc, 1)?;
    boxes.push(Box::new(alloc, Door::new())?)?;
    let status = run_bytes(
        alloc,
        &image,
        b"5 event 0 3",
        100,
        boxes,
        &mut out,
        &mut errors,
    );
    assert!(rt; status == ExitStatus::Done);
    assert!(rt;
        out.text.as_slice()
            == b"@0 main\n@5 run 0 3\nout 3\ngone 0\nend stopped cells 0\n".as_slice()
    );
    assert!(rt; errors.text.is_empty());
    Ok(())
}
