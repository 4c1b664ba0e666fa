//! The native that docs/natives.md writes.
ghost use Rattle.std.specs.Prelude.{pos, negsuc, ◌≡◌, ◌⊎◌, [], option_to_list};

use super::served::{TWO_SENSORS, serves_beside};
use aom_commands::ExitStatus;
use aom_natives::Native;
use std::test::Fail;

/// Answers one request at a time with the word of the latest event.
#[derive(Drop)]
pub struct Bell {
    id: Option<u32>,
    word: Option<i32>,
}

impl Bell {
    pub fn new() -> Bell
        ensures { ⟦<Bell as Native>⟧.owed result ≡ [] }
    {
        Bell {
            id: None,
            word: None,
        }
    }
}

impl Native for Bell {
    ghost owed = { λ b. option_to_list b.id };

    ghost open_may = { λ _ _ answer. answer ≡ pos 0 };

    ghost start_may = { λ _ _ _ _ answer. (answer ≡ pos 0) ⊎ (answer ≡ negsuc 15) };

    ghost call_may = { λ _ _ _ _ answer. answer ≡ negsuc 4 };

    ghost poll_may = { λ _ _ _. Unit {0} };

    fn open(&mut self, _id: u32) -> i32 {
        0
    }

    fn start(&mut self, id: u32, _function: i32, _word: i32) -> i32 {
        if self.id.is_some() {
            return -16;
        }
        self.id = Some(id);
        0
    }

    fn call(&mut self, _id: u32, _function: i32, _word: i32) -> i32 {
        -5
    }

    fn cancel(&mut self, _id: u32) {
        self.id = None;
    }

    fn poll(&mut self, _now: u64) -> Option<(u32, i32)> {
        let (Some(id), Some(word)) = (self.id, self.word) else {
            return None;
        };
        self.id = None;
        Some((id, word))
    }

    fn event(&mut self, word: i32) {
        self.word = Some(word);
    }

    fn close(&mut self, _id: u32) {}
}

/// The second of two objects is refused as long as the bell owes something.
#[test]
fn a_bell_rings_once_it_was_pressed(rt: HostRuntime) -> Result<(), Fail> {
    let reported =
        b"@0 main\n@1 run 0 -16\nout -16\n@2 run 0 -16\nout -16\n@3 run 0 3\nout 3\n@4 run 0 3\nout 3\nend waiting cells 3\n";
    serves_beside(
        &rt,
        rt.alloc(),
        Box::new(rt.alloc(), Bell::new())?,
        &[TWO_SENSORS],
        "3 event 0 3",
        ExitStatus::Unfinished,
        reported,
    )
}
