//! A native of the tests' own that refuses every second request and completes the last first, and what a run hears of it.
ghost use Rattle.std.specs.Prelude.{pos, negsuc, ◌≡◌, ◌⊎◌, [], Option, IfOk};

use super::served::{TWO_SENSORS, serves_beside};
use aom_commands::ExitStatus;
use aom_natives::Native;
use std::alloc::{AllocError, Global};
use std::cell::Cell;
use std::process::Abort;
use std::rc::Rc;
use std::test::Fail;

/// Answers -7 to every second start. From the time 2 on it completes what it owes, the last first, each with the number of its
/// start. It counts its drop outside.
struct Backlog {
    ids: Vec<u32>,
    /// Of each id the number of its start, beside it.
    numbers: Vec<i32>,
    starts: i32,
    drops: Rc<Cell<u32>>,
}

impl Drop for Backlog {
    fn drop(self) {
        self.drops.set(self.drops.get().saturating_add(1));
        let Backlog {
            ids: _,
            numbers: _,
            starts: _,
            drops: _,
        } = self;
    }
}

impl Backlog {
    /// It keeps what it owes in these lists, which take no more than they have room for.
    fn new(ids: Vec<u32>, numbers: Vec<i32>, drops: Rc<Cell<u32>>) -> Backlog
        requires { ids.items ≡ [] }
        ensures { ⟦<Backlog as Native>⟧.owed result ≡ [] }
    {
        Backlog {
            ids,
            numbers,
            starts: 0,
            drops,
        }
    }

    /// One with room for eight requests, in a box, which counts its drop there.
    fn boxed(alloc: Global, drops: &Rc<Cell<u32>>) -> Result<Box<Backlog>, AllocError>
        ensures { IfOk result (λ b. ⟦<Backlog as Native>⟧.owed b.value ≡ []) }
    {
        let ids = Vec::with_capacity(alloc, 8)?;
        let numbers = Vec::with_capacity(alloc, 8)?;
        Ok(Box::new(alloc, Backlog::new(ids, numbers, drops.clone()?))?)
    }
}

impl Native for Backlog {
    ghost owed = { λ b. b.ids.items };

    ghost open_may = { λ _ _ answer. answer ≡ pos 0 };

    ghost start_may = { λ _ _ _ _ answer. (answer ≡ pos 0) ⊎ (answer ≡ negsuc 6) ⊎ (answer ≡ negsuc 3) };

    ghost call_may = { λ _ _ _ _ answer. answer ≡ negsuc 4 };

    ghost poll_may = { λ _ _ _. Unit {0} };

    fn open(&mut self, _id: u32) -> i32 {
        0
    }

    fn start(&mut self, id: u32, _function: i32, _word: i32) -> i32 {
        self.starts = self.starts.wrapping_add(1);
        if self.starts % 2 == 0 {
            return -7;
        }
        if self.numbers.push(self.starts).is_err() {
            return -4;
        }
        match self.ids.push(id) {
            Ok(()) => 0,
            Err(_) => -4,
        }
    }

    fn call(&mut self, _id: u32, _function: i32, _word: i32) -> i32 {
        -5
    }

    fn cancel(&mut self, id: u32) {
        match self.ids.iter().position(|x| *x == id) {
            Some(at) => {
                self.ids.remove(at);
                if at < self.numbers.len() {
                    self.numbers.remove(at);
                }
            }
            None => unreachable!(),
        }
    }

    fn poll(&mut self, now: u64) -> Option<(u32, i32)> {
        if now < 2 {
            return None;
        }
        let id = self.ids.pop()?;
        Some((id, self.numbers.pop().unwrap_or(0)))
    }

    fn event(&mut self, _word: i32) {}

    fn close(&mut self, _id: u32) {}
}

/// Two objects run under a script beside a backlog, which is dropped once, and tell that.
fn serves_backlog(
    rt: &impl Abort,
    alloc: Global,
    script: &str,
    reported: &[u8],
) -> Result<(), Fail> {
    let drops = Rc::new(alloc, Cell::new(0))?;
    serves_beside(
        rt,
        alloc,
        Backlog::boxed(alloc, &drops)?,
        &[TWO_SENSORS],
        script,
        ExitStatus::Unfinished,
        reported,
    )?;
    assert!(rt; drops.get() == 1);
    Ok(())
}

/// Scripts, and what a run under each tells.
const REPORTED: [(&str, &[u8]); 3] = [
    // Every second request is refused at once, and the others are completed later, until the native is killed.
    (
        "5 kill 0",
        b"@0 main\n@1 run 0 -7\nout -7\n@2 run 0 3\nout 3\n@3 run 0 1\nout 1\n@4 run 0 -7\nout -7\nkilled 0\nend waiting cells 3\n",
    ),
    // What is outstanding as the native is killed is completed with -15, and so is what is asked for later, at once.
    (
        "2 kill 0",
        b"@0 main\n@1 run 0 -7\nout -7\nkilled 0\n@2 run 0 -15\nout -15\n@3 run 0 -15\nout -15\n@4 run 0 -15\nout -15\nend waiting cells 3\n",
    ),
    // A box that lives on is dropped with its machine.
    (
        "",
        b"@0 main\n@1 run 0 -7\nout -7\n@2 run 0 3\nout 3\n@3 run 0 1\nout 1\n@4 run 0 -7\nout -7\nend waiting cells 3\n",
    ),
];

#[test]
fn a_box_completes_what_it_owes_and_is_dropped_once(rt: HostRuntime) -> Result<(), Fail> {
    for (script, reported) in &REPORTED {
        serves_backlog(&rt, rt.alloc(), script, reported)?;
    }
    Ok(())
}
