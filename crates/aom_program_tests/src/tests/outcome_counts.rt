//! What a native is asked in a run.
ghost use Rattle.std.specs.Prelude.{◌≡◌, [], IfOk};

use super::served::{ASKS, COUNTS, TWO_NATIVES, serves_beside, serves_beside_both};
use aom_commands::ExitStatus;
use aom_natives::{Counter, Line, Native};
use std::alloc::{AllocError, Global};
use std::cell::Cell;
use std::process::Abort;
use std::rc::Rc;
use std::test::Fail;

/// What a native is asked, and that it is dropped.
#[derive(Clone, Copy)]
enum Ask {
    Open,
    Start,
    Call,
    Cancel,
    Poll,
    Event,
    Close,
    Dropped,
}

/// How often a native was asked for what, in that order, and the sum of its events' words.
#[derive(Clone, Copy)]
struct AskCounts {
    times: [u32; 8],
    words: i32,
}

/// A native, and how often it was asked for what, which is counted outside, where it can be read once the native is gone.
struct CountedNative<N: Native> {
    native: N,
    asked: Rc<Cell<AskCounts>>,
}

impl<N: Native> Drop for CountedNative<N> {
    fn drop(self) {
        self.note(Ask::Dropped, 0);
        let CountedNative {
            native: _,
            asked: _,
        } = self;
    }
}

impl<N: Native> CountedNative<N> {
    fn new(native: N, asked: Rc<Cell<AskCounts>>) -> CountedNative<N>
        ensures { ⟦<CountedNative<N> as Native>⟧.owed result ≡ N.owed native }
    {
        CountedNative { native, asked }
    }

    /// Once more, with the word of an event.
    fn note(&self, ask: Ask, word: i32) {
        let mut asked = self.asked.get();
        if let Some(times) = asked.times.get_mut(ask as usize) {
            *times = times.saturating_add(1);
        }
        asked.words = asked.words.wrapping_add(word);
        self.asked.set(asked);
    }
}

impl<N: Native> Native for CountedNative<N> {
    ghost owed = { λ t. N.owed t.native };

    ghost open_may = { λ t. N.open_may t.native };

    ghost start_may = { λ t. N.start_may t.native };

    ghost call_may = { λ t. N.call_may t.native };

    ghost poll_may = { λ t. N.poll_may t.native };

    fn open(&mut self, id: u32) -> i32 {
        self.note(Ask::Open, 0);
        self.native.open(id)
    }

    fn start(&mut self, id: u32, function: i32, word: i32) -> i32 {
        self.note(Ask::Start, 0);
        self.native.start(id, function, word)
    }

    fn call(&mut self, id: u32, function: i32, word: i32) -> i32 {
        self.note(Ask::Call, 0);
        self.native.call(id, function, word)
    }

    fn cancel(&mut self, id: u32) {
        self.note(Ask::Cancel, 0);
        self.native.cancel(id);
    }

    fn poll(&mut self, now: u64) -> Option<(u32, i32)> {
        self.note(Ask::Poll, 0);
        self.native.poll(now)
    }

    fn event(&mut self, word: i32) {
        self.note(Ask::Event, word);
        self.native.event(word);
    }

    fn close(&mut self, id: u32) {
        self.note(Ask::Close, 0);
        self.native.close(id);
    }
}

/// A native in a box, with what it is asked counted there.
fn tallied<N: Native>(
    alloc: Global,
    native: N,
    asked: &Rc<Cell<AskCounts>>,
) -> Result<Box<CountedNative<N>>, AllocError>
    requires { N.owed native ≡ [] }
    ensures { IfOk result (λ b. ⟦<CountedNative<N> as Native>⟧.owed b.value ≡ []) }
{
    Ok(Box::new(alloc, CountedNative::new(native, asked.clone()?))?)
}

/// A run of the image that asks, whose main ends as a text says, under a script: how it ends, what it tells, and how often the
/// native beside it is asked for what.
struct Case<'a> {
    end: &'a str,
    script: &'a str,
    status: ExitStatus,
    reported: &'a [u8],
    times: [u32; 8],
    words: i32,
}

const CASES: [Case<'static>; 6] = [
    // The object goes with the run, and what it has begun is cancelled.
    Case {
        end: "stop;ret;end",
        script: "",
        status: ExitStatus::Done,
        reported: b"@0 main\nout -5\nout -5\ngone 0\nend stopped cells 0\n",
        times: [1, 1, 2, 1, 0, 0, 1, 1],
        words: 0,
    },
    // It is polled in the turn after main, and in the one to which time passes, which is the last.
    Case {
        end: "ret;end",
        script: "5 event 1 3",
        status: ExitStatus::Unfinished,
        reported: b"@0 main\nout -5\nout -5\nend waiting cells 1\n",
        times: [1, 1, 2, 0, 2, 0, 0, 1],
        words: 0,
    },
    // It is polled before the dispatch that the first event brings, behind it, and in the turn to which time passes then.
    Case {
        end: "ret;end",
        script: "0 event 0 3\n5 event 0 40\n5 event 1 500\n6 kill 0\n7 event 0 6000",
        status: ExitStatus::Unfinished,
        reported: b"@0 main\nout -5\nout -5\n@1 run 0 3\nout 3\nkilled 0\nend waiting cells 1\n",
        times: [1, 1, 2, 0, 3, 2, 0, 1],
        words: 43,
    },
    // A word is handed on as it is, below 0, at 0 and at its lowest.
    Case {
        end: "ret;end",
        script: "0 event 0 -3",
        status: ExitStatus::Unfinished,
        reported: b"@0 main\nout -5\nout -5\n@1 run 0 -3\nout -3\nend waiting cells 1\n",
        times: [1, 1, 2, 0, 2, 1, 0, 1],
        words: -3,
    },
    Case {
        end: "ret;end",
        script: "0 event 0 0",
        status: ExitStatus::Unfinished,
        reported: b"@0 main\nout -5\nout -5\n@1 run 0 0\nout 0\nend waiting cells 1\n",
        times: [1, 1, 2, 0, 2, 1, 0, 1],
        words: 0,
    },
    Case {
        end: "ret;end",
        script: "0 event 0 -2147483648",
        status: ExitStatus::Unfinished,
        reported: b"@0 main\nout -5\nout -5\n@1 run 0 -2147483648\nout -2147483648\nend waiting cells 1\n",
        times: [1, 1, 2, 0, 2, 1, 0, 1],
        words: i32::MIN,
    },
];

/// What a native that nobody has asked yet was asked.
const NEVER: AskCounts = AskCounts {
    times: [0; 8],
    words: 0,
};

/// It is asked so often.
fn asks(rt: &impl Abort, alloc: Global, case: &Case<'_>) -> Result<(), Fail> {
    let asked = Rc::new(alloc, Cell::new(NEVER))?;
    serves_beside(
        rt,
        alloc,
        tallied(alloc, Line::new(), &asked)?,
        &[ASKS, case.end],
        case.script,
        case.status,
        case.reported,
    )?;
    let asked = asked.get();
    assert!(rt; asked.times.as_slice() == case.times.as_slice() && asked.words == case.words);
    Ok(())
}

/// Once for each call and for each event, once in each turn, and once more as it is dropped.
#[test]
fn a_box_is_asked_once_for_each_call(rt: HostRuntime) -> Result<(), Fail> {
    for case in &CASES {
        asks(&rt, rt.alloc(), case)?;
    }
    Ok(())
}

/// A counter whose object goes with the run is opened, asked twice, closed and dropped, and no more.
#[test]
fn a_counter_is_asked_what_its_object_asks(rt: HostRuntime) -> Result<(), Fail> {
    let alloc = rt.alloc();
    let asked = Rc::new(alloc, Cell::new(NEVER))?;
    serves_beside(
        &rt,
        alloc,
        tallied(alloc, Counter::new(), &asked)?,
        &[COUNTS, "stop;ret;end"],
        "",
        ExitStatus::Done,
        b"@0 main\nout 7\nout 14\ngone 0\nend stopped cells 0\n",
    )?;
    let asked = asked.get();
    assert!(rt; asked.times == [1, 0, 2, 0, 0, 0, 1, 1] && asked.words == 0);
    Ok(())
}

/// Of two natives each is asked by its own object alone, and told its own events; in each turn both are polled.
#[test]
fn each_of_two_boxes_is_asked_by_its_own_object(rt: HostRuntime) -> Result<(), Fail> {
    let alloc = rt.alloc();
    let first = Rc::new(alloc, Cell::new(NEVER))?;
    let second = Rc::new(alloc, Cell::new(NEVER))?;
    serves_beside_both(
        &rt,
        alloc,
        tallied(alloc, Counter::new(), &first)?,
        tallied(alloc, Line::new(), &second)?,
        &[TWO_NATIVES, "ret;end"],
        "0 event 1 3\n0 event 0 50",
        ExitStatus::Unfinished,
        b"@0 main\nout 7\nout 14\n@1 run 1 3\nout 3\nend waiting cells 3\n",
    )?;
    let first = first.get();
    let second = second.get();
    assert!(rt; first.times == [1, 0, 2, 0, 2, 1, 0, 1] && first.words == 50);
    assert!(rt; second.times == [1, 1, 0, 0, 2, 1, 0, 1] && second.words == 3);
    Ok(())
}
