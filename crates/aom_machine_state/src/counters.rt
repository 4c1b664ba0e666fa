//! The clock, the counts, and how far the run has come.
ghost use Rattle.std.specs.Prelude.{◌≡◌, ◌<◌, ◌+◌, ◌^◌, suc, Some, None, true, false, cond};
ghost use Rattle.aom_semantics.specs.State.{raised};
ghost use Rattle.aom_transcript.specs.declared.line.Ending.TheVariants.{Error, Limit, MainLeft, Stopped, Waiting};
ghost use Rattle.aom_machine_state.specs.Counts.{raised_by};

use aom_transcript::Ending;
use std::marker::Model;

/// What no place of the machine tells.
#[derive(Drop)]
pub struct Counters {
    clock: u64,
    requests: u64,
    steps: u64,
    /// Dispatches of objects that are over.
    dispatches: u64,
    announced: bool,
    stopped: bool,
    /// Events that are delivered.
    delivered: u64,
    /// The natives before this one are polled in the turn at hand.
    polled: u64,
    ended: Option<Ending>,
}

impl Model for Counters {
    ghost use Rattle.aom_semantics.specs.State.{Counters as CountersRecord};

    ghost Value = { CountersRecord };

    ghost view = { λ r. record { clock = r.clock; requests = r.requests; steps = r.steps; dispatches = r.dispatches; announced = r.announced; stopped = r.stopped; delivered = r.delivered; polled = r.polled; ended = r.ended } };
}

impl Counters {
    /// Time 0, before anything.
    pub fn new() -> Counters
        ensures { result ≡ record { clock = 0; requests = 0; steps = 0; dispatches = 0; announced = false; stopped = false; delivered = 0; polled = 0; ended = None } }
    {
        Counters {
            clock: 0,
            requests: 0,
            steps: 0,
            dispatches: 0,
            announced: false,
            stopped: false,
            delivered: 0,
            polled: 0,
            ended: None,
        }
    }

    pub fn clock(&self) -> u64
        ensures { result ≡ self.now.clock }
    {
        self.clock
    }

    /// The clock goes on by one.
    pub fn tick(&mut self)
        ensures { self.new ≡ record self.old { clock = raised self.old.clock } }
    {
        self.clock = self.clock.saturating_add(1);
    }

    /// Time passes, and a turn begins in which no native is polled yet.
    pub fn set_clock(&mut self, time: u64)
        ensures { self.new ≡ record self.old { clock = time; polled = 0 } }
    {
        self.clock = time;
        self.polled = 0;
    }

    pub fn requests(&self) -> u64
        ensures { result ≡ self.now.requests }
    {
        self.requests
    }

    /// Counts an allocation request, and answers its number.
    pub fn count_request(&mut self) -> u64
        ensures counted { self.new ≡ record self.old { requests = raised self.old.requests } }
        ensures number { result ≡ raised self.old.requests }
    {
        self.requests = self.requests.saturating_add(1);
        self.requests
    }

    pub fn steps(&self) -> u64
        ensures { result ≡ self.now.steps }
    {
        self.steps
    }

    /// Counts so many steps.
    pub fn count_steps(&mut self, count: u32)
        requires { self.old.steps + count < 2 ^ 64 }
        ensures { self.new ≡ record self.old { steps = raised_by count self.old.steps } }
    {
        self.steps += u64::from(count);
    }

    /// A dispatch begins, which has taken no step. The natives are polled anew after it.
    pub fn reset_counts(&mut self)
        ensures { self.new ≡ record self.old { steps = 0; polled = 0 } }
    {
        self.steps = 0;
        self.polled = 0;
    }

    pub fn dispatches(&self) -> u64
        ensures { result ≡ self.now.dispatches }
    {
        self.dispatches
    }

    /// The dispatch of an object is over: it counts, and its steps count no more.
    pub fn count_dispatch(&mut self)
        ensures { self.new ≡ record self.old { steps = 0; dispatches = raised self.old.dispatches } }
    {
        self.steps = 0;
        self.dispatches = self.dispatches.saturating_add(1);
    }

    pub fn delivered(&self) -> u64
        ensures { result ≡ self.now.delivered }
    {
        self.delivered
    }

    /// One event more is delivered.
    pub fn deliver(&mut self)
        requires { self.old.delivered + 1 < 2 ^ 64 }
        ensures { self.new ≡ record self.old { delivered = suc self.old.delivered } }
    {
        self.delivered += 1;
    }

    pub fn polled(&self) -> u64
        ensures { result ≡ self.now.polled }
    {
        self.polled
    }

    /// The natives up to that one are polled in the turn at hand.
    pub fn poll(&mut self, native: usize)
        requires { native + 1 < 2 ^ 64 }
        ensures { self.new ≡ record self.old { polled = suc native } }
    {
        self.polled = native as u64 + 1;
    }

    /// Whether main's line is written.
    pub fn is_announced(&self) -> bool
        ensures { result ≡ self.now.announced }
    {
        self.announced
    }

    pub fn announce(&mut self)
        ensures { self.new ≡ record self.old { announced = true } }
    {
        self.announced = true;
    }

    pub fn stop(&mut self)
        ensures { self.new ≡ record self.old { stopped = true } }
    {
        self.stopped = true;
    }

    /// Whether `stop` was run.
    pub fn is_stopped(&self) -> bool
        ensures { result ≡ self.now.stopped }
    {
        self.stopped
    }

    pub fn ended(&self) -> Option<Ending>
        ensures { result ≡ self.now.ended }
    {
        self.ended
    }

    /// The root is gone, and the run is over.
    pub fn finish(&mut self)
        ensures { self.new ≡ record self.old { ended = Some Stopped } }
    {
        self.ended = Some(Ending::Stopped);
    }

    /// The end of a dispatch.
    pub fn close(&mut self)
        ensures { self.new ≡ record self.old { clock = raised self.old.clock; ended = cond self.old.stopped (Some Stopped) None } }
    {
        self.tick();
        self.ended = self.stopped.then_some(Ending::Stopped);
    }

    /// The end of main's dispatch, which left with that code.
    pub fn end_left(&mut self, code: i32)
        ensures { self.new ≡ record self.old { clock = raised self.old.clock; ended = Some (MainLeft code) } }
    {
        self.tick();
        self.ended = Some(Ending::MainLeft(code));
    }

    /// The end of an object's dispatch, which was left, and that was the answer.
    pub fn fail(&mut self, answer: i32)
        ensures { self.new ≡ record self.old { clock = raised self.old.clock; ended = Some (Error answer) } }
    {
        self.tick();
        self.ended = Some(Ending::Error(answer));
    }

    /// So many dispatches are over as there may be.
    pub fn cut(&mut self)
        ensures { self.new ≡ record self.old { ended = Some Limit } }
    {
        self.ended = Some(Ending::Limit);
    }

    /// A turn in which nothing is due.
    pub fn wait(&mut self)
        ensures { self.new ≡ record self.old { ended = Some Waiting } }
    {
        self.ended = Some(Ending::Waiting);
    }
}
