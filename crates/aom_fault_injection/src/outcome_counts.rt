//! How runs ended.
ghost use Rattle.std.specs.Prelude.{◌≡◌, ◌+◌, ◌<◌, ◌≤◌, ◌-◌, ◌^◌, ◌++◌, decimal, length};
ghost use Rattle.aom_transcript.specs.Text.{ended};
ghost use Rattle.aom_fault_injection.specs.OutcomeTables.{closing_text, counted, nothing_counted, summary_text, unexpected_text};

use crate::Injection;
use aom_transcript::{Ending, Text};
use std::marker::Model;

/// No closing is longer.
const LONGEST: usize = 256;

/// The closing lines.
pub type Closing = Text<LONGEST>;

/// How many runs there were, and how many of them ended in each way.
#[derive(Drop)]
pub struct OutcomeCounts {
    tries: usize,
    stopped: usize,
    waiting: usize,
    left: usize,
    limit: usize,
    error: usize,
}

impl Model for OutcomeCounts {
    ghost use Rattle.std.specs.Prelude.{◌+◌, ◌≡◌};
    ghost use Rattle.aom_fault_injection.specs.OutcomeTables.{OutcomeCounts as TallyRecord};

    ghost Value = { TallyRecord };

    ghost view = { λ t. record { tries = t.tries; stopped = t.stopped; waiting = t.waiting; left = t.left; limit = t.limit; error = t.error } };

    ghost invariant = { λ t. t.stopped + t.waiting + t.left + t.limit + t.error ≡ t.tries };
}

impl OutcomeCounts {
    pub fn new() -> OutcomeCounts
        ensures { result ≡ nothing_counted }
    {
        OutcomeCounts {
            tries: 0,
            stopped: 0,
            waiting: 0,
            left: 0,
            limit: 0,
            error: 0,
        }
    }

    /// Counts a run that ended so.
    pub fn count(&mut self, ending: Ending)
        requires { self.old.tries < 2 ^ 64 - 1 }
        ensures { self.new ≡ counted self.old ending }
    {
        self.tries += 1;
        match ending {
            Ending::Stopped => self.stopped += 1,
            Ending::Waiting => self.waiting += 1,
            Ending::MainLeft(_) => self.left += 1,
            Ending::Limit => self.limit += 1,
            Ending::Error(_) => self.error += 1,
        }
    }

    /// The closing lines: the first pair that was left out, if there is one, what was counted, and how many did not end as expected, if that is asked.
    pub fn closing(&self, left: Option<Injection>, unexpected: Option<usize>) -> Closing
        ensures { result ≡ closing_text left self.now unexpected }
    {
        let mut text = Closing::new();
        if let Some(injection) = left {
            text.add(b"untried from ");
            text.add(injection.text().as_bytes());
            text.add(b"\n");
        }
        self.add_to(&mut text);
        add_unexpected(unexpected, &mut text);
        text
    }

    /// Adds what was counted.
    fn add_to(&self, text: &mut Closing)
        requires { length text.old ≤ 54 }
        ensures text { text.new ≡ text.old ++ summary_text self.now }
        ensures short { length text.new ≤ length text.old + 165 }
    {
        text.add_count(b"tries ", self.tries);
        text.add_count(b" stopped ", self.stopped);
        text.add_count(b" waiting ", self.waiting);
        text.add_count(b" left ", self.left);
        text.add_count(b" limit ", self.limit);
        text.add_count(b" error ", self.error);
        text.add(b"\n");
    }
}

/// Adds how many runs did not end as expected, if that is asked.
fn add_unexpected(unexpected: Option<usize>, text: &mut Closing)
    requires { length text.old ≤ 219 }
    ensures { text.new ≡ text.old ++ unexpected_text unexpected }
{
    if let Some(count) = unexpected {
        add_line(b"unexpected ", count, text);
    }
}

/// Adds words and a number, and ends the line.
fn add_line(words: &[u8], count: usize, text: &mut Closing)
    requires { length text.old + length words.now + 21 ≤ 256 }
    ensures { text.new ≡ text.old ++ ended (words.now ++ decimal count) }
{
    text.add_count(words, count);
    text.add(b"\n");
}
