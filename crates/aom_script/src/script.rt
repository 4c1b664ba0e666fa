//! A script, and how its text is read.
ghost use Rattle.std.specs.Prelude.{◌≡◌, ◌≤◌, ◌⊎◌, [], length, IfOk, IfErr, Ok, Err};
ghost use Rattle.std.specs.List.{list_all};
ghost use Rattle.aom_text.specs.Text.{lines_of};
ghost use Rattle.aom_text.specs.Words.{is_plain};
ghost use Rattle.aom_script.specs.Script.{denoted, denoted_by, last_time, Adds, InRange, IsTimely, AddsLine, LinesWantMemory, RefusesOrWants};
ghost use Rattle.aom_script.specs.Further.{with_event, place_after, with_refusal};

use crate::line::{ScriptLine, read_line};
use crate::{ScriptFault, ScriptFaultKind};
use aom_text::split_text_line;
use aom_transcript::TimedEvent;
use std::alloc::{AllocError, Global};
use std::marker::Model;

/// The most bytes of a script's text.
const MAX_BYTES: usize = 1 << 20;

/// What a script says.
#[derive(Drop)]
pub struct Script {
    refused: Vec<u32>,
    timed: Vec<TimedEvent>,
}

impl Model for Script {
    ghost use Rattle.aom_script.specs.Script.{Script as ScriptRecord};

    ghost Value = { ScriptRecord };

    ghost view = { λ s. record { refused = s.refused.items; timed = s.timed.items } };
}

impl Script {
    /// The numbers of the allocation requests that are refused, in the order of the text.
    pub fn refused(&self) -> &[u32]
        ensures { result.now ≡ self.now.refused }
    {
        self.refused.as_slice()
    }

    /// What comes from outside, in the order of the text. No time is below the one before it.
    pub fn events(&self) -> &[TimedEvent]
        ensures { result.now ≡ self.now.timed }
    {
        self.timed.as_slice()
    }

    /// The same script, by which the request of that number is refused too.
    pub fn with_refusal(&self, alloc: Global, number: u32) -> Result<Script, AllocError>
        ensures { IfOk result (λ script. script ≡ with_refusal number self.now) }
    {
        let mut refused = Vec::from_slice(alloc, self.refused())?;
        refused.push(number)?;
        let timed = Vec::from_slice(alloc, self.events())?;
        Ok(Script { refused, timed })
    }

    /// The same script with one event more, which comes after all that come by its time.
    pub fn with_event(&self, alloc: Global, event: TimedEvent) -> Result<Script, AllocError>
        ensures script { IfOk result (λ script. script ≡ with_event event self.now) }
        ensures timely { InRange event → IsTimely self.now.timed → IfOk result (λ script. IsTimely script.timed) }
    {
        let refused = Vec::from_slice(alloc, self.refused())?;
        let mut timed = Vec::from_slice(alloc, self.events())?;
        timed.insert(self.place_after(event.time), event)?;
        Ok(Script { refused, timed })
    }

    /// How many of the first events come by that time.
    fn place_after(&self, time: u64) -> usize
        ensures place { result ≡ place_after time self.now.timed }
        ensures within { result ≤ length self.now.timed }
    {
        let mut place = 0;
        while place < self.timed.len() && self.timed[place].time <= time {
            place += 1;
        }
        place
    }

    fn empty(alloc: Global) -> Script
        ensures refused { result.refused ≡ [] }
        ensures timed { result.timed ≡ [] }
    {
        Script {
            refused: Vec::new(alloc),
            timed: Vec::new(alloc),
        }
    }

    /// The time of the last event, or 0.
    fn last_time(&self) -> u64
        ensures { result ≡ last_time self.now.timed }
    {
        match self.timed.last() {
            Some(event) => event.time,
            None => 0,
        }
    }

    /// Adds what a line says.
    fn keep(&mut self, said: ScriptLine) -> Result<(), ScriptFaultKind>
        ensures { AddsLine said self.old self.new result }
    {
        match said {
            ScriptLine::Empty => {}
            ScriptLine::Refuse(request) => self.refused.push(request)?,
            ScriptLine::Timed(event) => self.timed.push(event)?,
        }
        Ok(())
    }

    /// Adds what the line of that number says, of which it is known whether it has no byte that a text may not have.
    fn add(&mut self, number: u32, line: &[u8], is_text: bool) -> Result<(), ScriptFaultKind>
        requires { is_text ≡ list_all is_plain line.now }
        ensures { Adds number line.now self.old self.new result }
    {
        let said = read_line(number, self.last_time(), line, is_text)?;
        self.keep(said)
    }
}

/// Reads a script.
pub fn read_script(alloc: Global, text: &[u8]) -> Result<Script, ScriptFault>
    ensures ok { IfOk result (λ script. denoted text.now ≡ Ok script) }
    ensures timely { IfOk result (λ script. IsTimely script.timed) }
    ensures err { IfErr result (λ fault. RefusesOrWants text.now fault) }
{
    if text.len() > MAX_BYTES {
        return Err(ScriptFault {
            line: 1,
            kind: ScriptFaultKind::LimitPassed,
        });
    }
    read_lines(alloc, text)
}

/// Reads the lines of a text.
fn read_lines(alloc: Global, text: &[u8]) -> Result<Script, ScriptFault>
    ensures ok { IfOk result (λ script. denoted_by (lines_of text.now) ≡ Ok script) }
    ensures err { IfErr result (λ fault. (denoted_by (lines_of text.now) ≡ Err fault) ⊎ LinesWantMemory (lines_of text.now) fault) }
{
    let mut script = Script::empty(alloc);
    let mut rest = text;
    let mut count = 0;
    while !rest.is_empty() {
        let (line, after, is_text) = split_text_line(rest);
        count += 1;
        match script.add(count, line, is_text) {
            Ok(()) => rest = after,
            Err(kind) => return Err(ScriptFault { line: count, kind }),
        }
    }
    Ok(script)
}
