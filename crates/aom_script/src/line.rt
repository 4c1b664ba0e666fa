//! What a line of a script says.
ghost use Rattle.std.specs.Prelude.{◌≡◌};
ghost use Rattle.std.specs.List.{list_all};
ghost use Rattle.aom_text.specs.Numbers.{number_signed, number_within};
ghost use Rattle.aom_text.specs.Words.{is_plain};
ghost use Rattle.aom_script.specs.Script.{command_within, event_within, line_says, said_by, send_of};

use crate::ScriptFaultKind;
use crate::reading::{CommandNumbers, EventNumbers, Reading};
use aom_text::Number;
use aom_transcript::{ClientCommand, Event, TimedEvent};

/// The most lines of a script's text.
const MAX_LINES: u32 = 65536;

/// The latest time, in microseconds.
const LATEST: u64 = 1_000_000_000_000_000;

/// What a line says.
#[derive(Clone, Copy)]
pub enum ScriptLine {
    Empty,
    /// The allocation request of that number, counted from 1, is refused.
    Refuse(u32),
    /// An event comes.
    Timed(TimedEvent),
}

/// Reads the line of that number, which is given without its line feed, after a time.
pub fn read_line(
    number: u32,
    last: u64,
    line: &[u8],
    is_text: bool,
) -> Result<ScriptLine, ScriptFaultKind>
    requires { is_text ≡ list_all is_plain line.now }
    ensures { result ≡ line_says number last line.now }
{
    let reading = Reading::of(line, is_text)?;
    if reading.is_back(last) {
        return Err(ScriptFaultKind::TimeBack);
    }
    match said_by(reading) {
        Some(said) if number <= MAX_LINES => Ok(said),
        _ => Err(ScriptFaultKind::LimitPassed),
    }
}

/// What a line's numbers say, if each is in its range.
fn said_by(reading: Reading) -> Option<ScriptLine>
    ensures { result ≡ said_by reading }
{
    match reading {
        Reading::Blank => Some(ScriptLine::Empty),
        Reading::Refusal(request) => Some(ScriptLine::Refuse(request.within(1, u32::MAX)?)),
        Reading::At(time, event) => Some(ScriptLine::Timed(TimedEvent {
            time: time.up_to(LATEST)?,
            event: event_within(event)?,
        })),
    }
}

fn event_within(numbers: EventNumbers) -> Option<Event>
    ensures { result ≡ event_within numbers }
{
    match numbers {
        EventNumbers::ToReport(native, word) => Some(Event::Report(
            native_within(native)?,
            word.signed()?,
        )),
        EventNumbers::ToKill(native) => Some(Event::Kill(native_within(native)?)),
        EventNumbers::OfClient(client, command) => Some(Event::Client(
            client.within(0, 63)? as u8,
            command_within(command)?,
        )),
    }
}

fn command_within(numbers: CommandNumbers) -> Option<ClientCommand>
    ensures { result ≡ command_within numbers }
{
    match numbers {
        CommandNumbers::ToConnect(class, slots) => Some(ClientCommand::Connect(
            class.within(0, 255)? as u8,
            slots.within(0, 64)? as u8,
        )),
        CommandNumbers::ToSend(function, first, second, third, fourth) => {
            message_within(function, first, second, third, fourth)
        }
        CommandNumbers::ToClose => Some(ClientCommand::Close),
        CommandNumbers::ToDie => Some(ClientCommand::Die),
    }
}

/// The words of a message.
fn message_within(
    function: Number,
    first: Number,
    second: Number,
    third: Number,
    fourth: Number,
) -> Option<ClientCommand>
    ensures { result ≡ send_of (number_signed function) (number_signed first) (number_signed second) (number_signed third) (number_signed fourth) }
{
    let function = function.signed()?;
    let first = first.signed()?;
    let second = second.signed()?;
    let third = third.signed()?;
    let fourth = fourth.signed()?;
    Some(ClientCommand::Send([function, first, second, third, fourth]))
}

/// The number of a native.
fn native_within(number: Number) -> Option<u8>
    ensures { result ≡ number_within 0 15 number }
{
    Some(number.within(0, 15)? as u8)
}
