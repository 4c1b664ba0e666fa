//! The words of a client's line.
ghost use Rattle.std.specs.Prelude.{◌≡◌, ◌∷◌, if◌then◌else◌, codes, Some, Err};
ghost use Rattle.std.specs.Str.{bytes_eq};
ghost use Rattle.aom_text.specs.Numbers.{number_of};
ghost use Rattle.aom_script.specs.Script.{client_says, command_numbers, connect_numbers, connect_says, leaving_says, message_numbers, message_says, send_says};
ghost use Rattle.aom_script.specs.declared.fault.ScriptFaultKind.TheVariants.{BadLine};
ghost use Rattle.aom_script.specs.declared.reading.CommandNumbers.TheVariants.{ToClose, ToDie};

use crate::ScriptFaultKind;
use crate::reading::{CommandNumbers, EventNumbers, Reading};
use aom_text::{Number, WordCursor};

/// Reads the line of a client by its kind, its time and the words after them.
pub fn read_client(kind: &[u8], time: &[u8], words: WordCursor) -> Result<Reading, ScriptFaultKind>
    ensures { result ≡ client_says kind.now (time.now ∷ words.entry) }
{
    if kind == b"connect".as_slice() {
        read_connect(time, words)
    } else if kind == b"send".as_slice() {
        read_send(time, words)
    } else {
        read_end(kind, time, words)
    }
}

/// Reads the line of a client that closes its session or dies.
fn read_end(kind: &[u8], time: &[u8], words: WordCursor) -> Result<Reading, ScriptFaultKind>
    ensures { result ≡ (if bytes_eq kind.now (codes "close") then leaving_says ToClose (time.now ∷ words.entry) else if bytes_eq kind.now (codes "die") then leaving_says ToDie (time.now ∷ words.entry) else Err BadLine) }
{
    if kind == b"close".as_slice() {
        read_leaving(time, words, CommandNumbers::ToClose)
    } else if kind == b"die".as_slice() {
        read_leaving(time, words, CommandNumbers::ToDie)
    } else {
        Err(ScriptFaultKind::BadLine)
    }
}

fn read_connect(time: &[u8], mut words: WordCursor) -> Result<Reading, ScriptFaultKind>
    ensures { result ≡ connect_says (time.now ∷ words.entry) }
{
    match (words.next(), words.next(), words.next()) {
        (Some(client), Some(class), Some(slots)) if words.is_empty() => {
            read_connected(time, client, class, slots)
        }
        _ => Err(ScriptFaultKind::BadLine),
    }
}

fn read_connected(
    time: &[u8],
    client: &[u8],
    class: &[u8],
    slots: &[u8],
) -> Result<Reading, ScriptFaultKind>
    ensures { result ≡ connect_numbers (number_of time.now) (number_of client.now) (number_of class.now) (number_of slots.now) }
{
    match (
        Number::of(time),
        Number::of(client),
        Number::of(class),
        Number::of(slots),
    ) {
        (Some(time), Some(client), Some(class), Some(slots)) => {
            let command = CommandNumbers::ToConnect(class, slots);
            Ok(Reading::At(time, EventNumbers::OfClient(client, command)))
        }
        _ => Err(ScriptFaultKind::BadNumber),
    }
}

fn read_send(time: &[u8], mut words: WordCursor) -> Result<Reading, ScriptFaultKind>
    ensures { result ≡ send_says (time.now ∷ words.entry) }
{
    match words.next() {
        Some(client) => read_message(time, client, words),
        None => Err(ScriptFaultKind::BadLine),
    }
}

/// Reads the words of a message.
fn read_message(
    time: &[u8],
    client: &[u8],
    mut words: WordCursor,
) -> Result<Reading, ScriptFaultKind>
    ensures { result ≡ message_says time.now client.now words.entry }
{
    match (
        words.next(),
        words.next(),
        words.next(),
        words.next(),
        words.next(),
    ) {
        (Some(function), Some(first), Some(second), Some(third), Some(fourth))
            if words.is_empty() => {
            let command = message_of(function, first, second, third, fourth);
            with_numbers(time, client, command)
        }
        _ => Err(ScriptFaultKind::BadLine),
    }
}

fn message_of(
    function: &[u8],
    first: &[u8],
    second: &[u8],
    third: &[u8],
    fourth: &[u8],
) -> Option<CommandNumbers>
    ensures { result ≡ message_numbers (number_of function.now) (number_of first.now) (number_of second.now) (number_of third.now) (number_of fourth.now) }
{
    let function = Number::of(function)?;
    let first = Number::of(first)?;
    let second = Number::of(second)?;
    let third = Number::of(third)?;
    let fourth = Number::of(fourth)?;
    Some(CommandNumbers::ToSend(function, first, second, third, fourth))
}

fn read_leaving(
    time: &[u8],
    mut words: WordCursor,
    command: CommandNumbers,
) -> Result<Reading, ScriptFaultKind>
    ensures { result ≡ leaving_says command (time.now ∷ words.entry) }
{
    match words.next() {
        Some(client) if words.is_empty() => with_numbers(time, client, Some(command)),
        _ => Err(ScriptFaultKind::BadLine),
    }
}

/// What a client does, if its time and its own number are numbers too.
#[inline(always)]
fn with_numbers(
    time: &[u8],
    client: &[u8],
    command: Option<CommandNumbers>,
) -> Result<Reading, ScriptFaultKind>
    ensures { result ≡ command_numbers (number_of time.now) (number_of client.now) command }
{
    match (Number::of(time), Number::of(client), command) {
        (Some(time), Some(client), Some(command)) => {
            Ok(Reading::At(time, EventNumbers::OfClient(client, command)))
        }
        _ => Err(ScriptFaultKind::BadNumber),
    }
}
