//! What is told of each line of a source: what was added there, and the methods that begin there with what they cost.
ghost use Rattle.std.specs.Prelude.{◌≡◌, ◌++◌, OnOk};
ghost use Rattle.aom_source_commands.specs.Mapping.{added_text, named_text, object_text, reason_text};

use aom_cost_report::FigureWriter;
use aom_source::{Origin, Written};
use aom_source_code::{Note, Reason};
use aom_source_tokens::Tokens;
use std::alloc::{AllocError, Global};

/// What is told of a line.
#[derive(Clone, Copy, PartialEq, Eq)]
pub enum Told<'a> {
    /// An instruction was added for that reason.
    Added(Reason, &'a [u8]),
    /// A method of that name in the assembly text begins there, and costs so much.
    Method {
        name: &'a [u8],
        price: u64,
        leaves: bool,
    },
}

impl<'a> Told<'a> {
    /// Writes it as words.
    pub fn write(&self, text: &mut FigureWriter) -> Result<(), AllocError> {
        match *self {
            Told::Added(reason, name) => write_added(text, reason, name),
            Told::Method {
                name,
                price,
                leaves,
            } => {
                text.words(name)?;
                text.count(b": price ", price)?;
                if leaves {
                    text.words(b", leaves")?;
                }
                Ok(())
            }
        }
    }
}

/// Writes why an instruction was added.
pub fn write_added(text: &mut FigureWriter, reason: Reason, name: &[u8]) -> Result<(), AllocError>
    ensures { OnOk result (text.new ≡ text.old ++ added_text reason name.now) }
{
    text.words(reason_words(reason))?;
    text.words(object_words(reason, name))
}

/// What is done for a reason, before the name of what it is done to.
fn reason_words(reason: Reason) -> &'static [u8]
    ensures { result.now ≡ reason_text reason }
{
    match reason {
        Reason::Written => b"",
        Reason::Guards => b"guards ",
        Reason::Unguards => b"unguards ",
        Reason::Deletes => b"deletes ",
        Reason::DeletesOld => b"deletes the old ",
        Reason::Empties => b"empties ",
        Reason::RunsDeferred => b"runs what was deferred",
        Reason::Completes => b"completes the request",
        Reason::Cancels => b"cancels the request",
        Reason::Widens => b"counts as ",
    }
}

/// What it is done to, for a reason that is about an object.
fn object_words(reason: Reason, name: &[u8]) -> &[u8]
    ensures { result.now ≡ object_text reason name.now }
{
    match reason {
        Reason::RunsDeferred | Reason::Completes | Reason::Cancels => b"",
        _ => named_words(name),
    }
}

/// The name of an object. One without a name was just made.
fn named_words(name: &[u8]) -> &[u8]
    ensures { result.now ≡ named_text name.now }
{
    if name.is_empty() {
        return b"a new object";
    }
    name
}

/// What is told of each line, from the first on.
pub fn told_of<'a>(
    alloc: Global,
    tokens: &Tokens<'_>,
    written: &'a Written<'a>,
    prices: &[u64],
) -> Result<Vec<Vec<Told<'a>>>, AllocError> {
    let mut told = nothing_told(alloc, tokens.source())?;
    let (mut at, mut method) = (0, 0);
    for line in written.text.split(|byte| *byte == b'\n') {
        let Some(origin) = written.origins.get(at) else {
            return Ok(told);
        };
        if let Some(name) = method_name(line) {
            let price = prices.get(method).copied().unwrap_or(0);
            let leaves = is_leaving(line);
            add(
                &mut told,
                tokens,
                *origin,
                Told::Method {
                    name,
                    price,
                    leaves,
                },
            )?;
            method = method.saturating_add(1);
        } else if is_shown(origin.note) {
            let Note { reason, name } = origin.note;
            add(&mut told, tokens, *origin, Told::Added(reason, name))?;
        }
        at = at.saturating_add(1);
    }
    Ok(told)
}

/// A guard tells of its end too.
fn is_shown(note: Note<'_>) -> bool {
    !matches!(note.reason, Reason::Written | Reason::Unguards)
}

/// An empty list for each line.
fn nothing_told<'a>(alloc: Global, source: &[u8]) -> Result<Vec<Vec<Told<'a>>>, AllocError> {
    let mut told: Vec<Vec<Told<'a>>> = Vec::new(alloc);
    told.push(Vec::new(alloc))?;
    for byte in source {
        if *byte == b'\n' {
            told.push(Vec::new(alloc))?;
        }
    }
    Ok(told)
}

fn add<'a>(
    told: &mut Vec<Vec<Told<'a>>>,
    tokens: &Tokens<'_>,
    origin: Origin<'a>,
    what: Told<'a>,
) -> Result<(), AllocError> {
    let line = tokens
        .get(origin.token as usize)
        .place
        .line
        .saturating_sub(1) as usize;
    if let Some(list) = told.get_mut(line) {
        list.push(what)?;
    }
    Ok(())
}

/// The name of the method that begins in a line of an assembly text.
fn method_name(line: &[u8]) -> Option<&[u8]> {
    let mut words = line.split(|byte| *byte == b' ');
    match words.next() {
        Some(b"method") => words.next(),
        _ => None,
    }
}

/// Whether the head of a method says that it leaves: behind its name and its role there are at most the names of its class and of what it overrides.
fn is_leaving(head: &[u8]) -> bool {
    let mut is_name = false;
    for word in head.split(|byte| *byte == b' ').skip(3) {
        match word {
            _ if is_name => is_name = false,
            b"of" | b"over" => is_name = true,
            _ => return word == b"leaves".as_slice(),
        }
    }
    false
}
