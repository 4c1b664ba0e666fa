//! Commands as a reader gives them, which may be a user at a terminal.
ghost use Rattle.std.specs.Prelude.{◌≡◌, ◌≤◌, ◌<◌, false, length};

use aom_debug_protocol::{Pending, ends_session, may_repeat};
use aom_transcript::{Reader, Sink, Text, write_text};

/// What is written before each line is read.
const PROMPT: &[u8] = b"(aom) ";

/// The most bytes of a line, its line feed aside.
const MAX_BYTES: usize = 256;

/// The commands that a reader gives, up to the line that ends the session. Where prompts have a place to go, one is written before each line,
/// and an empty line gives the last again that may be repeated. What the reader gives is not known, so nothing is said of what was given.
#[derive(Drop)]
pub struct Commands<R, W> {
    reader: R,
    prompts: Option<W>,
    /// The line that is not yet whole.
    line: Pending,
    /// The line that an empty one repeats; an empty one, where there is none.
    last: Text<MAX_BYTES>,
    has_quit: bool,
}

impl<R, W> Commands<R, W> {
    pub fn new(reader: R, prompts: Option<W>) -> Commands<R, W> {
        Commands {
            reader,
            prompts,
            line: Pending::new(),
            last: Text::new(),
            has_quit: false,
        }
    }

    /// How many of the bytes that come next stand before the end of the session: all, where it does not end in them.
    fn hear(&mut self, bytes: &[u8]) -> usize
        requires { self.old.has_quit ≡ false }
        ensures within { result ≤ length bytes.now }
        ensures some { 0 < length bytes.now → 0 < result }
        ensures reader { self.new.reader ≡ self.old.reader }
    {
        let mut at = 0;
        while at < bytes.len() && !self.has_quit {
            self.hear_byte(bytes[at]);
            at += 1;
        }
        at
    }

    fn hear_byte(&mut self, byte: u8)
        ensures { self.new.reader ≡ self.old.reader }
    {
        if byte == b'\n' {
            self.end_line();
        } else {
            self.line.add(byte);
        }
    }

    /// Hears the byte that a buffer begins with. The buffer then begins with what is given for it, which is so long.
    fn hear_first(&mut self, buffer: &mut [u8]) -> usize
        requires { 0 < length buffer.old }
        ensures within { result ≤ length buffer.new }
        ensures some { 0 < result }
        ensures long { length buffer.new ≡ length buffer.old }
        ensures reader { self.new.reader ≡ self.old.reader }
    {
        if buffer[0] == b'\n' && self.line.is_empty() {
            return repeat(self.last.as_bytes(), buffer);
        }
        self.hear_byte(buffer[0]);
        1
    }

    /// The next line begins.
    fn end_line(&mut self)
        ensures { self.new.reader ≡ self.old.reader }
    {
        self.has_quit = is_end(&self.line);
        keep(&mut self.last, &self.line);
        self.line.clear();
    }
}

/// Whether the line that has come ends the session.
fn is_end(line: &Pending) -> bool {
    match line.line() {
        Some(line) => ends_session(line),
        None => false,
    }
}

/// Keeps a line that may be repeated.
fn keep(last: &mut Text<MAX_BYTES>, line: &Pending) {
    if let Some(line) = line.line() {
        if line.len() <= MAX_BYTES && may_repeat(line) {
            last.cut(0);
            last.add(line);
        }
    }
}

/// Writes a line to the beginning of a buffer, where that has room for it, and else an empty one. It answers how long that is.
fn repeat(last: &[u8], buffer: &mut [u8]) -> usize
    requires { 0 < length buffer.old }
    ensures within { result ≤ length buffer.new }
    ensures some { 0 < result }
    ensures long { length buffer.new ≡ length buffer.old }
{
    let count = if last.len() < buffer.len() {
        last.len()
    } else {
        0
    };
    buffer[..count].copy_from_slice(&last[..count]);
    buffer[count] = b'\n';
    count + 1
}

impl<R: Reader, W: Sink> Commands<R, W> {
    /// Writes a prompt where a line begins, if prompts have a place to go. Whether they have.
    fn prompt(&mut self) -> bool
        ensures reader { self.new.reader ≡ self.old.reader }
        ensures on { self.new.has_quit ≡ self.old.has_quit }
    {
        let begins = self.line.is_empty();
        let Some(out) = &mut self.prompts else {
            return false;
        };
        if begins {
            write_text(out, PROMPT);
        }
        true
    }
}

impl<R: Reader, W: Sink> Reader for Commands<R, W> {
    ghost use Rattle.std.specs.Prelude.{None, ◌||◌};

    ghost given = { λ _. None };

    ghost ended = { λ c. c.has_quit || R.ended c.reader };

    ghost failed = { λ c. R.failed c.reader };

    fn get(&mut self, buffer: &mut [u8]) -> Option<usize> {
        if self.has_quit || buffer.is_empty() {
            return Some(0);
        }
        if !self.prompt() {
            let count = self.reader.get(buffer)?;
            return Some(self.hear(&buffer[..count]));
        }
        let count = self.reader.get(&mut buffer[..1])?;
        if count == 0 {
            return Some(0);
        }
        Some(self.hear_first(buffer))
    }
}
