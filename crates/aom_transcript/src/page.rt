//! The text of lines, in a buffer of its own.
ghost use Rattle.std.specs.Prelude.{◌≡◌, ◌<◌, ◌+◌, ◌≤◌, ◌↔◌, IsTrue, [], ◌∷◌, ◌++◌, length, decimal, codes};
ghost use Rattle.std.specs.Fmt.{signed_decimal};
ghost use Rattle.aom_transcript.specs.Text.{answer_text, asked_text, line_text, end_text, ending_text, ended, tried_text};

use crate::{Asked, Ending, Line, Text};
use itoa::Integer;
use std::marker::Model;

/// How many bytes a page has.
const PAGE: usize = 4096;

/// No line is longer than this, the last one included.
const LONGEST: usize = 64;

/// The text of some lines, each with its line feed.
#[derive(Drop)]
pub struct Page(Text<PAGE>);

impl Model for Page {
    ghost use Rattle.std.specs.Prelude.{ℕ, List};

    ghost Value = { List ℕ };

    ghost view = { λ p. p.0 };
}

impl Page {
    pub fn new() -> Page
        ensures { result ≡ [] }
    {
        Page(Text::new())
    }

    /// Whether there is room for one more line.
    pub fn has_room(&self) -> bool
        ensures { IsTrue result ↔ (length self.now + 64 ≤ 4096) }
    {
        self.0.has_room(LONGEST)
    }

    /// Adds a line of the transcript. The most frequent one is added where it comes up, the others by a function of their own.
    #[inline(always)]
    pub fn add_line(&mut self, line: &Line)
        requires { length self.old + 64 ≤ 4096 }
        ensures { self.new ≡ self.old ++ ended (line_text line.now) }
    {
        match line {
            Line::Gone(class) => self.add_gone(class.number()),
            _ => self.add_seldom(line),
        }
    }

    #[inline(never)]
    fn add_seldom(&mut self, line: &Line)
        requires { length self.old + 64 ≤ 4096 }
        ensures { self.new ≡ self.old ++ ended (line_text line.now) }
    {
        match line {
            Line::Main(time) => {
                self.0.add_count(b"@", *time);
                self.0.add(b" main\n");
            }
            Line::Out(word) => self.add_code(b"out ", *word),
            Line::Leave(code) => self.add_code(b"leave ", *code),
            Line::Gone(class) => self.add_gone(class.number()),
            Line::Run(time, class, status) => {
                self.0.add_count(b"@", *time);
                self.0.add_count(b" run ", class.number());
                self.add_code(b" ", *status);
            }
            Line::Killed(native) => self.add_one(b"killed ", *native),
            Line::Serve(time, class, asked, client) => {
                self.0.add_count(b"@", *time);
                self.0.add_count(b" serve ", class.number());
                self.0.add(asked_words(*asked));
                self.add_one(b"", *client);
            }
            Line::Reply(client, code) => self.add_answer(b"reply ", *client, *code),
            Line::Discard(client, code) => self.add_answer(b"discard ", *client, *code),
            Line::Refuse(client, code) => self.add_answer(b"refuse ", *client, *code),
        }
    }

    /// Adds the last line, where so many cells are left.
    pub fn add_end(&mut self, ending: Ending, cells: usize)
        requires { length self.old + 64 ≤ 4096 }
        ensures { self.new ≡ self.old ++ ended (end_text ending cells) }
    {
        self.0.add(b"end ");
        self.add_ending(ending);
        self.add_one(b" cells ", cells);
    }

    /// Adds how a run ended in which the request of that number was refused too.
    pub fn add_tried(&mut self, number: u64, ending: Ending, cells: usize)
        requires { length self.old + 96 ≤ 4096 }
        ensures { self.new ≡ self.old ++ ended (tried_text number ending cells) }
    {
        self.0.add_count(b"refuse ", number);
        self.0.add(b" ");
        self.add_end(ending, cells);
    }

    pub fn as_bytes(&self) -> &[u8]
        ensures { result.now ≡ self.now }
    {
        self.0.as_bytes()
    }

    /// Forgets the text.
    pub fn clear(&mut self)
        ensures { self.new ≡ [] }
    {
        self.0.cut(0);
    }

    /// Adds that a cell of a class went, the most frequent of lines.
    #[inline(always)]
    fn add_gone(&mut self, class: u16)
        requires { length self.old + 11 ≤ 4096 }
        ensures { self.new ≡ self.old ++ ended (codes "gone " ++ decimal class) }
    {
        if class < 10 {
            self.0.add(b"gone ");
            self.end_with(class as u8);
        } else {
            self.add_one(b"gone ", class);
        }
    }

    /// Adds words and a code, and ends the line.
    #[inline(always)]
    fn add_code(&mut self, words: &[u8], code: i32)
        requires { length self.old + length words.now + 12 ≤ 4096 }
        ensures { self.new ≡ self.old ++ ended (words.now ++ signed_decimal code) }
    {
        let size = code.unsigned_abs();
        if size >= 10 {
            self.add_one(words, code);
        } else if code < 0 {
            self.0.add(words);
            self.0.add(b"-");
            self.end_with(size as u8);
        } else {
            self.0.add(words);
            self.end_with(size as u8);
        }
    }

    /// Adds a number of one digit, which is its own text, and ends the line.
    #[inline(always)]
    fn end_with(&mut self, digit: u8)
        requires small { digit < 10 }
        requires room { length self.old + 2 ≤ 4096 }
        ensures { self.new ≡ self.old ++ ended (decimal digit) }
    {
        self.0.add(&[b'0' + digit, b'\n']);
    }

    /// Adds words and a number, and ends the line.
    fn add_one<I: Integer>(&mut self, words: &[u8], number: I)
        requires { length self.old + length words.now + I.MAX_STR_LEN + 1 ≤ 4096 }
        ensures { self.new ≡ self.old ++ ended (words.now ++ I.text number) }
    {
        self.0.add_count(words, number);
        self.0.add(b"\n");
    }

    /// Adds words, a client and a code, and ends the line.
    fn add_answer(&mut self, words: &[u8], client: u8, code: i32)
        requires { length self.old + length words.now + 32 ≤ 4096 }
        ensures { self.new ≡ self.old ++ ended (words.now ++ answer_text client code) }
    {
        self.0.add_count(words, client);
        self.add_one(b" ", code);
    }

    fn add_ending(&mut self, ending: Ending)
        requires { length self.old + 17 ≤ 4096 }
        ensures text { self.new ≡ self.old ++ ending_text ending }
        ensures short { length self.new ≤ length self.old + 17 }
    {
        match ending {
            Ending::Stopped => self.0.add(b"stopped"),
            Ending::Waiting => self.0.add(b"waiting"),
            Ending::MainLeft(code) => self.0.add_count(b"left ", code),
            Ending::Limit => self.0.add(b"limit"),
            Ending::Error(answer) => self.0.add_count(b"error ", answer),
        }
    }
}

/// What a server is asked for, with the spaces round it.
pub fn asked_words(asked: Asked) -> &'static [u8]
    ensures text { result.now ≡ asked_text asked }
    ensures short { length result.now ≤ 9 }
{
    match asked {
        Asked::Connect => b" connect ",
        Asked::Message => b" message ",
        Asked::Close => b" close ",
    }
}
