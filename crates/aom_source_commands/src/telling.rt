//! Refusals as text.
ghost use Rattle.std.specs.Prelude.{◌≡◌, ◌++◌, All, IfOk, List, OnOk, codes, decimal, ℕ};
ghost use Rattle.aom_source.specs.Refusals.{IsToldIn};
ghost use Rattle.aom_source_tokens.specs.Places.{IsPlaceIn};
ghost use Rattle.aom_source_commands.specs.Telling.{TellsPlace, place_text};

use crate::saying::said_of;
use crate::words::{class_words, part_words};
use aom_source::Refusal;
use aom_source_program::Fault;
use aom_source_syntax::SyntaxFaultKind;
use aom_source_tokens::{Place, TokenFaultKind};
use std::alloc::{AllocError, Global};

/// The text of some refusals of a source with a name: for each `NAME:LINE:COLUMN: fault: sentence`, the line, a mark under the place, and a mend.
/// No refusal at all is want of memory.
pub fn tell_refusals(
    alloc: Global,
    name: &[u8],
    source: &[u8],
    refusals: &[Refusal<'_>],
) -> Result<Vec<u8>, AllocError>
    ensures { All (IsToldIn source.now) refusals.now → IfOk result (λ told. TellsPlace name.now source.now told.items) }
{
    let mut told: Vec<u8> = Vec::new(alloc);
    for refusal in refusals {
        let text = refusal_text(alloc, name, source, *refusal)?;
        told.extend_from_slice(&text)?;
    }
    if told.is_empty() {
        told.extend_from_slice(b"memory\n")?;
    }
    Ok(told)
}

/// The text of a refusal.
fn refusal_text(
    alloc: Global,
    name: &[u8],
    source: &[u8],
    refusal: Refusal<'_>,
) -> Result<Vec<u8>, AllocError>
    ensures { IsToldIn source.now refusal.entry → IfOk result (λ told. TellsPlace name.now source.now told.items) }
{
    let Some(place) = refusal.place() else {
        let mut text: Vec<u8> = Vec::new(alloc);
        text.extend_from_slice(b"memory\n")?;
        return Ok(text);
    };
    let mut telling = Telling::new(alloc);
    telling.fault(refusal.name());
    telling.sentence(refusal);
    telling.words(b"\n");
    telling.show(source, place);
    telling.mend(refusal);
    text_at(alloc, name, place, telling)
}

/// What is said of a refusal without its place: a sentence, and behind a line feed what mends it.
pub fn message_of(alloc: Global, refusal: Refusal<'_>) -> Result<Vec<u8>, AllocError> {
    let mut telling = Telling::new(alloc);
    telling.sentence(refusal);
    telling.mend_behind(b"\n", refusal);
    telling.into_text()
}

/// The text of a budget that a source declares and that is exceeded, with its place.
pub fn tell_over_budget(
    alloc: Global,
    name: &[u8],
    source: &[u8],
    place: Place,
    price: u64,
    declared: u32,
) -> Result<Vec<u8>, AllocError>
    ensures { IsPlaceIn source.now place → IfOk result (λ told. TellsPlace name.now source.now told.items) }
{
    let mut telling = Telling::new(alloc);
    telling.fault("over-budget");
    telling.words(b"a dispatch takes up to ");
    telling.number(price);
    telling.words(b" steps, and ");
    telling.number(u64::from(declared));
    telling.words(b" are declared\n");
    telling.show(source, place);
    telling.words(b"    To mend it: declare `budget ");
    telling.number(price);
    telling.words(b"`, or none: then the least is found\n");
    text_at(alloc, name, place, telling)
}

/// The text of what is refused of the image of a source, by its fault line, at the place that it comes of: no fault of the source's author.
pub fn tell_translator(
    alloc: Global,
    name: &[u8],
    source: &[u8],
    place: Place,
    line: &[u8],
) -> Result<Vec<u8>, AllocError>
    ensures { IsPlaceIn source.now place → IfOk result (λ told. TellsPlace name.now source.now told.items) }
{
    let mut telling = Telling::new(alloc);
    telling.fault("internal");
    telling.words(b"what this is compiled to is refused: ");
    telling.words(line);
    telling.words(b"\n");
    telling.show(source, place);
    telling.words(
        b"    To mend it: write it in another way; and please report it, since it is a fault of the compiler\n",
    );
    text_at(alloc, name, place, telling)
}

/// What is told, behind its place.
fn text_at(
    alloc: Global,
    name: &[u8],
    place: Place,
    telling: Telling,
) -> Result<Vec<u8>, AllocError>
    ensures { (source : List ℕ) → IsPlaceIn source place → IfOk result (λ told. TellsPlace name.now source told.items) }
{
    let mut text = place_text(alloc, name, place)?;
    text.extend_from_slice(&telling.into_text()?)?;
    Ok(text)
}

/// `NAME:LINE:COLUMN: `
fn place_text(alloc: Global, name: &[u8], place: Place) -> Result<Vec<u8>, AllocError>
    ensures { IfOk result (λ text. text.items ≡ place_text name.now place) }
{
    let mut text: Vec<u8> = Vec::new(alloc);
    text.extend_from_slice(name)?;
    add_number(&mut text, place.line)?;
    add_number(&mut text, place.column)?;
    text.extend_from_slice(b": ")?;
    Ok(text)
}

/// Adds a number behind a colon.
fn add_number(text: &mut Vec<u8>, number: u32) -> Result<(), AllocError>
    ensures { OnOk result (text.new.items ≡ text.old.items ++ codes ":" ++ decimal number) }
{
    let mut buffer = itoa::Buffer::new();
    text.extend_from_slice(b":")?;
    text.extend_from_slice(buffer.format(number).as_bytes())?;
    Ok(())
}

/// A text on its way. Where memory lacks that is noted, and told at its end.
#[derive(Drop)]
struct Telling {
    text: Vec<u8>,
    lacking: Option<AllocError>,
}

impl Telling {
    fn new(alloc: Global) -> Telling {
        Telling {
            text: Vec::new(alloc),
            lacking: None,
        }
    }

    /// The text, where memory was there for all of it.
    fn into_text(self) -> Result<Vec<u8>, AllocError> {
        let Telling { text, lacking } = self;
        match lacking {
            Some(error) => Err(error),
            None => Ok(text),
        }
    }

    fn words(&mut self, words: &[u8]) {
        if let Err(error) = self.text.extend_from_slice(words) {
            self.lacking = Some(error);
        }
    }

    fn number(&mut self, number: u64) {
        let mut buffer = itoa::Buffer::new();
        self.words(buffer.format(number).as_bytes());
    }

    /// The name of a fault.
    fn fault(&mut self, name: &str) {
        self.words(name.as_bytes());
        self.words(b": ");
    }

    fn sentence(&mut self, refusal: Refusal<'_>) {
        match refusal {
            Refusal::Token(fault) => self.words(match fault.kind {
                TokenFaultKind::BadByte => b"this byte begins no word".as_slice(),
                TokenFaultKind::NumberRange => b"a word has 32 bits".as_slice(),
                TokenFaultKind::TextTooLong => b"a source has at most 1 MiB".as_slice(),
                TokenFaultKind::OutOfMemory => b"there is no memory".as_slice(),
            }),
            Refusal::Syntax(kind, _) => self.expected(kind),
            Refusal::Fault(fault, _) => self.fill(said_of(fault.kind).sentence, fault),
            Refusal::OutOfMemory => {}
        }
    }

    fn expected(&mut self, kind: SyntaxFaultKind) {
        match kind {
            SyntaxFaultKind::Token(class) => {
                self.words(class_words(class).as_bytes());
                self.words(b" is expected here");
            }
            SyntaxFaultKind::Part(part) => {
                self.words(part_words(part).as_bytes());
                self.words(b" is expected here");
            }
            SyntaxFaultKind::TooDeep => self.words(b"more than 64 brackets are open here"),
            SyntaxFaultKind::OutOfMemory => self.words(b"there is no memory"),
        }
    }

    /// A saying with its names.
    fn fill(&mut self, saying: &str, fault: Fault<'_>) {
        for byte in saying.as_bytes() {
            match *byte {
                b'$' => self.words(fault.subject),
                b'@' => self.words(fault.other),
                byte => self.words(&[byte]),
            }
        }
    }

    /// What mends a fault, behind some words. Of some nothing is known that does.
    fn mend_behind(&mut self, words: &[u8], refusal: Refusal<'_>) -> bool {
        let Refusal::Fault(fault, _) = refusal else {
            return false;
        };
        let mend = said_of(fault.kind).mend;
        if mend.is_empty() {
            return false;
        }
        self.words(words);
        self.words(b"To mend it: ");
        self.fill(mend, fault);
        true
    }

    /// What mends a fault, in a line of its own.
    fn mend(&mut self, refusal: Refusal<'_>) {
        if self.mend_behind(b"    ", refusal) {
            self.words(b"\n");
        }
    }

    /// The line of a place, and a mark under its column.
    fn show(&mut self, source: &[u8], place: Place) {
        let at = (place.at as usize).min(source.len());
        let back = (place.column as usize).saturating_sub(1).min(at);
        let begin = at - back;
        self.words(b"    ");
        self.words(&source[begin..at]);
        self.words(rest_of_line(&source[at..]));
        self.words(b"\n    ");
        for byte in &source[begin..at] {
            self.words(if *byte == b'\t' { b"\t" } else { b" " });
        }
        self.words(b"^\n");
    }
}

/// What comes before the first line feed.
fn rest_of_line(bytes: &[u8]) -> &[u8] {
    match bytes.split(|byte| *byte == b'\n').next() {
        Some(rest) => rest,
        None => b"",
    }
}
