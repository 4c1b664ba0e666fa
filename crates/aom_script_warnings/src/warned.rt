//! The lines of a script that connect to what is no server.
ghost use Rattle.std.specs.Prelude.{◌≡◌, ◌≤◌, ◌++◌, ◌^◌, IfOk, OnOk, length};
ghost use Rattle.std.specs.List.{list_all};
ghost use Rattle.aom_text.specs.Numbers.{number_of};
ghost use Rattle.aom_text.specs.Text.{lines_of};
ghost use Rattle.aom_script_warnings.specs.Warned.{class_in, class_number, is_server, is_server_kind, script_warnings, warning_of};

use aom_image::{ClassKind, Image};
use aom_text::{Number, WordCursor, split_text_line};
use std::alloc::{AllocError, Global};

/// A line in which a client connects to a class that is no server, or that the image has not.
#[derive(Clone, Copy, PartialEq, Eq)]
pub struct NoServer {
    /// The number of the line, from 1.
    pub line: u32,
    /// The number of the class.
    pub class: u8,
}

fn is_server_kind(kind: ClassKind) -> bool
    ensures { result ≡ is_server_kind kind }
{
    match kind {
        ClassKind::Server { .. } => true,
        ClassKind::Plain | ClassKind::Active { .. } | ClassKind::Session => false,
    }
}

/// Whether an image has a class of that number, and it is a server.
fn is_server(image: &Image, class: u8) -> bool
    ensures { result ≡ is_server image.now class }
{
    let classes = image.classes();
    let number = class as usize;
    if classes.len() <= number {
        return false;
    }
    is_server_kind(classes.at(number).kind)
}

/// The number of a class, where a word is one.
fn class_number(word: &[u8]) -> Option<u8>
    ensures { result ≡ class_number (number_of word.now) }
{
    let number = Number::of(word)?;
    Some(number.within(0, 255)? as u8)
}

/// The class to which a client connects in a line of these words.
fn class_in(mut words: WordCursor) -> Option<u8>
    ensures { result ≡ class_in words.entry }
{
    let (_, kind) = (words.next()?, words.next()?);
    let (_, class, _) = (words.next()?, words.next()?, words.next()?);
    if kind == b"connect".as_slice() && words.is_empty() {
        class_number(class)
    } else {
        None
    }
}

/// Adds the warning of a line to whose class a client connects, if there is one.
fn add(
    image: &Image,
    line: u32,
    class: Option<u8>,
    warnings: &mut Vec<NoServer>,
) -> Result<(), AllocError>
    ensures { OnOk result (warnings.new.items ≡ warnings.old.items ++ warning_of image.now line class) }
{
    match class {
        Some(class) if !is_server(image, class) => Ok(warnings.push(NoServer { line, class })?),
        _ => Ok(()),
    }
}

/// The lines of a script in which a client connects to a class that is no server.
pub fn script_warnings(
    alloc: Global,
    image: &Image,
    script: &[u8],
) -> Result<Vec<NoServer>, AllocError>
    requires { length script.now ≤ 2 ^ 20 }
    ensures { IfOk result (λ warnings. warnings.items ≡ script_warnings image.now script.now) }
{
    let mut warnings: Vec<NoServer> = Vec::new(alloc);
    let mut rest = script;
    let mut number = 0;
    while !rest.is_empty() {
        let (line, after, _) = split_text_line(rest);
        number += 1;
        add(image, number, class_in(WordCursor::of(line)), &mut warnings)?;
        rest = after;
    }
    Ok(warnings)
}
