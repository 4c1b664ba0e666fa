//! A script with comments and names, byte by byte.
ghost use Rattle.std.specs.Prelude.{◌≡◌, ◌++◌, [], IfOk, OnOk, List, true};
ghost use Rattle.aom_source_scripts.specs.Scripts.{after, ended, is_in_word, plain_script, start};
ghost use Rattle.aom_source_scripts.specs.declared.naming.ScriptName.{ScriptName};

use crate::naming::{ScriptName, number_of};
use itoa::Buffer;
use std::alloc::{AllocError, Global};
use std::marker::Model;

/// Whether a byte stands in a word: a letter, a digit, `_` or `-`.
fn is_in_word(byte: u8) -> bool
    ensures { result ≡ is_in_word byte }
{
    matches!(byte, b'a'..=b'z' | b'A'..=b'Z' | b'0'..=b'9' | b'_' | b'-')
}

/// What has come of the bytes so far, and the word that is open.
#[derive(Drop)]
struct Reading {
    done: Vec<u8>,
    word: Vec<u8>,
    in_comment: bool,
}

impl Model for Reading {
    ghost use Rattle.aom_source_scripts.specs.Scripts.{Reading};

    ghost Value = { Reading };

    ghost view = { λ r. record { done = r.done.items; word = r.word.items; in_comment = r.in_comment } };
}

impl Reading {
    fn new(alloc: Global) -> Reading
        ensures { result ≡ start }
    {
        Reading {
            done: Vec::new(alloc),
            word: Vec::new(alloc),
            in_comment: false,
        }
    }

    fn next(&mut self, names: &[ScriptName<'_>], byte: u8) -> Result<(), AllocError>
        ensures { OnOk result (self.new ≡ after names.now self.old byte) }
    {
        if self.in_comment {
            return self.pass_over(byte);
        }
        if is_in_word(byte) {
            self.word.push(byte)?;
            return Ok(());
        }
        self.end_word(names)?;
        if byte == b'#' {
            self.in_comment = true;
            return Ok(());
        }
        self.done.push(byte)?;
        Ok(())
    }

    /// Passes over a byte of a comment, which ends before the end of its line.
    fn pass_over(&mut self, byte: u8) -> Result<(), AllocError>
        requires { self.old.in_comment ≡ true }
        ensures { (names : List ScriptName) → OnOk result (self.new ≡ after names self.old byte) }
    {
        if byte == b'\n' {
            self.done.push(byte)?;
            self.in_comment = false;
        }
        Ok(())
    }

    /// Ends the word that is open: a name becomes its number.
    fn end_word(&mut self, names: &[ScriptName<'_>]) -> Result<(), AllocError>
        ensures { OnOk result (self.new ≡ record { done = ended names.now self.old; word = []; in_comment = self.old.in_comment }) }
    {
        match number_of(names, &self.word) {
            Some(number) => {
                let mut buffer = Buffer::new();
                self.done
                    .extend_from_slice(buffer.format(number).as_bytes())?;
            }
            None => self.done.extend_from_slice(&self.word)?,
        }
        self.word.clear();
        Ok(())
    }
}

/// The script that a script with comments and names stands for. A comment begins with `#` and goes to the end of its line; a word that is a name stands for
/// its number.
pub fn plain_script(
    alloc: Global,
    names: &[ScriptName<'_>],
    script: &[u8],
) -> Result<Vec<u8>, AllocError>
    ensures { IfOk result (λ plain. plain.items ≡ plain_script names.now script.now) }
{
    let mut reading = Reading::new(alloc);
    for byte in script {
        reading.next(names, *byte)?;
    }
    reading.end_word(names)?;
    Ok(reading.done)
}
