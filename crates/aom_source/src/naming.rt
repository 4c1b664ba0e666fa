//! Comments with the source's names: of the words and fields of a class, and of what the registers of a method hold.
use crate::text::Text;
use aom_source_code::{Code, NamedRegister};
use aom_source_program::Class;

/// How many registers a method has.
const REGISTERS: usize = 16;

/// Writes the words and fields of a class by name, those of its parents first.
pub fn write_members(text: &mut Text, class: &Class<'_>) {
    for at in 0..class.words.len() {
        write_name(text, at == 0, b"w", at, class.words[at]);
    }
    for at in 0..class.fields.len() {
        let is_first = at == 0 && class.words.is_empty();
        write_name(text, is_first, b"f", at, class.fields[at].name);
    }
}

/// Writes each register with the parameters and locals that it holds, in the order in which their blocks end. A name that it has twice is written once.
pub fn write_registers(text: &mut Text, code: &Code<'_>) {
    let mut is_first = true;
    for register in 0..REGISTERS {
        if write_locals(text, is_first, code, register) {
            is_first = false;
        }
    }
}

/// Writes what a register holds, and tells whether that has a name.
fn write_locals(text: &mut Text, is_first: bool, code: &Code<'_>, register: usize) -> bool {
    let mut is_named = false;
    for at in 0..code.names.len() {
        let named = code.names[at];
        if named.register == register && is_new(&code.names[..at], named) {
            write_name(text, is_first && !is_named, b"r", register, named.name);
            is_named = true;
        }
    }
    is_named
}

/// Whether there is a name that the register does not have by an earlier entry.
fn is_new<'a>(earlier: &[NamedRegister<'a>], named: NamedRegister<'a>) -> bool {
    !named.name.is_empty()
        && !earlier.iter().any(|other| other.register == named.register && other.name == named.name)
}

fn write_name(text: &mut Text, is_first: bool, letter: &[u8], number: usize, name: &[u8]) {
    text.words(if is_first { b" # " } else { b", " });
    text.count(letter, i64::try_from(number).unwrap_or(i64::MAX));
    text.words(b" ");
    text.words(name);
}
