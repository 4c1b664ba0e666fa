//! Words between registers, cells and lines. What needs the frame alone is run by the stack.
ghost use Rattle.std.specs.Prelude.{ℕ, List, ◌<◌, length};
ghost use Rattle.aom_image.specs.Image.{Image};
ghost use Rattle.aom_instructions.specs.declared.instr.Instr.TheVariants.{Load, Store, Print};
ghost use Rattle.aom_machine_instructions.specs.Acts.{Does, WritesLines};
ghost use Rattle.aom_machine_instructions.specs.Next.{IsNext};

use aom_image::{Register, WordIndex};
use aom_machine_state::{LineBuffer, Parts};
use aom_transcript::Line;

pub fn load(parts: &mut Parts, to: Register, word: WordIndex)
    requires { (p : Image) × IsNext p (Load to word) parts.old }
    ensures { (refused : List ℕ) → Does refused (Load to word) parts.old parts.new }
{
    let value = parts.field_word(word);
    parts.write_word(to, value);
}

pub fn store(parts: &mut Parts, word: WordIndex, from: Register)
    requires { (p : Image) × IsNext p (Store word from) parts.old }
    ensures { (refused : List ℕ) → Does refused (Store word from) parts.old parts.new }
{
    let value = parts.word(from);
    parts.set_field_word(word, value);
    parts.next();
}

pub fn print(parts: &mut Parts, from: Register, lines: &mut LineBuffer)
    requires next { (p : Image) × IsNext p (Print from) parts.old }
    requires room { length lines.old.lines < lines.old.room }
    ensures does { (refused : List ℕ) → Does refused (Print from) parts.old parts.new }
    ensures reports { WritesLines (Print from) parts.old lines.old lines.new }
{
    let word = parts.word(from);
    lines.push(Line::Out(word));
    parts.next();
}
