//! The words and the owning fields of what a method works on: of its cell, or the root where it has none.
ghost use Rattle.std.specs.Prelude.{◌≡◌};
ghost use Rattle.aom_cells.specs.Heap.{null, Lives, word_at};
ghost use Rattle.aom_frames.specs.Tasks.{TopFrameIs};
ghost use Rattle.aom_machine_state.specs.Fields.{this, ThisLives, field_here, PutsWord, WritesField};

use crate::parts::Parts;
use aom_cells::{CellId, NULL};
use aom_image::{FieldIndex, WordIndex};
use std::mem;

impl Parts {
    /// The cell of the method that runs.
    pub fn cell(&self) -> CellId
        requires runs { TopFrameIs self.now.stack.tasks }
        requires lives { Lives self.now.cells (this self.now) }
        ensures { result ≡ this self.now }
    {
        self.cells.living(self.stack.this())
    }

    /// A word of the method's cell.
    pub fn field_word(&self, word: WordIndex) -> i32
        requires runs { TopFrameIs self.now.stack.tasks }
        requires lives { Lives self.now.cells (this self.now) }
        ensures { result ≡ word_at self.now.cells (this self.now) word }
    {
        self.cells.word(self.cell(), word.number())
    }

    pub fn set_field_word(&mut self, word: WordIndex, value: i32)
        requires runs { TopFrameIs self.old.stack.tasks }
        requires lives { Lives self.old.cells (this self.old) }
        ensures written { PutsWord (this self.old) word value self.old.cells self.new.cells }
        ensures rest { self.new ≡ record self.old { cells = self.new.cells } }
    {
        let cell = self.cell();
        self.cells.set_word(cell, word.number(), value);
    }

    /// The number in a field.
    pub fn field(&self, field: FieldIndex) -> u32
        requires runs { TopFrameIs self.now.stack.tasks }
        requires receiver_held { ThisLives self.now }
        ensures { result ≡ field_here field self.now }
    {
        if self.stack.this() == NULL {
            return self.root;
        }
        self.cells.field(self.cell(), field.number())
    }

    /// Takes the number out of a field, and leaves null.
    pub fn take_field(&mut self, field: FieldIndex) -> u32
        requires runs { TopFrameIs self.old.stack.tasks }
        requires receiver_held { ThisLives self.old }
        ensures value { result ≡ field_here field self.old }
        ensures emptied { WritesField field null self.old self.new }
        ensures stack { self.new.stack ≡ self.old.stack }
    {
        if self.stack.this() == NULL {
            return mem::replace(&mut self.root, NULL);
        }
        let cell = self.cell();
        self.cells.take_field(cell, field.number())
    }

    pub fn set_field(&mut self, field: FieldIndex, number: u32)
        requires runs { TopFrameIs self.old.stack.tasks }
        requires receiver_held { ThisLives self.old }
        ensures written { WritesField field number self.old self.new }
        ensures stack { self.new.stack ≡ self.old.stack }
    {
        if self.stack.this() == NULL {
            self.root = number;
            return;
        }
        let cell = self.cell();
        self.cells.put_field(cell, field.number(), number);
    }
}
