//! One cell, and the reads and writes of its parts.
ghost use Rattle.std.specs.Prelude.{◌≡◌, ◌<◌, Some};
ghost use Rattle.aom_cells.specs.Heap.{blank, word_of, with_word, field_of, with_field};

use crate::NULL;

/// What lives under a number.
#[derive(Clone, Copy)]
pub struct Cell {
    pub class: u16,
    pub words: [i32; 8],
    pub fields: [u32; 8],
}

impl Cell {
    /// A cell whose words are 0 and whose fields own nothing.
    pub fn blank(class: u16) -> Cell
        ensures { result ≡ blank class }
    {
        Cell {
            class,
            words: [0; 8],
            fields: [NULL; 8],
        }
    }

    pub fn set_word(&mut self, word: u8, value: i32)
        requires { word < 8 }
        ensures changed { Some self.new ≡ with_word (Some self.old) word value }
        ensures here { word_of (Some self.new) word ≡ value }
    {
        self.words[word as usize] = value;
    }

    pub fn set_field(&mut self, field: u8, number: u32)
        requires { field < 8 }
        ensures changed { Some self.new ≡ with_field (Some self.old) field number }
        ensures here { field_of (Some self.new) field ≡ number }
    {
        self.fields[field as usize] = number;
    }
}
