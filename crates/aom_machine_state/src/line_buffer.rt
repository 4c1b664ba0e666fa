//! A buffer of lines, and the room for them.
ghost use Rattle.std.specs.Prelude.{◌≡◌, ◌+◌, ◌<◌, ◌==◌, [], ◌∷◌, ◌++◌, length, IfOk};
ghost use Rattle.std.specs.List.{list_any};
ghost use Rattle.aom_machine_state.specs.LineBuffer.{step_lines};

use crate::refusals::Refusals;
use aom_linker::Linked;
use aom_transcript::Line;
use std::alloc::{AllocError, Global};
use std::marker::Model;

/// How many lines of earlier steps may be there as a step begins.
const EARLIER_LINES: usize = 64;

/// How many lines one step can write beside those of the messages: of the connects in the queue of a server that goes, one for
/// each client, and main's line, that of the cell that goes, that of the leave that arrives, and the answer to a client.
const OTHER_LINES: usize = 68;

/// The lines that were written since it was cleared, with room for more, and the refused requests.
#[derive(Drop)]
pub struct LineBuffer {
    lines: Vec<Line>,
    refused: Refusals,
    room: usize,
}

impl Model for LineBuffer {
    ghost use Rattle.std.specs.Prelude.{◌≤◌, length, vec_capacity};
    ghost use Rattle.aom_machine_state.specs.LineBuffer.{LineBuffer as LineBufferRecord};

    ghost Value = { LineBufferRecord };

    ghost view = { λ t. record { lines = t.lines.items; refused = t.refused; room = t.room } };

    ghost invariant = { λ t. (length t.lines.items ≤ t.room) × (t.room ≤ vec_capacity t.lines) };
}

impl LineBuffer {
    /// No lines, and room for all that one step of the image's machine can write, after as many as may be there before.
    pub fn new(alloc: Global, linked: &Linked, refused: Vec<u32>) -> Result<LineBuffer, AllocError>
        ensures lines { IfOk result (λ t. t.lines ≡ []) }
        ensures refused { IfOk result (λ t. t.refused ≡ refused.items) }
        ensures room { IfOk result (λ t. t.room ≡ 64 + step_lines linked.now.header.messages) }
    {
        let header = linked.image().header();
        let room = header.messages as usize + EARLIER_LINES + OTHER_LINES;
        let lines = Vec::with_capacity(alloc, room)?;
        let refused = Refusals::new(alloc, refused)?;
        Ok(LineBuffer {
            lines,
            refused,
            room,
        })
    }

    /// Writes a line. It takes no memory.
    pub fn push(&mut self, line: Line)
        requires { length self.old.lines < self.old.room }
        ensures { self.new ≡ record self.old { lines = self.old.lines ++ line ∷ [] } }
    {
        self.lines.push_reserved(line);
    }

    /// The lines, in the order in which they were written.
    pub fn lines(&self) -> &[Line]
        ensures { result.now ≡ self.now.lines }
    {
        self.lines.as_slice()
    }

    /// Forgets the lines.
    pub fn clear(&mut self)
        ensures { self.new ≡ record self.old { lines = [] } }
    {
        self.lines.clear();
    }

    /// Whether the request of that number, counted from 1, is to be refused.
    pub fn is_refused(&self, number: u64) -> bool
        ensures { result ≡ list_any (λ n. n == number) self.now.refused }
    {
        self.refused.contains(number)
    }
}
