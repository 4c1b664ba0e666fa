//! Frames of a stream, byte by byte.
ghost use Rattle.std.specs.Prelude.{◌≡◌, [], ◌∷◌, ◌++◌, IfOk, List, Ok, ℕ};
ghost use Rattle.aom_message_framing.specs.Frames.{Hears, IsHead, Stands};
ghost use Rattle.aom_message_framing.specs.declared.frames.Stage.TheVariants.{Head, Message, Passing};

use crate::head::{announced, is_whole};
use std::alloc::{AllocError, Global};
use std::mem;

/// The most bytes of a message: 4 MiB.
pub const MOST_BYTES: u64 = 1 << 22;

/// The most bytes of a head.
const MOST_HEAD: usize = 1 << 13;

/// What a frame brings.
#[derive(Debug, Drop)]
pub enum Frame {
    /// A message.
    Message(Vec<u8>),
    /// A message above 4 MiB, which was passed over.
    TooLong,
    /// A head that says no length, or one that has 8,192 bytes and is not whole.
    NoLength,
}

/// What comes next.
#[derive(Clone, Copy, PartialEq, Eq, Debug)]
pub enum Stage {
    /// More of a head.
    Head,
    /// More of a message that has so many bytes.
    Message { length: u64 },
    /// So many bytes that are passed over.
    Passing { left: u64 },
}

/// What has come of the frame that is not whole yet.
#[derive(Drop)]
pub struct Frames {
    alloc: Global,
    stage: Stage,
    /// The bytes of the head, or of the message.
    bytes: Vec<u8>,
}

impl Frames {
    /// Nothing has come.
    pub fn new(alloc: Global) -> Frames
        ensures { Stands [] result }
    {
        Frames {
            alloc,
            stage: Stage::Head,
            bytes: Vec::new(alloc),
        }
    }

    /// One byte more has come: it may be the last of a frame. Where there is no memory for it nothing can be heard any more.
    pub fn hear(&mut self, byte: u8) -> Result<Option<Frame>, AllocError>
        ensures { (p : List ℕ) → Stands p self.old → IfOk result (λ frame. Hears (p ++ byte ∷ []) frame self.new) }
    {
        match self.stage {
            Stage::Head => self.hear_head(byte),
            Stage::Message { length } => self.hear_message(byte, length),
            Stage::Passing { left } => Ok(self.pass(left)),
        }
    }

    #[tactic(auto, using(crate::proofs::Heads::grown, crate::proofs::Heads::ended))]
    fn hear_head(&mut self, byte: u8) -> Result<Option<Frame>, AllocError>
        requires { self.old.stage ≡ Head }
        ensures { (p : List ℕ) → Stands p self.old → IfOk result (λ frame. Hears (p ++ byte ∷ []) frame self.new) }
    {
        self.bytes.push(byte)?;
        if is_whole(&self.bytes) {
            return Ok(self.end_head());
        }
        if self.bytes.len() < MOST_HEAD {
            return Ok(None);
        }
        self.bytes.clear();
        Ok(Some(Frame::NoLength))
    }

    /// A head is whole.
    fn end_head(&mut self) -> Option<Frame>
        requires { self.old.stage ≡ Head }
        ensures { IsHead self.old.bytes.items → Hears self.old.bytes.items result self.new }
    {
        let length = announced(&self.bytes);
        self.bytes.clear();
        match length {
            None => Some(Frame::NoLength),
            Some(0) => Some(Frame::Message(Vec::new(self.alloc))),
            Some(length) if length <= MOST_BYTES => {
                self.stage = Stage::Message { length };
                None
            }
            Some(length) => {
                self.stage = Stage::Passing { left: length };
                None
            }
        }
    }

    fn hear_message(&mut self, byte: u8, length: u64) -> Result<Option<Frame>, AllocError>
        requires { self.old.stage ≡ Message length }
        ensures { (p : List ℕ) → Stands p self.old → IfOk result (λ frame. Hears (p ++ byte ∷ []) frame self.new) }
    {
        self.bytes.push(byte)?;
        if (self.bytes.len() as u64) < length {
            return Ok(None);
        }
        self.stage = Stage::Head;
        let message = mem::replace(&mut self.bytes, Vec::new(self.alloc));
        Ok(Some(Frame::Message(message)))
    }

    fn pass(&mut self, left: u64) -> Option<Frame>
        requires { self.old.stage ≡ Passing left }
        ensures { (p : List ℕ) (byte : ℕ) → Stands p self.old → Hears (p ++ byte ∷ []) result self.new }
    {
        if 1 < left {
            self.stage = Stage::Passing { left: left - 1 };
            return None;
        }
        self.stage = Stage::Head;
        Some(Frame::TooLong)
    }
}
