//! Frames as they are written.
ghost use Rattle.std.specs.Prelude.{◌≡◌, IfOk};
ghost use Rattle.aom_message_framing.specs.Frames.{frame_text};

use std::alloc::{AllocError, Global};

/// The bytes of the frame of a message.
pub fn frame_of(alloc: Global, message: &[u8]) -> Result<Vec<u8>, AllocError>
    ensures { IfOk result (λ frame. frame.items ≡ frame_text message.now) }
{
    let mut buffer = itoa::Buffer::new();
    let mut frame: Vec<u8> = Vec::new(alloc);
    frame.extend_from_slice(b"Content-Length: ")?;
    frame.extend_from_slice(buffer.format(message.len()).as_bytes())?;
    frame.extend_from_slice(b"\r\n\r\n")?;
    frame.extend_from_slice(message)?;
    Ok(frame)
}
