//! A session over a reader and a sink.
ghost use Rattle.std.specs.Prelude.{◌≡◌, ◌++◌, IfOk, List, OnOk, Some, false, option_map, take, ℕ};
ghost use Rattle.aom_language_server.specs.Sessions.{Wrote, WroteBeginning, WroteFrames, end_of};

use crate::server::{Answers, Server};
use aom_message_framing::{Frame, Frames, frame_of};
use aom_transcript::{Reader, Sink, write_text};
use serde_json::Value;
use std::alloc::{AllocError, Global};

/// How a session has ended.
#[derive(Clone, Copy, PartialEq, Eq, Debug)]
pub enum Ended {
    /// Behind `shutdown`.
    InOrder,
    /// With no `shutdown` before.
    Early,
    /// The input or the output has failed.
    Failed,
}

/// The most bytes that are read at once.
const AT_ONCE: usize = 4096;

/// Answers what a reader gives, to a sink, until `exit` comes or the reader is at its end.
pub fn serve<R: Reader, W: Sink>(
    alloc: Global,
    reader: &mut R,
    reads: u64,
    out: &mut W,
) -> Result<Ended, AllocError>
    ensures { IfOk result (λ ended. Wrote (Some ended) (W.out out.old) (W.out out.new)) }
{
    let mut server = Server::new(alloc);
    let mut frames = Frames::new(alloc);
    let mut buffer = [0; AT_ONCE];
    for _ in 0..reads {
        let count = match reader.get(&mut buffer) {
            Some(0) => return Ok(end_of(server.is_ending())),
            Some(count) => count,
            None => return Ok(Ended::Failed),
        };
        if let Some(ended) = hear(alloc, &mut server, &mut frames, &buffer[..count], out)? {
            return Ok(ended);
        }
    }
    Ok(end_of(server.is_ending()))
}

fn end_of(in_order: bool) -> Ended
    ensures { result ≡ end_of in_order }
{
    if in_order {
        Ended::InOrder
    } else {
        Ended::Early
    }
}

/// Answers what comes with some bytes. How the session ends, if it does.
fn hear<W: Sink>(
    alloc: Global,
    server: &mut Server,
    frames: &mut Frames,
    bytes: &[u8],
    out: &mut W,
) -> Result<Option<Ended>, AllocError>
    ensures { IfOk result (λ ended. Wrote ended (W.out out.old) (W.out out.new)) }
{
    for byte in bytes {
        let Some(frame) = frames.hear(*byte)? else {
            continue;
        };
        if let Some(ended) = answer(alloc, server, frame, out)? {
            return Ok(Some(ended));
        }
    }
    Ok(None)
}

/// Answers a frame.
fn answer<W: Sink>(
    alloc: Global,
    server: &mut Server,
    frame: Frame,
    out: &mut W,
) -> Result<Option<Ended>, AllocError>
    ensures { IfOk result (λ ended. Wrote ended (W.out out.old) (W.out out.new)) }
{
    let sent = match frame {
        Frame::Message(message) => match server.answer(&message)? {
            Answers::Sent(sent) => sent,
            Answers::Exit { in_order } => return Ok(Some(end_of(in_order))),
        },
        Frame::TooLong | Frame::NoLength => Some(server.answer_no_message()?),
    };
    deliver(alloc, sent, out)
}

/// Sends a message, if there is one. The session ends where the sink has failed.
fn deliver<W: Sink>(
    alloc: Global,
    sent: Option<Value>,
    out: &mut W,
) -> Result<Option<Ended>, AllocError>
    ensures { IfOk result (λ ended. Wrote ended (W.out out.old) (W.out out.new)) }
{
    send_any(alloc, sent, out)?;
    if out.has_failed() {
        return Ok(Some(Ended::Failed));
    }
    Ok(None)
}

/// Sends a message in its frame, if there is one.
fn send_any<W: Sink>(alloc: Global, sent: Option<Value>, out: &mut W) -> Result<(), AllocError>
    ensures whole { OnOk result (W.failed out.new ≡ false → WroteFrames (W.out out.old) (W.out out.new)) }
    ensures beginning { OnOk result (WroteBeginning (W.out out.old) (W.out out.new)) }
{
    match sent {
        Some(value) => send(alloc, &value, out),
        None => Ok(()),
    }
}

/// Sends a message in its frame.
fn send<W: Sink>(alloc: Global, value: &Value, out: &mut W) -> Result<(), AllocError>
    ensures whole { OnOk result (W.failed out.new ≡ false → WroteFrames (W.out out.old) (W.out out.new)) }
    ensures beginning { OnOk result (WroteBeginning (W.out out.old) (W.out out.new)) }
{
    let text = value.to_string(alloc)?;
    let frame = frame_of(alloc, text.as_bytes())?;
    write_text(out, &frame);
    Ok(())
}
