use aom_host::Output;
use aom_transcript::{Sink, write_text};
use std::io::{self, BufWriter, Write};
use std::test::Fail;

/// A writer that takes two bytes at a time, and so many in all.
#[derive(Drop)]
struct Slow {
    text: Vec<u8>,
    room: usize,
}

impl Write for Slow {
    fn write(&mut self, buf: &[u8]) -> io::Result<usize> {
        if self.room == 0 {
            return Err(io::Error::from(io::ErrorKind::WriteZero));
        }
        let count = buf.len().min(self.room).min(2);
        self.text.extend_from_slice(&buf[..count])?;
        self.room -= count;
        Ok(count)
    }

    fn flush(&mut self) -> io::Result<()> {
        Ok(())
    }
}

/// Whether a writer has taken just that.
fn has_taken(slow: &Slow, text: &[u8]) -> bool {
    slow.text.as_slice() == text
}

#[test]
fn takes_what_its_writer_takes(rt: HostRuntime) -> Result<(), Fail> {
    let mut output = Output::new(Slow {
        text: Vec::new(rt.alloc()),
        room: 5,
    });
    write_text(&mut output, b"out");
    assert!(rt; !output.has_failed());
    write_text(&mut output, b" 7\n");
    assert!(rt; output.has_failed());
    assert!(rt; output.put(b"x") == 0);
    assert!(rt; has_taken(output.get_ref(), b"out 7"));
    assert!(rt; !output.fails_at_end());
    Ok(())
}

#[test]
fn what_is_held_goes_out_at_the_end(rt: HostRuntime) -> Result<(), Fail> {
    let slow = Slow {
        text: Vec::new(rt.alloc()),
        room: 7,
    };
    let mut output = Output::new(BufWriter::new(rt.alloc(), slow)?);
    write_text(&mut output, b"out 7\n");
    assert!(rt; has_taken(output.get_ref().get_ref(), b""));
    assert!(rt; !output.fails_at_end());
    assert!(rt; has_taken(output.get_ref().get_ref(), b"out 7\n"));
    write_text(&mut output, b"end");
    assert!(rt; output.fails_at_end());
    assert!(rt; has_taken(output.get_ref().get_ref(), b"out 7\ne"));
    assert!(rt; !output.fails_at_end());
    assert!(rt; output.put(b"x") == 0);
    Ok(())
}
