//! The outputs as sinks.
use aom_transcript::Sink;
use std::io::Write;

/// A sink over a writer. What a writer has sent on is not known, so nothing is said of what is out.
#[derive(Drop)]
pub struct Output<W> {
    writer: W,
    has_failed: bool,
}

impl<W> Output<W> {
    pub fn new(writer: W) -> Output<W> {
        Output {
            writer,
            has_failed: false,
        }
    }

    /// The writer below.
    pub fn get_ref(&self) -> &W {
        &self.writer
    }
}

impl<W: Write> Output<W> {
    /// Sends on what the writer still holds. Whether that fails, where no write had failed before.
    pub fn fails_at_end(&mut self) -> bool {
        if self.has_failed {
            return false;
        }
        self.has_failed = self.writer.flush().is_err();
        self.has_failed
    }
}

impl<W: Write> Sink for Output<W> {
    ghost use Rattle.std.specs.Prelude.{None};

    ghost out = { λ _. None };

    ghost failed = { λ o. o.has_failed };

    fn put(&mut self, bytes: &[u8]) -> usize {
        if self.has_failed || bytes.is_empty() {
            return 0;
        }
        match self.writer.write(bytes) {
            Ok(count) if count > 0 => count,
            _ => {
                self.has_failed = true;
                0
            }
        }
    }

    fn has_failed(&self) -> bool {
        self.has_failed
    }
}
