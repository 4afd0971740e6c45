//! A writer as a sink.

ghost use Rattle.std.specs.Prelude.{◌≡◌, false};

use super::{Failed, Sink, kept};
use std::io::Write;

/// A sink over a writer. Each error of the writer is a failure, an interrupted call too, and so
/// is a write that takes no byte of a nonempty slice.
#[derive(Drop)]
pub struct FromWrite<W> {
    writer: W,
    failed: bool,
}

impl<W: Write> FromWrite<W> {
    /// Creates a sink that has not failed.
    pub fn new(writer: W) -> Self
        ensures taken { ⟦<FromWrite<W> as Sink>⟧.taken result ≡ W.contents writer }
        ensures sound { ⟦<FromWrite<W> as Sink>⟧.failed result ≡ false }
    {
        FromWrite {
            writer,
            failed: false,
        }
    }
}

impl<W: Write> Sink for FromWrite<W> {
    ghost taken = { λ sink. W.contents sink.writer };

    ghost failed = { λ sink. sink.failed };

    fn write(&mut self, buf: &[u8]) -> Result<usize, Failed> {
        let given = self.writer.write(buf).ok();
        kept(given.filter(|n| *n > 0 || buf.is_empty()), &mut self.failed)
    }

    fn has_failed(&self) -> bool {
        self.failed
    }
}
