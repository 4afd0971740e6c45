//! A reader as a source.

ghost use Rattle.std.specs.Prelude.{◌≡◌, false};

use super::{Failed, Source, kept};
use std::io::Read;

/// A source over a reader. Each error of the reader is a failure, an interrupted call too.
#[derive(Drop)]
pub struct FromRead<R> {
    reader: R,
    failed: bool,
}

impl<R: Read> FromRead<R> {
    /// Creates a source that has not failed.
    pub fn new(reader: R) -> Self
        ensures left { ⟦<FromRead<R> as Source>⟧.left result ≡ R.remaining reader }
        ensures sound { ⟦<FromRead<R> as Source>⟧.failed result ≡ false }
    {
        FromRead {
            reader,
            failed: false,
        }
    }
}

impl<R: Read> Source for FromRead<R> {
    ghost left = { λ source. R.remaining source.reader };

    ghost failed = { λ source. source.failed };

    fn read(&mut self, buf: &mut [u8]) -> Result<usize, Failed> {
        kept(self.reader.read(buf).ok(), &mut self.failed)
    }

    fn has_failed(&self) -> bool {
        self.failed
    }
}
