//! The source and the sink of a run.

ghost use Rattle.std.specs.Prelude.{◌≡◌, ℕ, ◌≤◌, Bool, List, None, Option, length, IfOk, ok_or};
ghost use Rattle.std.specs.Io.KnownBytes.{ReadConsumes, WriteAppends};
ghost use Rattle.font_lines.specs.Device.{failed_after};

mod from_read;
mod from_write;

pub use from_read::FromRead;
pub use from_write::FromWrite;

/// A read or a write failed. The device remembers it.
#[derive(Drop)]
pub struct Failed;

// Returns the number that a call gave, or `Failed` if it gave none, which `failed` then remembers.
fn kept(given: Option<usize>, failed: &mut bool) -> Result<usize, Failed>
    ensures same { result ≡ ok_or given (record {}) }
    ensures flag { failed.new ≡ failed_after failed.old result }
{
    if given.is_none() {
        *failed = true;
    }
    given.ok_or(Failed)
}

/// A source of bytes.
pub trait Source {
    // the bytes that are left, if they are known
    ghost left: { Self → Option (List ℕ) } = { λ _. None };

    // whether a read has failed
    ghost failed: { Self → Bool };

    /// Reads into the front of `buf`, and returns the number of bytes read: 0 for a nonempty `buf`
    /// only at the end.
    fn read(&mut self, buf: &mut [u8]) -> Result<usize, Failed>
        ensures within { IfOk result (λ n. n ≤ length buf.new) }
        ensures bytes { ReadConsumes (left self.old) (left self.new) result buf.new }
        ensures flag { failed self.new ≡ failed_after (failed self.old) result };

    /// Returns whether a read has failed.
    fn has_failed(&self) -> bool
        ensures { result ≡ failed self.now };
}

/// A sink of bytes.
pub trait Sink {
    // the bytes that were written, if they are known
    ghost taken: { Self → Option (List ℕ) } = { λ _. None };

    // whether a write has failed
    ghost failed: { Self → Bool };

    /// Writes bytes from the front of `buf`, and returns the number of bytes written: 0 only for an
    /// empty `buf`. Writes nothing if it fails.
    fn write(&mut self, buf: &[u8]) -> Result<usize, Failed>
        ensures within { IfOk result (λ n. n ≤ length buf.now) }
        ensures some { IfOk result (λ n. n ≡ 0 → length buf.now ≡ 0) }
        ensures bytes { WriteAppends (taken self.old) (taken self.new) result buf.now }
        ensures flag { failed self.new ≡ failed_after (failed self.old) result };

    /// Returns whether a write has failed.
    fn has_failed(&self) -> bool
        ensures { result ≡ failed self.now };
}
