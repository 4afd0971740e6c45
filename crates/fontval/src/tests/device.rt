//! What no clause says: interrupted calls and writes of no byte, through `FromRead` and
//! `FromWrite`.

ghost use Rattle.std.specs.Prelude.{◌≡◌, IfOk};

use crate::{FromRead, FromWrite, Sink, Source};
use std::io;
use std::io::{ErrorKind, Read, Write};

/// A device whose first call is interrupted. Later calls move all bytes of the buffer.
#[derive(Drop)]
struct InterruptedOnce {
    calls: usize,
}

impl InterruptedOnce {
    fn moved(&mut self, len: usize) -> io::Result<usize>
        ensures { IfOk result (λ n. n ≡ len) }
    {
        self.calls = self.calls.saturating_add(1);
        if self.calls == 1 {
            Err(io::Error::from(ErrorKind::Interrupted))
        } else {
            Ok(len)
        }
    }
}

impl Read for InterruptedOnce {
    fn read(&mut self, buf: &mut [u8]) -> io::Result<usize> {
        self.moved(buf.len())
    }
}

impl Write for InterruptedOnce {
    fn write(&mut self, buf: &[u8]) -> io::Result<usize> {
        self.moved(buf.len())
    }

    fn flush(&mut self) -> io::Result<()> {
        Ok(())
    }
}

// An interrupted call is a failure, and is not tried again.
#[test]
fn an_interrupted_read_fails(rt: HostRuntime) {
    let mut source = FromRead::new(InterruptedOnce { calls: 0 });
    assert!(rt; source.read(&mut [0; 2]).is_err() && source.has_failed());
    assert!(rt; matches!(source.read(&mut [0; 2]), Ok(2)) && source.has_failed());
}

#[test]
fn an_interrupted_write_fails(rt: HostRuntime) {
    let mut sink = FromWrite::new(InterruptedOnce { calls: 0 });
    assert!(rt; sink.write(b"ab").is_err() && sink.has_failed());
    assert!(rt; matches!(sink.write(b"ab"), Ok(2)) && sink.has_failed());
}

// A write of no byte is a failure, unless the slice is empty.
#[test]
fn a_write_of_no_byte_fails(rt: HostRuntime) {
    let mut room = [0; 2];
    let mut sink = FromWrite::new(room.as_mut_slice());
    let rows: &[(&[u8], Option<usize>, bool)] = &[
        (b"abc", Some(2), false),
        (b"", Some(0), false),
        (b"c", None, true),
        (b"", Some(0), true),
    ];
    for &(bytes, taken, failed) in rows {
        assert!(rt;
            sink.write(bytes).ok() == taken && sink.has_failed() == failed,
            "{bytes:?}, {failed}"
        );
    }
}
