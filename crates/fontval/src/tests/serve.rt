//! Runs that no clause requires: with memory and devices that work, a run succeeds. Also devices
//! that fail at each call, a failed allocation, and texts of errors.

ghost use Rattle.std.specs.Prelude.{◌≡◌, false, min, nat_lt};

use crate::{Failed, FromRead, FromWrite, ServeFault, Sink, Source, serve};
use std::alloc::Global;
use std::test::Fail;

const LINES: &[u8] = b"int24 fe1dc0\nint24 fe1d\n\nbogus 1\nuint8";

const ANSWERS: &[u8] = b"-123456\nerror 3\nerror 1\nerror 1\nerror 2\n";

/// A line whose terms outgrow the first capacity of their list.
const SUM: &[u8] =
    b"sum 1 1 1 1 1 1 1 1 1 1 1 1 1 1 1 1 1 1 1 1 1 1 1 1 1 1 1 1 1 1 1 1 1 1 0.5 -3\n";

const VARY: &[u8] = b"vary 100 1 100 0.5 -250 0.25 37\n";

const IMAGE: &[u8] = b"image 2 0 0 3 0 0 1 0 0 1 10 20 5 -22\n";

/// A source that gives one byte a call, as long as it has calls that pass. It counts every call.
#[derive(Drop)]
struct Drip<'a> {
    left: &'a [u8],
    passes: usize,
    calls: usize,
}

impl<'a> Drip<'a> {
    fn new(left: &'a [u8], passes: usize) -> Self
        ensures { ⟦<Drip<'a> as Source>⟧.failed result ≡ false }
    {
        Drip {
            left,
            passes,
            calls: 0,
        }
    }
}

impl Source for Drip<'_> {
    ghost failed = { λ drip. nat_lt drip.passes drip.calls };

    fn read(&mut self, buf: &mut [u8]) -> Result<usize, Failed> {
        self.calls = self.calls.saturating_add(1);
        if self.has_failed() {
            return Err(Failed);
        }
        let (Some(place), Some((first, rest))) = (buf.first_mut(), self.left.split_first()) else {
            return Ok(0);
        };
        *place = *first;
        self.left = rest;
        Ok(1)
    }

    fn has_failed(&self) -> bool {
        self.passes < self.calls
    }
}

// The size of a sink.
const ROOM: usize = 64;

/// A sink that takes one byte a call, as long as it has calls that pass, and needs no allocator. It
/// counts every call, also one with nothing to write.
#[derive(Drop)]
struct Trickle {
    taken: [u8; ROOM],
    passes: usize,
    calls: usize,
}

impl Trickle {
    fn new(passes: usize) -> Self
        ensures { ⟦<Trickle as Sink>⟧.failed result ≡ false }
    {
        Trickle {
            taken: [0; ROOM],
            passes,
            calls: 0,
        }
    }
}

impl Sink for Trickle {
    ghost failed = { λ trickle. nat_lt (min trickle.passes 64) trickle.calls };

    fn write(&mut self, buf: &[u8]) -> Result<usize, Failed> {
        self.calls = self.calls.saturating_add(1);
        if self.has_failed() {
            return Err(Failed);
        }
        let Some(first) = buf.first() else {
            return Ok(0);
        };
        self.taken[self.calls - 1] = *first;
        Ok(1)
    }

    fn has_failed(&self) -> bool {
        self.passes.min(ROOM) < self.calls
    }
}

/// Returns the answers of the program to an input in memory.
fn served(alloc: Global, input: &[u8]) -> Result<Vec<u8>, Fail> {
    let mut output = Vec::new(alloc);
    let mut source = FromRead::new(input);
    let mut sink = FromWrite::new(&mut output);
    serve(alloc, &mut source, &mut sink)?;
    Ok(output)
}

#[test]
fn lines_a_thousand_times(rt: HostRuntime) -> Result<(), Fail> {
    let input = "int24 fe1dc0\nint24 fe1d\n\nbogus 1\nuint8\n".repeat(rt.alloc(), 1000)?;
    let answers = "-123456\nerror 3\nerror 1\nerror 1\nerror 2\n".repeat(rt.alloc(), 1000)?;
    assert!(rt; served(rt.alloc(), input.as_bytes())?.as_slice() == answers.as_bytes());
    Ok(())
}

// All other rows are lines of the program's `stdin`.
#[test]
fn blanks_and_line_feeds(rt: HostRuntime) -> Result<(), Fail> {
    for &(line, answer) in &[
        ("", ""),
        ("int24 7fffff", "8388607\n"),
        ("\t uint8  \r ff\t\r\n", "255\n"),
        ("uint8\u{a0}ff", "error 1\n"),
        ("\n\n", "error 1\nerror 1\n"),
        ("uint8 ff\n\r", "255\nerror 1\n"),
        ("uint8 ff\r\n\r\n", "255\nerror 1\n"),
        ("\r", "error 1\n"),
    ] {
        let output = served(rt.alloc(), line.as_bytes())?;
        assert!(rt; output.as_slice() == answer.as_bytes(), "{line}");
    }
    Ok(())
}

// Each byte is read once, and the end is reported once: on a terminal, another read would wait for
// more input.
#[test]
fn one_byte_a_call(rt: HostRuntime) -> Result<(), Fail> {
    let mut source = Drip::new(LINES, usize::MAX);
    let mut sink = Trickle::new(ROOM);
    serve(rt.alloc(), &mut source, &mut sink)?;
    assert!(rt; sink.taken.starts_with(ANSWERS));
    assert!(rt; source.calls == LINES.len() + 1 && sink.calls == ANSWERS.len());
    Ok(())
}

#[test]
fn a_failed_read_writes_nothing(rt: HostRuntime) {
    for passes in 0..=LINES.len() {
        let mut source = Drip::new(LINES, passes);
        let mut sink = Trickle::new(ROOM);
        let result = serve(rt.alloc(), &mut source, &mut sink);
        assert!(rt;
            matches!(result, Err(ServeFault::Read)),
            "result of {passes}"
        );
        assert!(rt; source.calls == passes + 1 && sink.calls == 0, "{passes}");
    }
}

#[test]
fn a_failed_write_keeps_what_passed(rt: HostRuntime) {
    for passes in 0..ANSWERS.len() {
        let mut source = Drip::new(LINES, usize::MAX);
        let mut sink = Trickle::new(passes);
        let result = serve(rt.alloc(), &mut source, &mut sink);
        assert!(rt;
            matches!(result, Err(ServeFault::Write)) && sink.calls == passes + 1,
            "calls of {passes}"
        );
        assert!(rt; sink.taken.starts_with(&ANSWERS[..passes]), "{passes}");
    }
}

// The test passes with ample memory, and whichever one allocation of its run fails.
#[test]
fn a_failed_allocation_writes_nothing(rt: HostRuntime) {
    let rows: &[(&str, &[u8], &[u8])] = &[
        ("lines", LINES, ANSWERS),
        ("a sum", SUM, b"15.5\n"),
        ("a varied value", VARY, b"5521408\n"),
        ("images", IMAGE, b"30 -6 30 -6\n"),
    ];
    for &(name, input, answers) in rows {
        let mut sink = Trickle::new(ROOM);
        let mut result = serve(rt.alloc(), &mut Drip::new(input, usize::MAX), &mut sink);
        if matches!(result, Err(ServeFault::Memory)) && sink.calls == 0 {
            result = serve(rt.alloc(), &mut Drip::new(input, usize::MAX), &mut sink);
        }
        assert!(rt;
            result.is_ok() && sink.calls == answers.len(),
            "calls for {name}"
        );
        assert!(rt; sink.taken.starts_with(answers), "{name}");
    }
}

#[test]
fn fault_texts(rt: HostRuntime) -> Result<(), Fail> {
    for (fault, text) in &[
        (ServeFault::Memory, "memory Memory"),
        (ServeFault::Read, "read Read"),
        (ServeFault::Write, "write Write"),
    ] {
        assert!(rt;
            format!(in rt.alloc(); "{fault} {fault:?}")?.as_str() == *text,
            "{text}"
        );
    }
    let (memory, read) = (ServeFault::Memory as u8, ServeFault::Read as u8);
    assert!(rt; memory == 1 && read == 2 && ServeFault::Write as u8 == 3);
    Ok(())
}
