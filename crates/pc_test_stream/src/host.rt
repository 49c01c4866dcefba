//! Streams over std's readers and writers.

use crate::asserts::holds;
use pc_stream::{ReadEnd, StdSink, StdSource, read_all, write_all};
use std::alloc::Global;
use std::io;
use std::io::{Read, Write};
use std::test::*;

/// Seventy bytes.
const TEXT: &[u8] = b"seventy bytes of text, so that calls of 64 bytes are two, and not one.";

/// Moves at most three bytes a call. The call that it comes to at `stops` fails, or moves nothing.
#[derive(Drop)]
struct Slow<T> {
    inner: T,
    calls: u64,
    stops: u64,
    fails: bool,
}

impl<T> Slow<T> {
    fn new(inner: T, stops: u64, fails: bool) -> Self {
        Slow {
            inner,
            calls: 0,
            stops,
            fails,
        }
    }

    fn turn(&mut self, len: usize) -> io::Result<usize> {
        let stops = self.calls == self.stops;
        self.calls = self.calls.saturating_add(1);
        match (stops, self.fails) {
            (true, true) => Err(io::Error::from(io::ErrorKind::Other)),
            (true, false) => Ok(0),
            _ => Ok(len.min(3)),
        }
    }
}

impl<T: Read> Read for Slow<T> {
    fn read(&mut self, buf: &mut [u8]) -> io::Result<usize> {
        let len = self.turn(buf.len())?.min(buf.len());
        self.inner.read(&mut buf[..len])
    }
}

impl<T: Write> Write for Slow<T> {
    fn write(&mut self, buf: &[u8]) -> io::Result<usize> {
        let len = self.turn(buf.len())?.min(buf.len());
        self.inner.write(&buf[..len])
    }

    fn flush(&mut self) -> io::Result<()> {
        Ok(())
    }
}

/// Reads the text from a reader that stops at this call: whether all of it came, or a fault, and the faults.
fn read_from(alloc: Global, stops: u64) -> (bool, bool, u64) {
    let mut src = StdSource::new(Slow::new(TEXT, stops, true));
    let (is_text, is_fault) = match read_all(alloc, &mut src) {
        Ok(bytes) => (bytes.as_slice() == TEXT, false),
        Err(end) => (false, end == ReadEnd::Fault),
    };
    (is_text, is_fault, src.faults())
}

#[test]
fn a_reader_that_fails_is_a_fault(rt: HostRuntime) {
    let whole = read_from(rt.alloc(), 100);
    holds(&rt, "whole", whole == (true, false, 0));
    let stopped = read_from(rt.alloc(), 2);
    holds(&rt, "stopped", stopped == (false, true, 1));
}

/// Writes the text to a writer that stops at this call: whether that succeeds, the faults, and whether the writer then
/// has this.
fn write_to(alloc: Global, stops: u64, fails: bool, kept: &[u8]) -> (bool, u64, bool) {
    let mut writer = Slow::new(Vec::new(alloc), stops, fails);
    let mut out = StdSink::new(&mut writer);
    let succeeds = write_all(&mut out, TEXT).is_ok();
    let faults = out.faults();
    (succeeds, faults, writer.inner.as_slice() == kept)
}

#[test]
fn a_writer_that_fails_or_takes_nothing_is_a_fault(rt: HostRuntime) {
    let whole = write_to(rt.alloc(), 100, true, TEXT);
    holds(&rt, "whole", whole == (true, 0, true));
    let failed = write_to(rt.alloc(), 2, true, b"sevent");
    holds(&rt, "failed", failed == (false, 1, true));
    let stopped = write_to(rt.alloc(), 2, false, b"sevent");
    holds(&rt, "stopped", stopped == (false, 1, true));
}
