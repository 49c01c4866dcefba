//! Streams over memory that never fail, as two callers that are proved from the clauses alone.

ghost use Rattle.std.specs.Prelude.{◌≤◌, ◌≡◌, ◌++◌, length, IsTrue, IfOk};
ghost use Rattle.pc_stream.specs.declared.whole.TheConstants.{MAX_INPUT};

use crate::asserts::holds;
use pc_stream::{Failed, MAX_INPUT, MemSink, ReadEnd, SureSink, SureSource, read_all, write_all};
use std::alloc::{AllocError, Global};
use std::test::*;

/// What a caller knows of a source that never fails: an input within the limit comes whole.
fn read_surely(alloc: Global, bytes: Vec<u8>) -> Result<Vec<u8>, AllocError>
    requires { length bytes.items ≤ MAX_INPUT }
    ensures { IfOk result (λ all. all.items ≡ bytes.items) }
{
    let mut src = SureSource::new(bytes);
    match read_all(alloc, &mut src) {
        Ok(all) => Ok(all),
        Err(ReadEnd::NoMemory) => Err(AllocError),
        Err(ReadEnd::Fault) => unreachable!(),
        Err(ReadEnd::TooLong) => unreachable!(),
    }
}

/// What a caller knows of a sink that never fails: while nothing was dropped, it keeps the whole text.
fn written_surely(room: Vec<u8>, text: &[u8]) -> SureSink
    ensures { IsTrue result.is_whole → result.kept ≡ room.items ++ text.now }
{
    let mut out = SureSink::new(room);
    match write_all(&mut out, text) {
        Ok(()) => out,
        Err(Failed) => unreachable!(),
    }
}

/// This many bytes.
fn zeros(alloc: Global, len: usize) -> Result<Vec<u8>, AllocError>
    ensures { IfOk result (λ bytes. length bytes.items ≡ len) }
{
    vec![in alloc; 0; len]
}

/// The length of what is read of as many bytes as there may be.
fn longest(alloc: Global) -> Result<usize, AllocError> {
    let bytes = zeros(alloc, MAX_INPUT)?;
    Ok(read_surely(alloc, bytes)?.len())
}

/// Whether one byte more is too long.
fn is_too_long(alloc: Global) -> Result<bool, AllocError> {
    let mut src = SureSource::new(zeros(alloc, 67108865)?);
    let is_held = src.left().len() == 67108865;
    Ok(is_held && read_all(alloc, &mut src) == Err(ReadEnd::TooLong))
}

#[test]
fn one_byte_over_the_limit_is_too_long(rt: HostRuntime) {
    holds(&rt, "longest", longest(rt.alloc()) == Ok(67108864));
    holds(&rt, "longer", is_too_long(rt.alloc()) == Ok(true));
}

/// A room for this many bytes, four of which are taken.
fn room_for(alloc: Global, capacity: usize) -> Result<Vec<u8>, AllocError> {
    let mut room = Vec::with_capacity(alloc, capacity)?;
    room.extend_from_slice(b"room")?;
    Ok(room)
}

/// Rooms, what they keep, and whether it is whole.
static ROOMS: [(usize, &[u8], bool); 3] = [
    (8, b"roomtext", true),
    (6, b"roomte", false),
    (4, b"room", false),
];

/// Whether a room keeps this of a text, and whether that is whole.
fn keeps(alloc: Global, capacity: usize, kept: &[u8], is_whole: bool) -> Result<bool, AllocError> {
    let out = written_surely(room_for(alloc, capacity)?, b"text");
    Ok(out.kept() == kept && out.is_whole() == is_whole)
}

/// Whether a sink that may fail, and doesn't, tells that its room was too small.
fn is_cut(alloc: Global) -> Result<bool, AllocError> {
    let mut out = MemSink::new(room_for(alloc, 6)?, 4, Vec::new(alloc));
    Ok(write_all(&mut out, b"text") == Ok(()) && !out.is_whole())
}

#[test]
fn a_sink_keeps_what_fits_its_room(rt: HostRuntime) {
    for &(capacity, kept, is_whole) in ROOMS.iter() {
        let is_kept = keeps(rt.alloc(), capacity, kept, is_whole);
        holds(&rt, "room", is_kept == Ok(true));
    }
    holds(&rt, "cut", is_cut(rt.alloc()) == Ok(true));
}
