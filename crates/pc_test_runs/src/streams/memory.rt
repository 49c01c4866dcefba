//! A run over memory, as a caller that is proved from the clauses of `run` alone.

ghost use Rattle.std.specs.Prelude.{◌≡◌, ◌≢◌};

use crate::inputs::{SMALLEST, holds};
use pc_tool::{Status, SureSink, SureSource, run};
use std::alloc::{AllocError, Global};
use std::test::*;

/// What a caller knows of a run from memory to memory: no stream fails.
fn run_surely(alloc: Global, words: &[String], bytes: Vec<u8>, room: Vec<u8>) -> Status
    ensures { (result ≢ Status.ReadFault) × (result ≢ Status.WriteFault) }
{
    let mut src = SureSource::new(bytes);
    let mut out = SureSink::new(room);
    run(alloc, words, &mut src, &mut out)
}

/// How a run of a word ends that reads these bytes, and writes to a room for four.
fn ends(alloc: Global, word: &str, bytes: &[u8]) -> Result<Status, AllocError> {
    let words = vec![in alloc; String::from_str(alloc, word)?]?;
    let room = Vec::with_capacity(alloc, 4)?;
    Ok(run_surely(alloc, words.as_slice(), bytes.to_vec(alloc)?, room))
}

/// Words, and how runs on the smallest input end.
static ENDS: [(&str, Status); 4] = [
    ("translate", Status::Done),
    ("context", Status::Done),
    ("facts", Status::Done),
    ("plan", Status::Usage),
];

#[test]
fn a_run_over_memory_has_no_fault(rt: HostRuntime) {
    for &(word, status) in ENDS.iter() {
        let end = ends(rt.alloc(), word, SMALLEST.as_bytes());
        holds(&rt, word, end == Ok(status));
    }
}
