//! Inputs, and runs on them.

use pc_tool::{MemSink, MemSource, Status, run};
use std::alloc::{AllocError, Global};
use std::process::Abort;

/// The smallest component that does something: it lifts one function of one core instance, and exports it.
pub(crate) const SMALLEST: &str =
    r#"{"limit":100,"intrinsics":null,"types":{"core":[[["i32"],["i32"]]],
       "types":[{"func":{"params":[["x","u32"]],"result":"u32","async":false}},{"module":[[],[]]}]},
       "payloads":["version",{"module":{"ty":1,"imports":[],"funcs":[0],"tables":0,"memories":[],"globals":0,
       "tags":0,"exports":[["f","func",0]]}},{"instances":[{"instantiate":[0,[]]}]},
       {"aliases":[{"core-export":["func",0,"f"]}]},{"canon":[["lift",0,0,0,[]]]},{"exports":[["f","func",0]]},
       "end"]}"#;

/// Its plan.
pub(crate) const SMALLEST_PLAN: &str = "plan 1
modules 1 0
counts 1 1 0 0 0 0 0 0 0 0 0 0
init static 0 0 []
options 0 0 utf8 sync - - - -
export \"f\" lifted export(0 func 0) options 0
";

/// How streams behave: the most bytes a call, and the call that fails.
#[derive(Clone, Copy)]
pub(crate) struct Ends {
    pub(crate) read_most: usize,
    pub(crate) read_fails: u64,
    pub(crate) write_most: usize,
    pub(crate) write_fails: u64,
}

/// Streams that move as much as they can, and fail at a call that is never made.
pub(crate) const WHOLE: Ends = Ends {
    read_most: 1000000000,
    read_fails: u64::MAX,
    write_most: 1000000000,
    write_fails: u64::MAX,
};

/// What a run comes to: its status, what it writes, how many bytes are left, and the faults of source and sink.
#[derive(Clone, Copy)]
pub(crate) struct Ran<'a> {
    pub(crate) status: Status,
    pub(crate) written: &'a [u8],
    pub(crate) left: usize,
    pub(crate) read_faults: u64,
    pub(crate) write_faults: u64,
}

/// Words, from a text that has a space between two.
fn words(alloc: Global, text: &str) -> Result<Vec<String>, AllocError> {
    let mut words = Vec::new(alloc);
    for word in text.split(' ') {
        words.push(String::from_str(alloc, word)?)?;
    }
    Ok(words)
}

fn source(alloc: Global, bytes: &[u8], ends: &Ends) -> Result<MemSource, AllocError> {
    let bytes = bytes.to_vec(alloc)?;
    let fails = vec![in alloc; ends.read_fails]?;
    Ok(MemSource::new(bytes, ends.read_most.max(1), fails))
}

/// A sink with room for the longest text.
fn sink(alloc: Global, ends: &Ends) -> Result<MemSink, AllocError> {
    let room = Vec::with_capacity(alloc, 1048576)?;
    let fails = vec![in alloc; ends.write_fails]?;
    Ok(MemSink::new(room, ends.write_most.max(1), fails))
}

/// `run` itself. Its clauses are long, and are opened wherever its answer is looked at, so here nothing is.
fn plain_run(alloc: Global, words: &[String], src: &mut MemSource, out: &mut MemSink) -> Status {
    run(alloc, words, src, out)
}

/// Whether a run of these words comes to this.
fn runs_to(
    alloc: Global,
    words: &[String],
    src: &mut MemSource,
    out: &mut MemSink,
    want: &Ran<'_>,
) -> bool {
    plain_run(alloc, words, src, out) == want.status
        && out.kept() == want.written
        && src.left().len() == want.left
        && (src.faults(), out.faults()) == (want.read_faults, want.write_faults)
}

/// Whether a run of these words over bytes comes to this.
fn ends_in(
    alloc: Global,
    words: &[String],
    bytes: &[u8],
    ends: &Ends,
    want: &Ran<'_>,
) -> Result<bool, AllocError> {
    let mut src = source(alloc, bytes, ends)?;
    let mut out = sink(alloc, ends)?;
    Ok(runs_to(alloc, words, &mut src, &mut out, want))
}

/// Whether a run of words over bytes comes to this.
pub(crate) fn comes_to(
    alloc: Global,
    text: &str,
    bytes: &[u8],
    ends: &Ends,
    want: &Ran<'_>,
) -> Result<bool, AllocError> {
    let words = words(alloc, text)?;
    ends_in(alloc, words.as_slice(), bytes, ends, want)
}

/// What a run comes to that reads all, ends with this status and writes this text.
pub(crate) fn answer(status: Status, text: &str) -> Ran<'_> {
    Ran {
        status,
        written: text.as_bytes(),
        left: 0,
        read_faults: 0,
        write_faults: 0,
    }
}

/// Whether a command ends with this status for an input that is read whole, and writes this text.
pub(crate) fn is_answered(
    alloc: Global,
    command: &str,
    input: &str,
    status: Status,
    text: &str,
) -> Result<bool, AllocError> {
    let want = answer(status, text);
    comes_to(alloc, command, input.as_bytes(), &WHOLE, &want)
}

/// What stands before and behind a text to make an input of it.
#[derive(Clone, Copy)]
pub(crate) struct Around {
    pub(crate) before: &'static str,
    pub(crate) after: &'static str,
}

/// A text between two others.
pub(crate) fn between(
    alloc: Global,
    before: &str,
    text: &str,
    after: &str,
) -> Result<String, AllocError> {
    [before, text, after].join(alloc, "")
}

/// That something holds. All assertions stand here, since each is proved anew where it stands.
pub(crate) fn holds(rt: &impl Abort, what: &str, holds: bool) {
    assert!(rt; holds, "{what}");
}
