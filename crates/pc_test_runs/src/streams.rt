//! Runs on streams that move little a call, or fail at each of their calls in turn; and over memory.

mod faults;
mod memory;

use crate::inputs::{Ends, Ran, SMALLEST, SMALLEST_PLAN, WHOLE, answer, comes_to, holds};
use pc_tool::Status;
use std::alloc::{AllocError, Global};

/// Whether a run on the smallest input comes to this.
fn smallest_comes_to(alloc: Global, ends: &Ends, want: &Ran<'_>) -> Result<bool, AllocError> {
    comes_to(alloc, "translate", SMALLEST.as_bytes(), ends, want)
}

/// The most bytes a call of source and sink.
static LITTLE: [(usize, usize); 4] = [(1, 1), (7, 1000), (64, 7), (1000, 1)];

/// Whether a run is done whose streams move at most so much a call.
fn is_done(alloc: Global, read_most: usize, write_most: usize) -> Result<bool, AllocError> {
    let ends = Ends {
        read_most,
        write_most,
        ..WHOLE
    };
    smallest_comes_to(alloc, &ends, &answer(Status::Done, SMALLEST_PLAN))
}

#[test]
fn little_a_call_is_enough(rt: HostRuntime) {
    for (read_most, write_most) in LITTLE.iter() {
        let is_so = is_done(rt.alloc(), *read_most, *write_most);
        holds(&rt, "bytes a call", is_so.unwrap_or(false));
    }
}

/// What an input over the limit comes to: one byte more was read than may be.
fn one_byte_over(alloc: Global) -> Result<bool, AllocError> {
    let bytes = vec![in alloc; 32u8; 67108865]?;
    let want = answer(Status::TooLong, "fault too-long\n");
    comes_to(alloc, "translate", &bytes, &WHOLE, &want)
}

#[test]
fn one_byte_over_the_limit_is_too_long(rt: HostRuntime) {
    let is_so = one_byte_over(rt.alloc());
    holds(&rt, "one byte over", is_so.unwrap_or(false));
}

/// Whether bytes that are no UTF-8 are no JSON.
fn is_no_text(alloc: Global) -> Result<bool, AllocError> {
    let want = answer(Status::Refused, "fault not-json\n");
    comes_to(alloc, "translate", b"\"\xff\"", &WHOLE, &want)
}

#[test]
fn bytes_that_are_no_text_are_no_json(rt: HostRuntime) {
    let is_so = is_no_text(rt.alloc());
    holds(&rt, "no text", is_so.unwrap_or(false));
}

/// Words that name no command.
static WORDS: [&str; 11] = [
    "",
    "translate x",
    "Translate",
    "translat",
    "--help",
    "--version",
    "gen",
    "gen 0",
    "gen 01",
    "gen 10001",
    "x translate",
];

/// What other words come to: the input is left alone.
const UNREAD: Ran<'static> = Ran {
    status: Status::Usage,
    written: b"usage: plan translate | plan context | plan facts | plan gen N\n",
    left: 1,
    read_faults: 0,
    write_faults: 0,
};

/// What they come to if the first write fails.
const UNWRITTEN: Ran<'static> = Ran {
    status: Status::WriteFault,
    written: b"",
    write_faults: 1,
    ..UNREAD
};

/// Streams that fail at their first call.
const FAILING: Ends = Ends {
    read_fails: 0,
    write_fails: 0,
    ..WHOLE
};

#[test]
fn other_words_name_no_command(rt: HostRuntime) {
    for words in WORDS.iter() {
        let is_so = comes_to(rt.alloc(), words, b"{", &WHOLE, &UNREAD);
        holds(&rt, words, is_so.unwrap_or(false));
        let is_so = comes_to(rt.alloc(), words, b"{", &FAILING, &UNWRITTEN);
        holds(&rt, words, is_so.unwrap_or(false));
    }
}

/// Chains that are generated, and what their plans have.
static CHAINS: [(&str, &str); 3] = [
    (
        "gen 1",
        "gen 1 instances 3 adapters 1 modules 2 1 inits 3\n",
    ),
    (
        "gen 3",
        "gen 3 instances 7 adapters 3 modules 2 3 inits 7\n",
    ),
    (
        "gen 20",
        "gen 20 instances 41 adapters 20 modules 2 20 inits 41\n",
    ),
];

#[test]
fn chains_are_translated_without_an_input(rt: HostRuntime) {
    for (words, text) in CHAINS.iter() {
        let want = Ran {
            left: 1,
            ..answer(Status::Done, text)
        };
        let is_so = comes_to(rt.alloc(), words, b"{", &WHOLE, &want);
        holds(&rt, words, is_so.unwrap_or(false));
        let is_so = comes_to(rt.alloc(), words, b"{", &FAILING, &UNWRITTEN);
        holds(&rt, words, is_so.unwrap_or(false));
    }
}
