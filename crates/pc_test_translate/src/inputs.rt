//! Inputs, and the one place of assertions.

use pc_input::{DecodeError, Input, decode_input};
use std::alloc::{AllocError, Global};
use std::process::Abort;

/// The smallest component that does something: it lifts one function of one core instance, and exports it.
pub(crate) const SMALLEST: &str =
    r#"{"limit":100,"intrinsics":null,"types":{"core":[[["i32"],["i32"]]],
       "types":[{"func":{"params":[["x","u32"]],"result":"u32","async":false}},{"module":[[],[]]}]},
       "payloads":["version",{"module":{"ty":1,"imports":[],"funcs":[0],"tables":0,"memories":[],"globals":0,
       "tags":0,"exports":[["f","func",0]]}},{"instances":[{"instantiate":[0,[]]}]},
       {"aliases":[{"core-export":["func",0,"f"]}]},{"canon":[["lift",0,0,0,[]]]},{"exports":[["f","func",0]]},
       "end"]}"#;

/// The input that a text is.
pub(crate) fn input_of(alloc: Global, text: &str) -> Result<Input, DecodeError> {
    decode_input(alloc, text.as_bytes())
}

/// What stands before and behind a text to make an input of it.
#[derive(Clone, Copy)]
pub(crate) struct Around {
    pub(crate) before: &'static str,
    pub(crate) after: &'static str,
}

/// A text between two others.
pub(crate) fn between(
    alloc: Global,
    before: &str,
    text: &str,
    after: &str,
) -> Result<String, AllocError> {
    [before, text, after].join(alloc, "")
}

/// That something holds. All assertions stand here, since each is proved anew where it stands.
pub(crate) fn holds(rt: &impl Abort, what: &str, holds: bool) {
    assert!(rt; holds, "{what}");
}
